// Paths that are read or mapped.
ghost use Rattle.std.specs.Prelude.{◌≡◌, ◌≤◌, IfErr};
ghost use Rattle.std.specs.Option.{option_map};
ghost use Rattle.disk_trait.specs.Past.{Told};
ghost use Rattle.lilo_model.specs.PlanRefusal.{each_passes, if_there};
ghost use Rattle.conf_settings.specs.View.{opt_view};
ghost use Rattle.lilo_conf.specs.View.{config_view, section_view, sections_view};
ghost use Rattle.minix_zones.specs.Volume.{past_of, faults_of, SameVolume};
ghost use Rattle.install_apart.specs.Apart.{GivesApart, HasApartCause};
ghost use Rattle.install_apart.specs.Guarded.{OnGuarded, path_check, part_path, part_check, file_option, file_checks};

use crate::apart_name::{Guarded, ends_at_guarded};
use crate::fault::{ApartFault, judged, unless_stopped};
use conf_settings::Opt;
use conf_text::Text;
use disk_trait::Disks;
use lilo_conf::{Config, Section};
use minix_names::walk_end;
use minix_zones::Volume;

/// Files of a section.
#[derive(Clone, Copy, Debug, PartialEq, Eq)]
enum FilePart {
    Kernel,
    Initrd,
}

// Whether a path leads to none of the guarded names.
fn check_path<D: Disks>(
    volume: &mut Volume<'_, D>,
    guarded: &Guarded,
    path: &[u8],
    option: Opt,
) -> Result<(), ApartFault>
    ensures apart { OnGuarded volume.old guarded.now (λ now volume names. GivesApart result
        (path_check now volume names (opt_view option) path.now)) }
    ensures cause { IfErr result (HasApartCause (faults_of volume.old) (faults_of volume.new)) }
    ensures later { faults_of volume.old ≤ faults_of volume.new }
    ensures same { SameVolume volume.old volume.new }
{
    let mut missed = [0; 1024];
    match walk_end(volume, path, &mut missed) {
        Ok(end) => judged(!ends_at_guarded(guarded, &end, &missed), option),
        Err(fault) => unless_stopped(fault),
    }
}

// The same of a path that may be absent.
fn check_optional<D: Disks>(
    volume: &mut Volume<'_, D>,
    guarded: &Guarded,
    path: &Option<Text>,
    option: Opt,
) -> Result<(), ApartFault>
    ensures apart { OnGuarded volume.old guarded.now (λ now volume names. GivesApart result
        (if_there (path_check now volume names (opt_view option)) path.now)) }
    ensures cause { IfErr result (HasApartCause (faults_of volume.old) (faults_of volume.new)) }
    ensures later { faults_of volume.old ≤ faults_of volume.new }
    ensures same { SameVolume volume.old volume.new }
{
    match path {
        Some(path) => check_path(volume, guarded, path.bytes(), option),
        None => Ok(()),
    }
}

// The path of a part, if it is there.
fn path_of(section: &Section, part: FilePart) -> Option<&[u8]>
    ensures { option_map (λ path. path.now) result ≡ part_path part (section_view section.now) }
{
    match part {
        FilePart::Kernel => {
            if section.other.is_some() {
                None
            } else {
                Some(section.path.bytes())
            }
        }
        FilePart::Initrd => match &section.initrd {
            Some(path) => Some(path.bytes()),
            None => None,
        },
    }
}

// The option that names it.
fn option_of(part: FilePart) -> Opt
    ensures { opt_view result ≡ file_option part }
{
    match part {
        FilePart::Kernel => Opt::Image,
        FilePart::Initrd => Opt::Initrd,
    }
}

// Whether the file of a section is apart, if there is one.
fn check_part<D: Disks>(
    volume: &mut Volume<'_, D>,
    guarded: &Guarded,
    section: &Section,
    part: FilePart,
) -> Result<(), ApartFault>
    ensures apart { OnGuarded volume.old guarded.now (λ now volume names. GivesApart result
        (part_check now volume names part (section_view section.now))) }
    ensures cause { IfErr result (HasApartCause (faults_of volume.old) (faults_of volume.new)) }
    ensures later { faults_of volume.old ≤ faults_of volume.new }
    ensures same { SameVolume volume.old volume.new }
{
    match path_of(section, part) {
        Some(path) => check_path(volume, guarded, path, option_of(part)),
        None => Ok(()),
    }
}

// The same of several sections.
fn check_parts<D: Disks>(
    volume: &mut Volume<'_, D>,
    guarded: &Guarded,
    sections: &[Section],
    part: FilePart,
) -> Result<(), ApartFault>
    ensures apart { OnGuarded volume.old guarded.now (λ now volume names. GivesApart result
        (each_passes (part_check now volume names part) (sections_view sections.now))) }
    ensures cause { IfErr result (HasApartCause (faults_of volume.old) (faults_of volume.new)) }
    ensures later { faults_of volume.old ≤ faults_of volume.new }
    ensures same { SameVolume volume.old volume.new }
{
    for section in sections {
        check_part(volume, guarded, section, part)?;
    }
    Ok(())
}

/// Whether the files that a configuration reads or maps are apart from the guarded names.
pub(crate) fn check_files<D: Disks>(
    volume: &mut Volume<'_, D>,
    guarded: &Guarded,
    config: &Config,
) -> Result<(), ApartFault>
    ensures apart { OnGuarded volume.old guarded.now (λ now volume names. GivesApart result
        (file_checks now volume names (config_view config.now))) }
    ensures cause { IfErr result (HasApartCause (faults_of volume.old) (faults_of volume.new)) }
    ensures later { faults_of volume.old ≤ faults_of volume.new }
    ensures same { SameVolume volume.old volume.new }
{
    check_optional(volume, guarded, &config.install, Opt::Install)?;
    check_optional(volume, guarded, &config.message, Opt::Message)?;
    check_parts(volume, guarded, config.sections.items(), FilePart::Kernel)?;
    check_parts(volume, guarded, config.sections.items(), FilePart::Initrd)
}
