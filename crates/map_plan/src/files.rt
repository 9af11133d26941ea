// The files and devices of a configuration.
ghost use Rattle.std.specs.Prelude.{◌≡◌, ◌≤◌, ℕ, IfOk, IfErr, length, min, take};
ghost use Rattle.lilo_model.specs.ConfLawful.{IsLawful};
ghost use Rattle.lilo_model.specs.MinixParts.{parts_of};
ghost use Rattle.lilo_model.specs.PlanRefusal.{left_check};
ghost use Rattle.lilo_conf.specs.View.{config_view, sections_view};
ghost use Rattle.minix_zones.specs.Volume.{volume_view, sizes_of, faults_of, SameVolume};
ghost use Rattle.map_plan.specs.Names.{names_of, default_among};
ghost use Rattle.map_plan.specs.Sections.{planned_views};
ghost use Rattle.map_plan.specs.Skipped.{skipped_paths};
ghost use Rattle.map_plan.specs.Sound.{OnSound};
ghost use Rattle.map_plan.specs.Starts.{start_view, code_planned};
ghost use Rattle.map_plan.specs.View.{Gives, HasPlanCause};
ghost use Rattle.map_plan.specs.Whole.{code_view, files_planned, files_view, FitsFiles};

use crate::fault::PlanFault;
use crate::file::map_optional;
use crate::names::{NameList, has_name, names_of};
use crate::section::{PlannedSection, PlannedSections, map_sections};
use crate::start::{FileStart, read_start};
use conf_text::Text;
use disk_trait::Disks;
use file_runs::FileRuns;
use lilo_conf::Config;
use minix_zones::Volume;
use sector_parts::Sector;
use std::alloc::Global;

/// The first sector of the file with the code.
#[derive(Clone, Copy)]
pub struct BootCode {
    /// Its bytes, with zeros after the file's end.
    pub bytes: Sector,
    /// How many of them are the file's.
    pub length: u16,
}

/// What is mapped of a configuration.
#[derive(Drop)]
pub struct PlanFiles {
    pub code: BootCode,
    /// The message, unless it is empty.
    pub message: Option<FileRuns>,
    /// The sections that aren't omitted.
    pub sections: Vec<PlannedSection>,
    /// Their names, in the order of the table.
    pub names: NameList,
    /// The paths of the sections that are omitted.
    pub skipped: NameList,
}

/// The files and devices that a configuration names: on a sound volume what the plan maps, or refuses.
///
/// # Errors
///
/// `Missing`, `Tree` and `Table` of the first file or device that is refused; then `Missing` where the default is the
/// name of an omitted section, and `NoImagesLeft`; `Device` and `Memory`.
pub fn find_files<D: Disks>(
    alloc: Global,
    config: &Config,
    volume: &mut Volume<'_, D>,
) -> Result<PlanFiles, PlanFault>
    requires disk { volume.old.span.disk ≤ 3 }
    requires lawful { IsLawful (config_view config.now) }

    // What is answered.
    ensures files { (time : ℕ) → OnSound volume.old
        (λ now machine. Gives (files_view (config_view config.now) time) result
        (files_planned now machine (volume_view volume.old) (config_view config.now) time)) }
    ensures names { IfOk result (λ files. files.names ≡ names_of (planned_views files.sections.items)) }
    ensures fits { IfOk result (FitsFiles (sizes_of volume.old)) }
    ensures few { IfOk result (λ files. length files.sections.items ≤ 19) }
    ensures skipped { IfOk result (λ files. OnSound volume.old (λ now machine. files.skipped
        ≡ skipped_paths now machine (volume_view volume.old) (sections_view config.now.sections))) }

    // When it is refused.
    ensures cause { IfErr result (HasPlanCause (faults_of volume.old) (faults_of volume.new)) }
    ensures later { faults_of volume.old ≤ faults_of volume.new }
    ensures same { SameVolume volume.old volume.new }
{
    let code = map_code(alloc, volume, &config.install)?;
    let message = map_optional(alloc, volume, &config.message)?;
    let found = map_sections(alloc, volume, config.sections.items())?;
    let PlannedSections { planned, skipped } = found;
    let names = names_of(alloc, &planned)?;
    check_default(alloc, &config.default_name, &names)?;
    check_left(&planned)?;
    Ok(PlanFiles {
        code,
        message,
        sections: planned,
        names,
        skipped: NameList::new(skipped),
    })
}

// The first sector of the file with the code, of no bytes where none is named.
fn map_code<D: Disks>(
    alloc: Global,
    volume: &mut Volume<'_, D>,
    install: &Option<Text>,
) -> Result<BootCode, PlanFault>
    ensures code { OnSound volume.old (λ now machine. Gives code_view result
        (code_planned (volume_view volume.old) (parts_of (volume_view volume.old) now) install.now)) }
    ensures few { IfOk result (λ code. code.length ≤ 512) }
    ensures cause { IfErr result (HasPlanCause (faults_of volume.old) (faults_of volume.new)) }
    ensures later { faults_of volume.old ≤ faults_of volume.new }
    ensures same { SameVolume volume.old volume.new }
{
    match install {
        Some(path) => match read_start(alloc, volume, path.bytes()) {
            Ok(start) => Ok(code_of(&start)),
            Err(fault) => Err(fault),
        },
        None => Ok(BootCode {
            bytes: [0; 512],
            length: 0,
        }),
    }
}

// The first sector of a file that begins so.
fn code_of(start: &FileStart) -> BootCode
    ensures code { code_view result ≡ take (min 512 start.now.size) (start_view start.now).bytes }
    ensures few { result.length ≤ 512 }
{
    let bytes = start.first;
    let length = start.size.min(512) as u16;
    BootCode { bytes, length }
}

// Whether a section is left.
fn check_left(sections: &[PlannedSection]) -> Result<(), PlanFault>
    ensures left { Gives (λ done. tt) result (left_check (planned_views sections.now)) }
    ensures cause { (before now : ℕ) → IfErr result (HasPlanCause before now) }
{
    if sections.is_empty() {
        return Err(PlanFault::NoImagesLeft);
    }
    Ok(())
}

// Whether the default is a name of a section that isn't omitted.
fn check_default(alloc: Global, default: &Option<Text>, names: &NameList) -> Result<(), PlanFault>
    ensures default { Gives (λ done. tt) result (default_among default.now names.now) }
    ensures cause { (before now : ℕ) → IfErr result (HasPlanCause before now) }
{
    match default {
        Some(name) => {
            if has_name(name.bytes(), names.items()) {
                return Ok(());
            }
            match Text::new(alloc, name.bytes()) {
                Ok(name) => Err(PlanFault::Missing(name)),
                Err(_) => Err(PlanFault::Memory),
            }
        }
        None => Ok(()),
    }
}
