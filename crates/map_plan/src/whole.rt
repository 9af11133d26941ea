// All that is mapped.
ghost use Rattle.std.specs.Prelude.{◌≡◌, ◌≤◌, ℕ, All, IfErr, IfOk, IfSome, Ok, length};
ghost use Rattle.std.specs.Option.{option_map};
ghost use Rattle.lilo_model.specs.ConfLawful.{IsLawful};
ghost use Rattle.lilo_model.specs.PlanRefusal.{if_there, message_check, held_checks, address_checks, plan_at};
ghost use Rattle.lilo_conf.specs.View.{config_view, sections_view};
ghost use Rattle.mbr_table.specs.View.{span_view};
ghost use Rattle.minix_zones.specs.Volume.{volume_view, sizes_of, faults_of, SameVolume};
ghost use Rattle.file_runs.specs.Mapped.{file_view};
ghost use Rattle.map_plan.specs.Named.{LiesOnDisk, SectionLiesOnDisk};
ghost use Rattle.map_plan.specs.Names.{names_of};
ghost use Rattle.map_plan.specs.Sections.{planned_view, planned_views};
ghost use Rattle.map_plan.specs.Skipped.{skipped_paths};
ghost use Rattle.map_plan.specs.Sound.{OnSound, machine_for};
ghost use Rattle.map_plan.specs.View.{Gives, Decides, HasPlanCause};
ghost use Rattle.map_plan.specs.Whole.{FitsFiles, files_planned, files_view};

use crate::address::{MapNaming, check_addresses, check_optional_addresses};
use crate::check::check_message;
use crate::fault::PlanFault;
use crate::files::{PlanFiles, find_files};
use crate::held::{check_disks, check_sections};
use conf_settings::Opt;
use disk_trait::{Disks, Span};
use file_runs::FileRuns;
use lilo_conf::Config;
use minix_zones::Volume;
use std::alloc::Global;

/// What a configuration maps for the boot device that lies in a span.
///
/// # Errors
///
/// The first that is met: of files and devices in the order of the configuration, then of what they hold, then of their
/// addresses.
pub fn plan_files<D: Disks>(
    alloc: Global,
    config: &Config,
    volume: &mut Volume<'_, D>,
    boot: Span,
    now: u32,
) -> Result<PlanFiles, PlanFault>
    requires { IsLawful (config_view config.now) }

    // What is planned.
    ensures plan { OnSound volume.old (λ image machine. Gives (files_view (config_view config.now) now) result
        (plan_at image machine (volume_view volume.old) (span_view boot) (config_view config.now) now)) }
    ensures fits { IfOk result (FitsFiles (sizes_of volume.old)) }
    ensures few { IfOk result (λ files. length files.sections.items ≤ 19) }
    ensures names { IfOk result (λ files. files.names ≡ names_of (planned_views files.sections.items)) }
    ensures skipped { IfOk result (λ files. OnSound volume.old (λ image machine. files.skipped
        ≡ skipped_paths image machine (volume_view volume.old) (sections_view config.now.sections))) }

    // When it is refused.
    ensures cause { IfErr result (HasPlanCause (faults_of volume.old) (faults_of volume.new)) }
    ensures later { faults_of volume.old ≤ faults_of volume.new }
    ensures same { SameVolume volume.old volume.new }
{
    let _disk = disk_of(volume);
    let files = find_files(alloc, config, volume)?;
    check_held(alloc, config, volume, boot, &files)?;
    check_places(config, volume, &files)?;
    Ok(files)
}

/// The disk of a volume, which has sectors and is thus one of four.
pub fn disk_of<D: Disks>(volume: &Volume<'_, D>) -> u8
    ensures value { result ≡ volume.now.span.disk }
    ensures few { result ≤ 3 }
{
    let disk = volume.span().disk;
    volume.count();
    volume.size(disk);
    volume.layout();
    disk
}

// What is held of disks, of the message and of each section.
fn check_held<D: Disks>(
    alloc: Global,
    config: &Config,
    volume: &mut Volume<'_, D>,
    boot: Span,
    files: &PlanFiles,
) -> Result<(), PlanFault>
    requires lawful { IsLawful (config_view config.now) }
    requires fits { FitsFiles (sizes_of volume.old) files.now }
    ensures held { (time : ℕ) → OnSound volume.old (λ now machine.
        files_planned now machine (volume_view volume.old) (config_view config.now) time
        ≡ Ok (files_view (config_view config.now) time files.now)
        → Gives (λ done. tt) result (held_checks now machine (volume_view volume.old) (span_view boot)
        (files_view (config_view config.now) time files.now))) }
    ensures cause { IfErr result (HasPlanCause (faults_of volume.old) (faults_of volume.new)) }
    ensures later { faults_of volume.old ≤ faults_of volume.new }
    ensures same { SameVolume volume.old volume.new }
{
    check_disks(volume, config.disks.items())?;
    check_some_message(&files.message)?;
    check_sections(alloc, volume, boot, files.sections.as_slice())
}

// Whether a message, if there is one, isn't too long.
fn check_some_message(message: &Option<FileRuns>) -> Result<(), PlanFault>
    ensures { Decides result (if_there message_check (option_map file_view message.now)) }
{
    match message {
        Some(file) => check_message(file.size),
        None => Ok(()),
    }
}

// Whether all that is mapped has slots.
fn check_places<D: Disks>(
    config: &Config,
    volume: &Volume<'_, D>,
    files: &PlanFiles,
) -> Result<(), PlanFault>
    requires { FitsFiles (sizes_of volume.now) files.now }
    ensures decided { (time : ℕ)
        → IfSome (files_view (config_view config.now) time files.now).message (LiesOnDisk volume.now.span.disk)
        → All (λ planned. SectionLiesOnDisk volume.now.span.disk (planned_view planned)) files.now.sections.items
        → Decides result (address_checks (machine_for volume.now)
        (files_view (config_view config.now) time files.now)) }
    ensures cause { (before now : ℕ) → IfErr result (HasPlanCause before now) }
{
    let naming = MapNaming {
        mode: config.mode,
        compact: config.compact,
    };
    check_optional_addresses(volume, naming, Opt::Message, &files.message)?;
    check_addresses(volume, naming, files.sections.as_slice())
}
