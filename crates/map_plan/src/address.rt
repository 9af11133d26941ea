// Whether each sector that is mapped has a slot.
ghost use Rattle.std.specs.Prelude.{◌≡◌, ◌≤◌, ◌*◌, ℕ, All, IfSome, IfErr, length};
ghost use Rattle.std.specs.Option.{option_map};
ghost use Rattle.lilo_model.specs.Conf as model;
ghost use Rattle.lilo_model.specs.Disks.{Machine};
ghost use Rattle.lilo_model.specs.MinixParts.{blocks_for};
ghost use Rattle.lilo_model.specs.PlanRefusal.{
  each_passes,
  if_there,
  place_check,
  mapped_file_check,
  system_places_check,
  mapped_address_check,
};
ghost use Rattle.conf_settings.specs.View.{opt_view};
ghost use Rattle.sector_address.specs.View.{geometry_view, mode_view};
ghost use Rattle.minix_zones.specs.Volume.{sizes_of};
ghost use Rattle.slot_lists.specs.Made.{place_view};
ghost use Rattle.slot_lists.specs.Runs.{IsRun, places_in};
ghost use Rattle.run_sections.specs.Counted.{LiesOn};
ghost use Rattle.file_runs.specs.Mapped.{file_view};
ghost use Rattle.map_plan.specs.Devices.{sectors_view, HasDisks};
ghost use Rattle.map_plan.specs.Files.{HasFewPlaces, HasRuns};
ghost use Rattle.map_plan.specs.Named.{LiesOnDisk, SectionLiesOnDisk, NamesAs, NamesBy, file_of_runs};
ghost use Rattle.map_plan.specs.Sections.{planned_view, planned_views, FitsSection};
ghost use Rattle.map_plan.specs.Sound.{machine_for};
ghost use Rattle.map_plan.specs.View.{Decides, HasPlanCause};

use crate::check::check_mapped_file;
use crate::device::SystemSectors;
use crate::fault::PlanFault;
use crate::section::{PlannedSection, SectionFiles};
use conf_settings::Opt;
use disk_trait::Disks;
use file_runs::FileRuns;
use minix_zones::Volume;
use run_sections::Naming;
use sector_address::{Mode, Slot};
use slot_lists::{DiskSector, RunList};

/// How a map names sectors: in which mode, and whether one slot names as many neighbours as it can.
#[derive(Clone, Copy, Debug, PartialEq, Eq)]
pub struct MapNaming {
    pub mode: Mode,
    pub compact: bool,
}

/// Whether each sector of the sections' files and devices has a slot, and no file has too many.
pub fn check_addresses<D: Disks>(
    volume: &Volume<'_, D>,
    naming: MapNaming,
    sections: &[PlannedSection],
) -> Result<(), PlanFault>
    requires { All (FitsSection (sizes_of volume.now)) sections.now }
    ensures decided { (config : model.Config) → NamesAs naming config
        → All (λ planned. SectionLiesOnDisk volume.now.span.disk (planned_view planned)) sections.now
        → Decides result (each_passes (mapped_address_check config (machine_for volume.now))
        (planned_views sections.now)) }
    ensures cause { (before now : ℕ) → IfErr result (HasPlanCause before now) }
{
    for planned in sections {
        check_section_addresses(volume, naming, planned)?;
    }
    Ok(())
}

// The same of one.
fn check_section_addresses<D: Disks>(
    volume: &Volume<'_, D>,
    naming: MapNaming,
    planned: &PlannedSection,
) -> Result<(), PlanFault>
    requires { FitsSection (sizes_of volume.now) planned.now }
    ensures decided { (config : model.Config) → NamesAs naming config
        → SectionLiesOnDisk volume.now.span.disk (planned_view planned.now)
        → Decides result (mapped_address_check config (machine_for volume.now) (planned_view planned.now)) }
    ensures cause { (before now : ℕ) → IfErr result (HasPlanCause before now) }
{
    match &planned.files {
        SectionFiles::System(sectors) => check_system_addresses(volume, naming.mode, *sectors),
        SectionFiles::Kernel(files) => {
            check_file_addresses(volume, naming, Opt::Image, &files.main)?;
            check_optional_addresses(volume, naming, Opt::Initrd, &files.initrd)
        }
    }
}

/// Whether each sector of a file that may be absent has a slot, and it hasn't too many.
pub fn check_optional_addresses<D: Disks>(
    volume: &Volume<'_, D>,
    naming: MapNaming,
    option: Opt,
    file: &Option<FileRuns>,
) -> Result<(), PlanFault>
    requires few { IfSome file.now HasFewPlaces }
    requires runs { IfSome file.now HasRuns }
    ensures decided { (config : model.Config) → NamesAs naming config
        → IfSome (option_map file_view file.now) (LiesOnDisk volume.now.span.disk)
        → Decides result (if_there (mapped_file_check config (machine_for volume.now) (opt_view option))
        (option_map file_view file.now)) }
    ensures cause { (before now : ℕ) → IfErr result (HasPlanCause before now) }
{
    match file {
        Some(file) => check_file_addresses(volume, naming, option, file),
        None => Ok(()),
    }
}

// The same of a file that is there.
fn check_file_addresses<D: Disks>(
    volume: &Volume<'_, D>,
    naming: MapNaming,
    option: Opt,
    file: &FileRuns,
) -> Result<(), PlanFault>
    requires few { HasFewPlaces file.now }
    requires runs { HasRuns file.now }
    ensures decided { (config : model.Config) → NamesAs naming config
        → LiesOnDisk volume.now.span.disk (file_view file.now)
        → Decides result (mapped_file_check config (machine_for volume.now) (opt_view option) (file_view file.now)) }
    ensures cause { (before now : ℕ) → IfErr result (HasPlanCause before now) }
{
    let naming = Naming {
        mode: naming.mode,
        geometry: volume.geometry(volume.span().disk),
        compact: naming.compact,
    };
    check_runs(naming, option, file.size, &file.runs)
}

// The same of its runs, which are few by its size.
fn check_runs(naming: Naming, option: Opt, size: u32, runs: &RunList) -> Result<(), PlanFault>
    requires few { length (places_in runs.now) ≤ 2 * blocks_for size }
    requires runs { All IsRun runs.now }
    ensures decided { (config : model.Config) (machine : Machine) → NamesBy naming config
        → LiesOn machine (geometry_view naming.geometry) (file_of_runs size runs.now)
        → Decides result (mapped_file_check config machine (opt_view option) (file_of_runs size runs.now)) }
    ensures cause { (before now : ℕ) → IfErr result (HasPlanCause before now) }
{
    check_mapped_file(naming, option, runs)
}

// Whether the sectors of another system have slots.
fn check_system_addresses<D: Disks>(
    volume: &Volume<'_, D>,
    mode: Mode,
    sectors: SystemSectors,
) -> Result<(), PlanFault>
    requires { HasDisks sectors }
    ensures decided { (config : model.Config) → config.mode ≡ mode_view mode
        → Decides result (system_places_check config (machine_for volume.now) (sectors_view sectors)) }
    ensures cause { (before now : ℕ) → IfErr result (HasPlanCause before now) }
{
    check_place(volume, mode, Opt::OtherDevice, sectors.first)?;
    match sectors.table {
        Some(table) => check_place(volume, mode, Opt::Table, table),
        None => Ok(()),
    }
}

// Whether a sector has a slot.
fn check_place<D: Disks>(
    volume: &Volume<'_, D>,
    mode: Mode,
    option: Opt,
    place: DiskSector,
) -> Result<(), PlanFault>
    requires { place.disk ≤ 3 }
    ensures decided { (config : model.Config) → config.mode ≡ mode_view mode
        → Decides result (place_check config (machine_for volume.now) (opt_view option) (place_view place)) }
    ensures cause { (before now : ℕ) → IfErr result (HasPlanCause before now) }
{
    match Slot::make(
        mode,
        volume.geometry(place.disk),
        place.disk,
        place.sector,
        1,
    ) {
        Ok(_) => Ok(()),
        Err(fault) => Err(PlanFault::Address(option, fault)),
    }
}
