// Checks that read no disk.
ghost use Rattle.std.specs.Prelude.{◌≡◌, ◌≤◌, ◌<◌, ◌^◌, ℕ, All, IfErr, List, map, length};
ghost use Rattle.std.specs.List.{AllByRecursion};
ghost use Rattle.lilo_model.specs.Conf as model;
ghost use Rattle.lilo_model.specs.Disks.{Machine};
ghost use Rattle.lilo_model.specs.PlanRefusal.{geometry_check, mapped_file_check, message_check, own_places_check};
ghost use Rattle.sector_address.specs.View.{geometry_view, mode_view};
ghost use Rattle.conf_settings.specs.View.{opt_view};
ghost use Rattle.lilo_conf.specs.View.{disk_view};
ghost use Rattle.slot_lists.specs.Made.{place_view};
ghost use Rattle.slot_lists.specs.Runs.{IsRun, places_in};
ghost use Rattle.run_sections.specs.Counted.{LiesOn};
ghost use Rattle.map_plan.specs.Named.{NamesBy, file_of_runs};
ghost use Rattle.map_plan.specs.View.{Decides, HasPlanCause};

use crate::fault::PlanFault;
use conf_settings::Opt;
use disk_trait::Geometry;
use lilo_conf::DiskSection;
use run_sections::{Naming, count_slots};
use sector_address::Mode;
use slot_lists::{DiskSector, RunList, check_places};

/// The most bytes of a message.
const MOST_MESSAGE: u32 = 65_535;

/// The most slots of a file: as many as 65,535 section sectors have.
pub const MOST_SLOTS: u32 = 4_128_705;

/// Whether what is said of a disk is so of its geometry: the sectors of a track first, then the heads.
pub fn check_geometry(disk: &DiskSection, geometry: Geometry) -> Result<(), PlanFault>
    ensures { Decides result (geometry_check (disk_view disk.now) (geometry_view geometry)) }
{
    if let Some(stated) = disk.sectors {
        if stated != geometry.sectors {
            return Err(PlanFault::GeometryDiffers(Opt::Sectors, u32::from(geometry.sectors)));
        }
    }
    if let Some(stated) = disk.heads {
        if stated != geometry.heads {
            return Err(PlanFault::GeometryDiffers(Opt::Heads, u32::from(geometry.heads)));
        }
    }
    Ok(())
}

/// Whether a message of so many bytes isn't too long.
pub fn check_message(size: u32) -> Result<(), PlanFault>
    ensures { (places : List _) → Decides result (message_check (record { size = size; places = places })) }
{
    if size > MOST_MESSAGE {
        return Err(PlanFault::MessageTooLong(size));
    }
    Ok(())
}

/// Whether each sector of the file that an option names has a slot, and these aren't too many.
pub fn check_mapped_file(naming: Naming, option: Opt, runs: &RunList) -> Result<(), PlanFault>
    requires runs { All IsRun runs.now }
    requires room { length (places_in runs.now) < 2 ^ 32 }
    ensures decided { (config : model.Config) (machine : Machine) (size : ℕ) → NamesBy naming config
        → LiesOn machine (geometry_view naming.geometry) (file_of_runs size runs.now)
        → Decides result (mapped_file_check config machine (opt_view option) (file_of_runs size runs.now)) }
    ensures cause { (before now : ℕ) → IfErr result (HasPlanCause before now) }
{
    match count_slots(naming, runs) {
        Ok(count) => {
            if count > MOST_SLOTS {
                Err(PlanFault::TooManySlots(option, count))
            } else {
                Ok(())
            }
        }
        Err(fault) => Err(PlanFault::Address(option, fault)),
    }
}

/// Whether each place of the map's own sectors has a slot.
pub fn check_map_places(
    mode: Mode,
    geometry: Geometry,
    places: &[DiskSector],
) -> Result<(), PlanFault>
    requires { All (λ place. place.disk ≤ 3) places.now }
    ensures { (config : model.Config) (machine : Machine) → config.mode ≡ mode_view mode
        → AllByRecursion (λ place. machine.geometry_of place.disk ≡ geometry_view geometry) (map place_view places.now)
        → Decides result (own_places_check config machine (map place_view places.now)) }
{
    match check_places(places, mode, geometry) {
        Ok(()) => Ok(()),
        Err(fault) => Err(PlanFault::Address(Opt::Map, fault)),
    }
}
