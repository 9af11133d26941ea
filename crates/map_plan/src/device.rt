// Devices.
ghost use Rattle.std.specs.Prelude.{◌≡◌, ◌≤◌, IfOk, IfErr, IfSome};
ghost use Rattle.std.specs.Option.{option_map};
ghost use Rattle.mbr_table.specs.View.{device_view};
ghost use Rattle.minix_zones.specs.Volume.{sizes_of, faults_of, SameVolume};
ghost use Rattle.slot_lists.specs.Made.{place_view};
ghost use Rattle.map_plan.specs.Devices.{
  device_planned,
  table_planned,
  system_planned,
  sectors_view,
  IsThereIn,
  HasDisks,
  IsOnFour,
};
ghost use Rattle.map_plan.specs.Sound.{OnVolume};
ghost use Rattle.map_plan.specs.View.{Gives, HasPlanCause};

use crate::fault::PlanFault;
use disk_trait::Disks;
use mbr_table::{Device, TableFault, place_of};
use minix_zones::Volume;
use slot_lists::DiskSector;

/// The first sector of a device.
///
/// # Errors
///
/// `Table` where the device isn't found, and `Device`.
pub fn map_device<D: Disks>(
    volume: &mut Volume<'_, D>,
    device: Device,
) -> Result<DiskSector, PlanFault>
    // What is answered.
    ensures place { OnVolume volume.old (λ now machine. Gives place_view result
        (device_planned now machine (device_view device))) }
    ensures there { IfOk result (IsThereIn (sizes_of volume.old)) }
    ensures disk { IfOk result (λ place. place.disk ≡ device.disk) }

    // When it is refused.
    ensures cause { IfErr result (HasPlanCause (faults_of volume.old) (faults_of volume.new)) }
    ensures later { faults_of volume.old ≤ faults_of volume.new }
    ensures same { SameVolume volume.old volume.new }
{
    match volume.ask_disks(|disks| place_of(disks, device)) {
        Ok(span) => Ok(DiskSector {
            disk: span.disk,
            sector: span.start,
        }),
        Err(TableFault::Device) => Err(PlanFault::Device),
        Err(fault) => Err(PlanFault::Table(fault)),
    }
}

/// What is mapped of another system.
#[derive(Clone, Copy, Debug, PartialEq, Eq)]
pub struct SystemSectors {
    /// The first sector of its device.
    pub first: DiskSector,
    /// That of the device whose partition table it is given.
    pub table: Option<DiskSector>,
}

/// The first sectors of another system's device and of the one whose partition table it is given.
///
/// # Errors
///
/// As `map_device`: its own device's first, then the table's.
pub fn map_system<D: Disks>(
    volume: &mut Volume<'_, D>,
    device: Device,
    table: Option<Device>,
) -> Result<SystemSectors, PlanFault>
    // What is answered.
    ensures sectors { OnVolume volume.old (λ now machine. Gives sectors_view result
        (system_planned now machine (device_view device) (option_map device_view table))) }
    ensures there { IfOk result (λ sectors. IsThereIn (sizes_of volume.old) sectors.first) }
    ensures disks { IsOnFour device → IfSome table IsOnFour → IfOk result HasDisks }

    // When it is refused.
    ensures cause { IfErr result (HasPlanCause (faults_of volume.old) (faults_of volume.new)) }
    ensures later { faults_of volume.old ≤ faults_of volume.new }
    ensures same { SameVolume volume.old volume.new }
{
    let first = map_device(volume, device)?;
    let table = map_table(volume, table)?;
    Ok(SystemSectors { first, table })
}

// The first sector of a device that may be absent.
fn map_table<D: Disks>(
    volume: &mut Volume<'_, D>,
    table: Option<Device>,
) -> Result<Option<DiskSector>, PlanFault>
    ensures place { OnVolume volume.old (λ now machine. Gives (option_map place_view) result
        (table_planned now machine (option_map device_view table))) }
    ensures disks { IfSome table IsOnFour → IfOk result (λ found. IfSome found (λ place. place.disk ≤ 3)) }
    ensures cause { IfErr result (HasPlanCause (faults_of volume.old) (faults_of volume.new)) }
    ensures later { faults_of volume.old ≤ faults_of volume.new }
    ensures same { SameVolume volume.old volume.new }
{
    match table {
        Some(device) => match map_device(volume, device) {
            Ok(place) => Ok(Some(place)),
            Err(fault) => Err(fault),
        },
        None => Ok(None),
    }
}
