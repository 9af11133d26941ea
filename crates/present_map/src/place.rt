// The sectors that slots name.
ghost use Rattle.std.specs.Prelude.{◌<◌, ◌≡◌, IfSome, IsErr, OnOk};
ghost use Rattle.lilo_model.specs.Slots.{place_at};
ghost use Rattle.bios_model.specs.Reads.{OnlyReads};
ghost use Rattle.sector_address.specs.Machine.{machine_of, OnDisks};
ghost use Rattle.sector_address.specs.View.{slot_view};
ghost use Rattle.present_map.specs.Place.{Finds};

use disk_trait::{DiskFault, Disks};
use sector_address::Slot;
use sector_parts::Sector;
use slot_lists::DiskSector;

/// A disk failed.
pub(crate) struct DiskFailed;

impl From<DiskFault> for DiskFailed {
    fn from(_: DiskFault) -> DiskFailed {
        DiskFailed
    }
}

/// The sector that a slot names at an index, where its disk has it.
#[tactic(auto, unfolding(lilo_model::specs::Slots::place_at))]
pub(crate) fn place_of<D: Disks>(disks: &D, slot: &Slot, index: u8) -> Option<DiskSector>
    requires { index < slot.now.count }
    ensures place { Finds result (place_at (machine_of D.Disks disks.now) (slot_view slot.now) index) }
    ensures there { IfSome result (λ place. place.sector < D.size_of disks.now place.disk) }
{
    let Ok(sector) = slot.sector(disks.geometry(slot.disk), index) else {
        return None;
    };
    if sector < disks.size(slot.disk) {
        Some(DiskSector {
            disk: slot.disk,
            sector,
        })
    } else {
        None
    }
}

/// Reads a sector that is there.
pub(crate) fn read_place<D: Disks>(
    disks: &mut D,
    place: DiskSector,
    into: &mut Sector,
) -> Result<(), DiskFailed>
    requires { place.sector < D.size_of disks.old place.disk }
    ensures bytes { OnOk result (OnDisks D.Disks disks.old (λ now machine. into.new ≡ now place.disk place.sector)) }
    ensures reads { OnlyReads D.Disks disks.old disks.new (IsErr result) }
{
    disks.read(place.disk, place.sector, into)?;
    Ok(())
}
