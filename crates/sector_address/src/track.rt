// Sectors by number, and by cylinder, head and sector.
ghost use Rattle.std.specs.Prelude.{◌≡◌};
ghost use Rattle.lilo_model.specs.Checks.{seen};
ghost use Rattle.lilo_model.specs.Slots.{to_chs, to_lba, cylinder_of};
ghost use Rattle.sector_address.specs.View.{geometry_view, chs_view, address_fault_view};

use crate::{AddressFault, Chs};
use disk_trait::Geometry;

/// The last cylinder that INT 13h can name.
pub(crate) const LAST_CYLINDER: u64 = 1023;

/// The cylinder, head and sector of a sector number. `Cylinder` reports a cylinder above 1023.
#[tactic(auto, unfolding(lilo_model::specs::Slots::to_chs))]
pub fn to_chs(geometry: Geometry, sector: u64) -> Result<Chs, AddressFault>
    ensures { seen chs_view address_fault_view result ≡ to_chs (geometry_view geometry) sector }
{
    let cylinder = cylinder_of(geometry, sector);
    if cylinder > LAST_CYLINDER {
        return Err(AddressFault::Cylinder(cylinder));
    }
    let heads = u64::from(geometry.heads);
    let sectors = u64::from(geometry.sectors);
    Ok(Chs {
        cylinder: cylinder as u16,
        head: (sector / sectors % heads) as u8,
        sector: (sector % sectors + 1) as u8,
    })
}

/// The sector number of a cylinder, head and sector. `NotFound` is for a head or a sector that the disk
/// doesn't have.
#[tactic(auto, unfolding(lilo_model::specs::Slots::to_lba))]
pub fn to_lba(geometry: Geometry, at: Chs) -> Result<u64, AddressFault>
    ensures { seen (λ number. number) address_fault_view result
        ≡ to_lba (geometry_view geometry) at.cylinder at.head at.sector }
{
    if u16::from(at.head) < geometry.heads && at.sector >= 1 && at.sector <= geometry.sectors {
        let track = u64::from(at.cylinder) * u64::from(geometry.heads) + u64::from(at.head);
        Ok(track * u64::from(geometry.sectors) + u64::from(at.sector - 1))
    } else {
        Err(AddressFault::NotFound)
    }
}

/// The cylinder of a sector number.
pub(crate) fn cylinder_of(geometry: Geometry, sector: u64) -> u64
    ensures { result ≡ cylinder_of (geometry_view geometry) sector }
{
    sector / (u64::from(geometry.heads) * u64::from(geometry.sectors))
}
