// Sectors that have nothing with a name.
ghost use Rattle.std.specs.Prelude.{◌≢◌, ◌*◌, ◌<◌};
ghost use Rattle.disk_trait.specs.Moments.{IsTold, begun};
ghost use Rattle.lilo_model.specs.MinixLayout.{super_sector};
ghost use Rattle.minix_change_laws.specs.Beside.{Harmless};
ghost use Rattle.minix_zones.specs.Volume.{volume_view, past_of, WritesSector};
ghost use Rattle.minix_steps.specs.Steps.{IsReady, Steps};

use disk_trait::Disks;
use minix_zones::{Volume, ZoneFault};
use sector_parts::Sector;

/// Writes a sector, counted from the start of the volume, with bytes that touch nothing that had a name at the
/// last flush. It isn't flushed.
///
/// # Errors
///
/// `Device` alone.
pub fn write_beside<D: Disks>(
    volume: &mut Volume<'_, D>,
    sector: u64,
    from: &Sector,
) -> Result<(), ZoneFault>
    requires inside { sector < 2 * volume.old.layout.zones }
    requires no_super { sector ≢ super_sector }
    requires ready { IsReady volume.old }
    requires harmless { IsTold (past_of volume.old)
        → Harmless (volume_view volume.old) (begun (past_of volume.old)) sector from.now }
    ensures steps { Steps volume.old volume.new }
    ensures writes { WritesSector volume.old volume.new sector from.now ZoneFault.Device result }
{
    volume.write_sector(sector, from)
}
