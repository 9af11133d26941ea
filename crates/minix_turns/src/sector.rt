// One sector and a flush.
ghost use Rattle.std.specs.Prelude.{◌≢◌, ◌<◌};
ghost use Rattle.disk_trait.specs.Moments.{IsQuiet};
ghost use Rattle.lilo_model.specs.MinixLayout.{super_sector};
ghost use Rattle.minix_turns.specs.Turns.{Turns};
ghost use Rattle.minix_zones.specs.Volume.{past_of};

use disk_trait::Disks;
use minix_zones::{Volume, ZoneFault};
use sector_parts::Sector;

/// Writes a sector, counted from the start of the volume, and makes it durable, from a quiet moment on. The
/// superblock's sector isn't written.
///
/// # Errors
///
/// `Device` alone.
#[tactic(auto, using(crate::proofs::TurnLemmas::turn_done, crate::proofs::TurnLemmas::turn_refused))]
pub fn turn<D: Disks>(
    volume: &mut Volume<'_, D>,
    sector: u64,
    from: &Sector,
) -> Result<(), ZoneFault>
    requires inside { sector < volume.old.span.count }
    requires no_super { sector ≢ super_sector }
    requires quiet { IsQuiet (past_of volume.old) }
    ensures turns { Turns volume.old volume.new sector from.now ZoneFault.Device result }
{
    volume.write_sector(sector, from)?;
    volume.sync()
}
