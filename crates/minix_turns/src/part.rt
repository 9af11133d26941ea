// A part of a zone, and a flush.
ghost use Rattle.std.specs.Prelude.{◌≡◌, ◌⊎◌, ◌+◌, ◌/◌, ◌%◌, ◌≤◌, ◌<◌, length, OnOk};
ghost use Rattle.disk_trait.specs.Moments.{IsTold, now, IsQuiet, LeavesOnly};
ghost use Rattle.lilo_model.specs.MinixLayout.{zone_sector};
ghost use Rattle.minix_turns.specs.Part.{part_rewritten, HasPart, WithOrWithoutPart};
ghost use Rattle.minix_turns.specs.Turns.{Turns};
ghost use Rattle.minix_zones.specs.Volume.{past_of};

use crate::sector::turn;
use disk_trait::Disks;
use minix_layout::where_zone;
use minix_zones::{Volume, ZoneFault};
use sector_parts::put_part;

/// Writes a part of a data zone that lies in one of its two sectors, and makes it durable, from a quiet moment on. All
/// other bytes of the sector stay.
///
/// # Errors
///
/// `Device` alone.
pub fn turn_part<D: Disks>(
    volume: &mut Volume<'_, D>,
    zone: u32,
    offset: u16,
    part: &[u8],
) -> Result<(), ZoneFault>
    requires from { volume.old.layout.first ≤ zone }
    requires below { zone < volume.old.layout.zones }
    requires start { offset < 1024 }
    requires inside { offset % 512 + length part.now ≤ 512 }
    requires quiet { IsQuiet (past_of volume.old) }
    ensures turns { Turns volume.old volume.new (zone_sector zone + offset / 512)
        (part_rewritten volume.old zone offset part.now) ZoneFault.Device result }
    ensures any_moment { LeavesOnly (past_of volume.old) (past_of volume.new)
        (WithOrWithoutPart volume.old zone offset part.now) }
    ensures part { IsTold (past_of volume.old)
        → OnOk result (HasPart volume.old (now (past_of volume.new)) zone offset part.now) }
{
    let sector = where_zone(zone) + u64::from(offset / 512);
    let mut bytes = [0; 512];
    volume.read_sector(sector, &mut bytes)?;
    put_part(&mut bytes, usize::from(offset % 512), part);
    turn(volume, sector, &bytes)
}
