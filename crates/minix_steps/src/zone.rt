// The bytes of a zone.
ghost use Rattle.std.specs.Prelude.{◌≡◌, ◌+◌, ◌≤◌, ◌<◌, OnOk};
ghost use Rattle.disk_trait.specs.Moments.{IsTold, now, begun};
ghost use Rattle.disk_trait.specs.NotWritten.{NotWritten};
ghost use Rattle.disk_trait.specs.Range.{IsOutside};
ghost use Rattle.lilo_model.specs.Bytes.{part_of};
ghost use Rattle.lilo_model.specs.MinixLayout.{zone_sector};
ghost use Rattle.minix_zones.specs.Volume.{volume_view, past_of, HasDeviceCause};
ghost use Rattle.minix_steps.specs.StepLaws.{OneZone};
ghost use Rattle.minix_steps.specs.Steps.{IsReady, IsUnusedZone, Steps};
ghost use Rattle.minix_steps.specs.Written.{with_zone, IsPartOfZone, parts_now};

use crate::write::write_beside;
use disk_trait::Disks;
use minix_layout::where_zone;
use minix_zones::{Volume, ZoneFault};
use sector_parts::Sector;

/// Writes the bytes of a data zone to which no named inode referred at the last flush. They aren't flushed. Where
/// it is refused, either half of the zone may be written.
///
/// # Errors
///
/// `Device` alone.
pub fn write_zone<D: Disks>(
    volume: &mut Volume<'_, D>,
    zone: u32,
    bytes: &[u8; 1024],
) -> Result<(), ZoneFault>
    requires from { volume.old.layout.first ≤ zone }
    requires below { zone < volume.old.layout.zones }
    requires ready { IsReady volume.old }
    requires unused { IsUnusedZone volume.old zone }
    ensures steps { Steps volume.old volume.new }

    // What the disks hold now, and what they held at the last flush.
    ensures written { IsTold (past_of volume.old) → OnOk result (now (past_of volume.new)
        ≡ with_zone (volume_view volume.old) (now (past_of volume.old)) zone bytes.now) }
    ensures made { IsTold (past_of volume.old) → IsPartOfZone (volume_view volume.old)
        (now (past_of volume.old)) (now (past_of volume.new)) zone bytes.now }
    ensures parts { IsTold (past_of volume.old) → OnOk result (OneZone (volume_view volume.old)
        (parts_now volume.old) (parts_now volume.new) zone bytes.now) }
    ensures begun { begun (past_of volume.new) ≡ begun (past_of volume.old) }

    // It wrote no other sector.
    ensures others { (d s : _) → IsOutside volume.old.span.disk (volume.old.span.start + zone_sector zone) 2 d s
        → NotWritten (past_of volume.old) (past_of volume.new) d s }

    ensures device { HasDeviceCause volume.old volume.new ZoneFault.Device result }
{
    let sector = where_zone(zone);
    write_beside(volume, sector, &half(bytes, 0))?;
    write_beside(volume, sector + 1, &half(bytes, 512))
}

// One of the two sectors of a zone, from an offset on.
fn half(bytes: &[u8; 1024], at: usize) -> Sector
    requires { at ≤ 512 }
    ensures { result ≡ part_of bytes.now at 512 }
{
    let mut sector = [0; 512];
    sector.copy_from_slice(&bytes[at..at + 512]);
    sector
}
