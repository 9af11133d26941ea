// The bitmap bits of an inode's zones.
ghost use Rattle.std.specs.Prelude.{◌≤◌, ◌<◌};
ghost use Rattle.disk_trait.specs.Moments.{IsTold};
ghost use Rattle.minix_layout.specs.View.{inode_view};
ghost use Rattle.minix_steps.specs.Steps.{IsReady, IsUnusedZone};
ghost use Rattle.minix_steps.specs.Written.{parts_now};
ghost use Rattle.minix_zones.specs.Volume.{volume_view, past_of};
ghost use Rattle.minix_fill.specs.Changes.{Changes, IsOffMaps};
ghost use Rattle.minix_fill.specs.Freed.{ClearsZone, ClearsMet, MayClear};

use disk_trait::Disks;
use minix_layout::Inode;
use minix_steps::free_zone;
use minix_zones::{Volume, Walk, ZoneFault};

/// Clears the bits of the zones that a walk over an inode meets. They aren't flushed.
pub(crate) fn clear_zones<D: Disks>(
    volume: &mut Volume<'_, D>,
    inode: &Inode,
) -> Result<(), ZoneFault>
    requires ready { IsReady volume.old }
    requires may { IsTold (past_of volume.old) → MayClear volume.old (inode_view inode.now) }
    ensures { Changes volume.old volume.new (IsOffMaps volume.old) (ClearsMet (inode_view inode.now)) result }
{
    let mut walk = Walk::new(inode, volume.layout().kind);
    while let Some(visit) = walk.next(volume)? {
        clear_zone(volume, visit.zone)?;
    }
    Ok(())
}

// Clears the bit of a zone.
fn clear_zone<D: Disks>(volume: &mut Volume<'_, D>, zone: u32) -> Result<(), ZoneFault>
    requires from { volume.old.layout.first ≤ zone }
    requires below { zone < volume.old.layout.zones }
    requires ready { IsReady volume.old }
    requires unused { IsUnusedZone volume.old zone }
    ensures { Changes volume.old volume.new (IsOffMaps volume.old) (ClearsZone zone) result }
{
    free_zone(volume, zone)
}
