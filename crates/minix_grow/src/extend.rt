// A place past a directory's size that lies in a zone that is there.
ghost use Rattle.std.specs.Prelude.{◌≡◌, ◌≤◌, ◌<◌, ◌^◌, true, [], OnOk};
ghost use Rattle.disk_trait.specs.Moments.{IsTold, IsQuiet};
ghost use Rattle.lilo_model.specs.MinixLayout.{FitsInode, is_size};
ghost use Rattle.minix_grow.specs.Others.{KeepsOthersNow};
ghost use Rattle.minix_grow.specs.Places.{IsFreePlaceNow, IsNextPlaceNow, WritesPlaceAlone, size_to};
ghost use Rattle.minix_layout.specs.View.{kind_view, inode_view};
ghost use Rattle.minix_turns.specs.Joined.{Unseen};
ghost use Rattle.minix_zones.specs.Volume.{past_of, HasDeviceCause};

use crate::places::{size_to, slot_of};
use disk_trait::Disks;
use minix_layout::Inode;
use minix_turns::{turn_free, turn_size};
use minix_zones::{Volume, ZoneFault};

/// Brings the first place past a directory's size below it, where it lies in a zone that the directory has: the place
/// is filled with zeros first, and each of the two is made durable. No name sees it at any moment.
///
/// # Errors
///
/// `Device` alone.
pub fn extend_in_zone<D: Disks>(
    volume: &mut Volume<'_, D>,
    directory: u32,
    node: &Inode,
    place: u32,
    zone: u32,
) -> Result<(), ZoneFault>
    requires some { 1 ≤ directory }
    requires there { directory ≤ volume.old.layout.inodes }
    requires fits { FitsInode (kind_view volume.old.layout.kind) (inode_view node.now) }
    requires from { volume.old.layout.first ≤ zone }
    requires below { zone < volume.old.layout.zones }
    requires sized { is_size (kind_view volume.old.layout.kind)
        (size_to (kind_view volume.old.layout.kind) place) ≡ true }
    requires small { size_to (kind_view volume.old.layout.kind) place < 2 ^ 32 }
    requires quiet { IsQuiet (past_of volume.old) }
    ensures unseen { (IsTold (past_of volume.old)
        → IsNextPlaceNow volume.old directory (inode_view node.now) place zone) → Unseen volume.old volume.new }
    ensures others { WritesPlaceAlone volume.old volume.new directory place zone }
    ensures place { (IsTold (past_of volume.old)
        → IsNextPlaceNow volume.old directory (inode_view node.now) place zone)
        → IsTold (past_of volume.old) → OnOk result (IsFreePlaceNow volume.new directory place) }
    ensures keeps { (IsTold (past_of volume.old)
        → IsNextPlaceNow volume.old directory (inode_view node.now) place zone)
        → IsTold (past_of volume.old) → OnOk result (KeepsOthersNow volume.old volume.new directory []) }
    ensures quiet { OnOk result (IsQuiet (past_of volume.new)) }
    ensures device { HasDeviceCause volume.old volume.new ZoneFault.Device result }
{
    let kind = volume.layout().kind;
    let index = slot_of(kind, place);
    let size = size_to(kind, place);
    turn_free(volume, zone, index)?;
    turn_size(volume, directory, node, size)
}
