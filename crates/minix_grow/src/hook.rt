// New zones that a directory gets by a number in its inode.
ghost use Rattle.std.specs.Prelude.{◌≡◌, ◌+◌, ◌/◌, ◌≤◌, ◌<◌, ◌^◌, true, length, OnOk};
ghost use Rattle.disk_trait.specs.Moments.{IsTold, now, IsQuiet};
ghost use Rattle.lilo_model.specs.MinixEntries.{entries_per_block, places};
ghost use Rattle.lilo_model.specs.MinixLayout.{FitsInode, is_size, reach};
ghost use Rattle.lilo_model.specs.MinixNames.{IsSound};
ghost use Rattle.minix_grow.specs.Hook.{MayHookTopNow, WritesGrowthAlone, hooked};
ghost use Rattle.minix_grow.specs.Others.{HasOnWayNow, KeepsOthersNow};
ghost use Rattle.minix_grow.specs.Places.{IsFreePlaceNow};
ghost use Rattle.minix_grow.specs.Way.{depth_of};
ghost use Rattle.minix_grow.specs.Zones.{AreData, AreUnused, AreGrownNow};
ghost use Rattle.minix_layout.specs.View.{kind_view, inode_view};
ghost use Rattle.minix_turns.specs.Inode.{TurnsInode};
ghost use Rattle.minix_turns.specs.Joined.{Unseen};
ghost use Rattle.minix_zones.specs.Volume.{volume_view, past_of, HasDeviceCause};

use crate::way::branch_of;
use crate::zones::make_zones;
use disk_trait::Disks;
use minix_layout::Inode;
use minix_turns::turn_pointer;
use minix_zones::{Volume, ZoneFault};

/// Writes the number of the highest of the new zones that complete the way to a place of a directory into the
/// directory's inode, with a size at once, and makes that durable. No name sees it at any moment.
///
/// # Errors
///
/// `Device` alone.
pub fn hook_in_inode<D: Disks>(
    volume: &mut Volume<'_, D>,
    directory: u32,
    node: &Inode,
    block: u32,
    growth: &[u32],
    size: u32,
) -> Result<(), ZoneFault>
    requires some { 1 ≤ directory }
    requires there { directory ≤ volume.old.layout.inodes }
    requires fits { FitsInode (kind_view volume.old.layout.kind) (inode_view node.now) }
    requires near { block < reach (kind_view volume.old.layout.kind) }
    requires all { length growth.now ≡ depth_of (kind_view volume.old.layout.kind) block + 1 }
    requires data { AreData volume.old.layout growth.now }
    requires sized { is_size (kind_view volume.old.layout.kind) size ≡ true }
    requires quiet { IsQuiet (past_of volume.old) }
    requires grown { IsTold (past_of volume.old) → AreGrownNow volume.old block growth.now }
    ensures turns { TurnsInode volume.old volume.new directory (hooked (kind_view volume.old.layout.kind)
        (inode_view node.now) block growth.now size) ZoneFault.Device result }
    ensures unseen { (IsTold (past_of volume.old)
        → MayHookTopNow volume.old directory (inode_view node.now) block size) → Unseen volume.old volume.new }
    ensures places { (place : _) → (IsTold (past_of volume.old)
        → MayHookTopNow volume.old directory (inode_view node.now) block size) → IsTold (past_of volume.old)
        → place / entries_per_block (kind_view volume.old.layout.kind) ≡ block
        → place < places (kind_view volume.old.layout.kind) size
        → OnOk result (IsFreePlaceNow volume.new directory place) }
    ensures keeps { (IsTold (past_of volume.old)
        → MayHookTopNow volume.old directory (inode_view node.now) block size) → IsTold (past_of volume.old)
        → OnOk result (KeepsOthersNow volume.old volume.new directory growth.now) }
    ensures has { (IsTold (past_of volume.old)
        → MayHookTopNow volume.old directory (inode_view node.now) block size) → IsTold (past_of volume.old)
        → OnOk result (HasOnWayNow volume.old volume.new directory block growth.now) }
    ensures quiet { OnOk result (IsQuiet (past_of volume.new)) }
    ensures device { HasDeviceCause volume.old volume.new ZoneFault.Device result }
{
    let branch = branch_of(volume.layout().kind, block);
    let zone = growth[branch.depth as usize];
    turn_pointer(volume, directory, node, branch.top, zone, size)
}

/// Makes new zones that no name needs, by which the way to a block of a directory is completed, the lowest first, and
/// hooks them in the directory's inode, with a size at once. No name sees it at any moment.
///
/// # Errors
///
/// `Device` alone.
pub fn grow_in_inode<D: Disks>(
    volume: &mut Volume<'_, D>,
    directory: u32,
    node: &Inode,
    block: u32,
    growth: &[u32],
    size: u32,
) -> Result<(), ZoneFault>
    requires some { 1 ≤ directory }
    requires there { directory ≤ volume.old.layout.inodes }
    requires fits { FitsInode (kind_view volume.old.layout.kind) (inode_view node.now) }
    requires near { block < reach (kind_view volume.old.layout.kind) }
    requires few { length growth.now ≤ 4 }
    requires all { length growth.now ≡ depth_of (kind_view volume.old.layout.kind) block + 1 }
    requires data { AreData volume.old.layout growth.now }
    requires sized { is_size (kind_view volume.old.layout.kind) size ≡ true }
    requires quiet { IsQuiet (past_of volume.old) }
    requires unused { AreUnused volume.old growth.now }
    requires sound { IsTold (past_of volume.old) → IsSound (volume_view volume.old) (now (past_of volume.old)) }
    ensures unseen { (IsTold (past_of volume.old)
        → MayHookTopNow volume.old directory (inode_view node.now) block size) → Unseen volume.old volume.new }
    ensures others { WritesGrowthAlone volume.old volume.new directory growth.now }
    ensures places { (place : _) → (IsTold (past_of volume.old)
        → MayHookTopNow volume.old directory (inode_view node.now) block size) → IsTold (past_of volume.old)
        → place / entries_per_block (kind_view volume.old.layout.kind) ≡ block
        → place < places (kind_view volume.old.layout.kind) size
        → OnOk result (IsFreePlaceNow volume.new directory place) }
    ensures keeps { (IsTold (past_of volume.old)
        → MayHookTopNow volume.old directory (inode_view node.now) block size) → IsTold (past_of volume.old)
        → OnOk result (KeepsOthersNow volume.old volume.new directory growth.now) }
    ensures quiet { OnOk result (IsQuiet (past_of volume.new)) }
    ensures device { HasDeviceCause volume.old volume.new ZoneFault.Device result }
{
    make_zones(volume, block, growth)?;
    hook_in_inode(volume, directory, node, block, growth, size)
}
