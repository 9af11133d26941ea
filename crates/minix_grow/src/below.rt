// New zones that a directory gets by a number in an indirect zone.
ghost use Rattle.std.specs.Prelude.{◌≡◌, ◌-◌, ◌/◌, ◌≤◌, ◌<◌, ◌^◌, true, [], length, slice_index, OnOk};
ghost use Rattle.disk_trait.specs.Moments.{IsTold, now, IsQuiet};
ghost use Rattle.lilo_model.specs.MinixEntries.{entries_per_block, places};
ghost use Rattle.lilo_model.specs.MinixLayout.{FitsInode, is_size};
ghost use Rattle.lilo_model.specs.MinixNames.{IsSound};
ghost use Rattle.minix_grow.specs.Below.{
  MayHookBelowNow,
  HasFreeBlockNow,
  HooksBelowUnseen,
  HooksFreeBlock,
  WritesBelowAlone,
};
ghost use Rattle.minix_grow.specs.Hook.{WritesInodeAlone};
ghost use Rattle.minix_grow.specs.Others.{HookHasOnWay, HookKeepsOthers, KeepsOthersNow};
ghost use Rattle.minix_grow.specs.Places.{IsFreePlaceNow, size_to};
ghost use Rattle.minix_grow.specs.Way.{depth_of, index_above};
ghost use Rattle.minix_grow.specs.Zones.{AreData, AreUnused, AreGrownNow};
ghost use Rattle.minix_layout.specs.View.{kind_view, inode_view};
ghost use Rattle.minix_turns.specs.Joined.{Unseen};
ghost use Rattle.minix_turns.specs.Part.{TurnsNumber};
ghost use Rattle.minix_zones.specs.Volume.{volume_view, past_of, HasDeviceCause};

use crate::places::{block_of, size_to};
use crate::way::index_above;
use crate::zones::make_zones;
use disk_trait::Disks;
use minix_layout::Inode;
use minix_turns::{turn_number, turn_size};
use minix_zones::{Volume, ZoneFault};

/// Writes the number of the highest of the new zones that complete the way to a block into the indirect zone above it,
/// which is there, and makes that durable. Where the way of a directory leads there no name sees it.
///
/// # Errors
///
/// `Device` alone.
pub fn hook_in_zone<D: Disks>(
    volume: &mut Volume<'_, D>,
    block: u32,
    growth: &[u32],
    zone: u32,
) -> Result<(), ZoneFault>
    requires from { volume.old.layout.first ≤ zone }
    requires below { zone < volume.old.layout.zones }
    requires some { 1 ≤ length growth.now }
    requires few { length growth.now ≤ depth_of (kind_view volume.old.layout.kind) block }
    requires data { AreData volume.old.layout growth.now }
    requires quiet { IsQuiet (past_of volume.old) }
    requires grown { IsTold (past_of volume.old) → AreGrownNow volume.old block growth.now }
    ensures turns { TurnsNumber volume.old volume.new zone
        (index_above (kind_view volume.old.layout.kind) block (length growth.now - 1))
        (slice_index growth.now (length growth.now - 1)) ZoneFault.Device result }
    ensures unseen { HooksBelowUnseen volume.old volume.new block growth.now zone }
    ensures block { HooksFreeBlock volume.old volume.new block growth.now zone result }
    ensures keeps { HookKeepsOthers volume.old volume.new block growth.now zone result }
    ensures has { HookHasOnWay volume.old volume.new block growth.now zone result }
    ensures quiet { OnOk result (IsQuiet (past_of volume.new)) }
    ensures device { HasDeviceCause volume.old volume.new ZoneFault.Device result }
{
    let level = growth.len() - 1;
    let index = index_above(volume.layout().kind, block, level as u32);
    turn_number(volume, zone, index as u16, growth[level])
}

/// Raises the size of a directory over a place of a block with free entries, where the place is the first one past it,
/// and makes that durable.
fn raise_over<D: Disks>(
    volume: &mut Volume<'_, D>,
    directory: u32,
    node: &Inode,
    place: u32,
) -> Result<(), ZoneFault>
    requires some { 1 ≤ directory }
    requires there { directory ≤ volume.old.layout.inodes }
    requires fits { FitsInode (kind_view volume.old.layout.kind) (inode_view node.now) }
    requires sized { is_size (kind_view volume.old.layout.kind)
        (size_to (kind_view volume.old.layout.kind) place) ≡ true }
    requires small { size_to (kind_view volume.old.layout.kind) place < 2 ^ 32 }
    requires next { place ≤ places (kind_view volume.old.layout.kind) node.now.size }
    requires quiet { IsQuiet (past_of volume.old) }
    ensures unseen { (IsTold (past_of volume.old) → HasFreeBlockNow volume.old directory (inode_view node.now)
        (place / entries_per_block (kind_view volume.old.layout.kind))) → Unseen volume.old volume.new }
    ensures others { WritesInodeAlone volume.old volume.new directory }
    ensures place { (IsTold (past_of volume.old) → HasFreeBlockNow volume.old directory (inode_view node.now)
        (place / entries_per_block (kind_view volume.old.layout.kind)))
        → IsTold (past_of volume.old) → OnOk result (IsFreePlaceNow volume.new directory place) }
    ensures keeps { (IsTold (past_of volume.old) → HasFreeBlockNow volume.old directory (inode_view node.now)
        (place / entries_per_block (kind_view volume.old.layout.kind)))
        → IsTold (past_of volume.old) → OnOk result (KeepsOthersNow volume.old volume.new directory []) }
    ensures quiet { OnOk result (IsQuiet (past_of volume.new)) }
    ensures device { HasDeviceCause volume.old volume.new ZoneFault.Device result }
{
    let size = size_to(volume.layout().kind, place);
    if size <= node.size {
        return Ok(());
    }
    turn_size(volume, directory, node, size)
}

/// Makes new zones that no name needs, by which the way to the block of a place of a directory is completed, the lowest
/// first, and hooks them in the indirect zone above, which is there. Where the place is the first one past the size the
/// size rises over it then. Each of these is made durable before the next, and no name sees one at any moment.
///
/// # Errors
///
/// `Device` alone.
pub fn grow_in_zone<D: Disks>(
    volume: &mut Volume<'_, D>,
    directory: u32,
    node: &Inode,
    place: u32,
    growth: &[u32],
    zone: u32,
) -> Result<(), ZoneFault>
    requires some { 1 ≤ directory }
    requires there { directory ≤ volume.old.layout.inodes }
    requires fits { FitsInode (kind_view volume.old.layout.kind) (inode_view node.now) }
    requires from { volume.old.layout.first ≤ zone }
    requires below { zone < volume.old.layout.zones }
    requires any { 1 ≤ length growth.now }
    requires few { length growth.now ≤ depth_of (kind_view volume.old.layout.kind)
        (place / entries_per_block (kind_view volume.old.layout.kind)) }
    requires data { AreData volume.old.layout growth.now }
    requires sized { is_size (kind_view volume.old.layout.kind)
        (size_to (kind_view volume.old.layout.kind) place) ≡ true }
    requires small { size_to (kind_view volume.old.layout.kind) place < 2 ^ 32 }
    requires next { place ≤ places (kind_view volume.old.layout.kind) node.now.size }
    requires quiet { IsQuiet (past_of volume.old) }
    requires unused { AreUnused volume.old growth.now }
    requires sound { IsTold (past_of volume.old) → IsSound (volume_view volume.old) (now (past_of volume.old)) }
    ensures unseen { (IsTold (past_of volume.old) → MayHookBelowNow volume.old directory (inode_view node.now)
        (place / entries_per_block (kind_view volume.old.layout.kind)) (length growth.now) zone)
        → Unseen volume.old volume.new }
    ensures others { WritesBelowAlone volume.old volume.new directory
        (place / entries_per_block (kind_view volume.old.layout.kind)) growth.now zone }
    ensures place { (IsTold (past_of volume.old) → MayHookBelowNow volume.old directory (inode_view node.now)
        (place / entries_per_block (kind_view volume.old.layout.kind)) (length growth.now) zone)
        → IsTold (past_of volume.old) → OnOk result (IsFreePlaceNow volume.new directory place) }
    ensures keeps { (IsTold (past_of volume.old) → MayHookBelowNow volume.old directory (inode_view node.now)
        (place / entries_per_block (kind_view volume.old.layout.kind)) (length growth.now) zone)
        → IsTold (past_of volume.old) → OnOk result (KeepsOthersNow volume.old volume.new directory growth.now) }
    ensures quiet { OnOk result (IsQuiet (past_of volume.new)) }
    ensures device { HasDeviceCause volume.old volume.new ZoneFault.Device result }
{
    let block = block_of(volume.layout().kind, place);
    make_zones(volume, block, growth)?;
    hook_in_zone(volume, block, growth, zone)?;
    raise_over(volume, directory, node, place)
}
