// A directory that grows in whichever of its ways it needs.
ghost use Rattle.std.specs.Prelude.{◌≡◌, ◌⊎◌, ◌+◌, ◌/◌, ◌≤◌, ◌<◌, ◌^◌, ℕ, true, [], length, IfErr, OnOk};
ghost use Rattle.disk_trait.specs.Moments.{IsTold, now, IsQuiet};
ghost use Rattle.lilo_model.specs.MinixEntries.{entries_per_block, places};
ghost use Rattle.lilo_model.specs.MinixLayout.{FitsInode, is_size};
ghost use Rattle.lilo_model.specs.MinixNames.{IsSound};
ghost use Rattle.minix_grow.specs.Grow.{AreUnusedWhereMissing, IsLowest, IsSizeOver, ReachesDownNow};
ghost use Rattle.minix_grow.specs.Grow.{MayGrowByNow, MayGrowNow, MayReachNow, GrowsByAlone, GrowsTo};
ghost use Rattle.minix_grow.specs.Others.{KeepsOthersNow};
ghost use Rattle.minix_grow.specs.Places.{IsFreePlaceNow, IsNextPlaceNow, WritesPlaceAlone, size_to};
ghost use Rattle.minix_grow.specs.Way.{depth_of};
ghost use Rattle.minix_grow.specs.Zones.{AreData, AreUnused};
ghost use Rattle.minix_layout.specs.View.{kind_view, inode_view};
ghost use Rattle.minix_turns.specs.Joined.{Unseen};
ghost use Rattle.minix_zones.specs.View.{HasZoneCause};
ghost use Rattle.minix_zones.specs.Volume.{volume_view, past_of, faults_of, HasDeviceCause};

use crate::below::grow_in_zone;
use crate::extend::extend_in_zone;
use crate::hook::grow_in_inode;
use crate::places::{block_of, size_to};
use crate::way::{Lowest, lowest_on_way};
use disk_trait::Disks;
use minix_layout::{FsKind, Inode};
use minix_zones::{Volume, ZoneFault};

/// The size of a directory once a place lies below it.
fn size_over(kind: FsKind, size: u32, place: u32) -> u32
    requires { size_to (kind_view kind) place < 2 ^ 32 }
    ensures { IsSizeOver (kind_view kind) size place result }
{
    let to = size_to(kind, place);
    if to <= size { size } else { to }
}

/// Brings a place below a directory's size where the zone with its block is there.
fn grow_in_block<D: Disks>(
    volume: &mut Volume<'_, D>,
    directory: u32,
    node: &Inode,
    place: u32,
    zone: u32,
) -> Result<(), ZoneFault>
    requires some { 1 ≤ directory }
    requires there { directory ≤ volume.old.layout.inodes }
    requires fits { FitsInode (kind_view volume.old.layout.kind) (inode_view node.now) }
    requires from { volume.old.layout.first ≤ zone }
    requires below { zone < volume.old.layout.zones }
    requires sized { is_size (kind_view volume.old.layout.kind)
        (size_to (kind_view volume.old.layout.kind) place) ≡ true }
    requires small { size_to (kind_view volume.old.layout.kind) place < 2 ^ 32 }
    requires quiet { IsQuiet (past_of volume.old) }
    requires sound { IsTold (past_of volume.old) → IsSound (volume_view volume.old) (now (past_of volume.old)) }
    ensures unseen { (IsTold (past_of volume.old) → MayReachNow volume.old directory (inode_view node.now) place zone)
        → Unseen volume.old volume.new }
    ensures others { WritesPlaceAlone volume.old volume.new directory place zone }
    ensures place { (IsTold (past_of volume.old) → MayReachNow volume.old directory (inode_view node.now) place zone)
        → IsTold (past_of volume.old) → OnOk result (IsFreePlaceNow volume.new directory place) }
    ensures keeps { (IsTold (past_of volume.old) → MayReachNow volume.old directory (inode_view node.now) place zone)
        → IsTold (past_of volume.old) → OnOk result (KeepsOthersNow volume.old volume.new directory []) }
    ensures quiet { OnOk result (IsQuiet (past_of volume.new)) }
    ensures device { HasDeviceCause volume.old volume.new ZoneFault.Device result }
{
    let size = size_to(volume.layout().kind, place);
    if size <= node.size {
        return Ok(());
    }
    extend_in_zone(volume, directory, node, place, zone)
}

/// Brings a place below a directory's size by as many new zones as are missing on the way to its block, of which the
/// highest is hooked in an indirect zone, or in the inode where all of the way is missing.
fn grow_by<D: Disks>(
    volume: &mut Volume<'_, D>,
    directory: u32,
    node: &Inode,
    place: u32,
    growth: &[u32],
    zone: u32,
) -> Result<(), ZoneFault>
    requires some { 1 ≤ directory }
    requires there { directory ≤ volume.old.layout.inodes }
    requires fits { FitsInode (kind_view volume.old.layout.kind) (inode_view node.now) }
    requires node_sized { is_size (kind_view volume.old.layout.kind) node.now.size ≡ true }
    requires sized { is_size (kind_view volume.old.layout.kind)
        (size_to (kind_view volume.old.layout.kind) place) ≡ true }
    requires small { size_to (kind_view volume.old.layout.kind) place < 2 ^ 32 }
    requires next { place ≤ places (kind_view volume.old.layout.kind) node.now.size }
    requires any { 1 ≤ length growth.now }
    requires lowest { IsLowest volume.old.layout (place / entries_per_block (kind_view volume.old.layout.kind))
        (length growth.now) zone }
    requires data { AreData volume.old.layout growth.now }
    requires quiet { IsQuiet (past_of volume.old) }
    requires unused { AreUnused volume.old growth.now }
    requires sound { IsTold (past_of volume.old) → IsSound (volume_view volume.old) (now (past_of volume.old)) }
    ensures unseen { (IsTold (past_of volume.old) → MayGrowByNow volume.old directory (inode_view node.now) place
        (length growth.now) zone) → Unseen volume.old volume.new }
    ensures others { GrowsByAlone volume.old volume.new directory
        (place / entries_per_block (kind_view volume.old.layout.kind)) growth.now zone }
    ensures place { (IsTold (past_of volume.old) → MayGrowByNow volume.old directory (inode_view node.now) place
        (length growth.now) zone) → IsTold (past_of volume.old)
        → OnOk result (IsFreePlaceNow volume.new directory place) }
    ensures keeps { (IsTold (past_of volume.old) → MayGrowByNow volume.old directory (inode_view node.now) place
        (length growth.now) zone) → IsTold (past_of volume.old)
        → OnOk result (KeepsOthersNow volume.old volume.new directory growth.now) }
    ensures quiet { OnOk result (IsQuiet (past_of volume.new)) }
    ensures device { HasDeviceCause volume.old volume.new ZoneFault.Device result }
{
    let kind = volume.layout().kind;
    if zone != 0 {
        return grow_in_zone(volume, directory, node, place, growth, zone);
    }
    let block = block_of(kind, place);
    let size = size_over(kind, node.size, place);
    grow_in_inode(volume, directory, node, block, growth, size)
}

/// The same, with the lowest zone that is there on the way to the place's block.
fn grow_from<D: Disks>(
    volume: &mut Volume<'_, D>,
    directory: u32,
    node: &Inode,
    place: u32,
    growth: &[u32],
    lowest: Lowest,
) -> Result<(), ZoneFault>
    requires some { 1 ≤ directory }
    requires there { directory ≤ volume.old.layout.inodes }
    requires fits { FitsInode (kind_view volume.old.layout.kind) (inode_view node.now) }
    requires node_sized { is_size (kind_view volume.old.layout.kind) node.now.size ≡ true }
    requires sized { is_size (kind_view volume.old.layout.kind)
        (size_to (kind_view volume.old.layout.kind) place) ≡ true }
    requires small { size_to (kind_view volume.old.layout.kind) place < 2 ^ 32 }
    requires next { place ≤ places (kind_view volume.old.layout.kind) node.now.size }
    requires data { AreData volume.old.layout growth.now }
    requires quiet { IsQuiet (past_of volume.old) }
    requires sound { IsTold (past_of volume.old) → IsSound (volume_view volume.old) (now (past_of volume.old)) }
    requires unused { AreUnusedWhereMissing volume.old (inode_view node.now)
        (place / entries_per_block (kind_view volume.old.layout.kind)) growth.now }
    requires lowest { IsLowest volume.old.layout (place / entries_per_block (kind_view volume.old.layout.kind))
        lowest.level lowest.zone }
    requires way { IsTold (past_of volume.old) → ReachesDownNow volume.old (inode_view node.now)
        (place / entries_per_block (kind_view volume.old.layout.kind)) lowest.level lowest.zone }
    ensures grows { (IsTold (past_of volume.old)
        → MayGrowNow volume.old directory (inode_view node.now) place growth.now)
        → GrowsTo volume.old volume.new directory place growth.now result }
    ensures quiet { OnOk result (IsQuiet (past_of volume.new)) }
    ensures cause { IfErr result (HasZoneCause (faults_of volume.old) (faults_of volume.new)) }
{
    let level = lowest.level as usize;
    if level == 0 {
        return grow_in_block(volume, directory, node, place, lowest.zone);
    }
    if growth.len() < level {
        return Err(ZoneFault::ZoneOutside(0));
    }
    grow_by(
        volume,
        directory,
        node,
        place,
        &growth[..level],
        lowest.zone,
    )
}

/// Brings a place below a directory's size, so that it is free and lies in a zone of the directory, in whichever way is
/// needed: the zone with its block is there, or new zones are hooked in the inode or in an indirect zone. No name sees
/// it at any moment. Growth that was made before, also by half, isn't made again.
///
/// # Errors
///
/// `Device`, and on disks that report no past `ZoneOutside`: of a number on the way that is no zone's, or of 0 where
/// more zones are missing than are given.
pub fn grow_directory<D: Disks>(
    volume: &mut Volume<'_, D>,
    directory: u32,
    node: &Inode,
    place: u32,
    growth: &[u32],
) -> Result<(), ZoneFault>
    requires some { 1 ≤ directory }
    requires there { directory ≤ volume.old.layout.inodes }
    requires fits { FitsInode (kind_view volume.old.layout.kind) (inode_view node.now) }
    requires node_sized { is_size (kind_view volume.old.layout.kind) node.now.size ≡ true }
    requires sized { is_size (kind_view volume.old.layout.kind)
        (size_to (kind_view volume.old.layout.kind) place) ≡ true }
    requires small { size_to (kind_view volume.old.layout.kind) place < 2 ^ 32 }
    requires next { place ≤ places (kind_view volume.old.layout.kind) node.now.size }
    requires data { AreData volume.old.layout growth.now }
    requires quiet { IsQuiet (past_of volume.old) }
    requires sound { IsTold (past_of volume.old) → IsSound (volume_view volume.old) (now (past_of volume.old)) }
    requires unused { AreUnusedWhereMissing volume.old (inode_view node.now)
        (place / entries_per_block (kind_view volume.old.layout.kind)) growth.now }
    ensures grows { (IsTold (past_of volume.old)
        → MayGrowNow volume.old directory (inode_view node.now) place growth.now)
        → GrowsTo volume.old volume.new directory place growth.now result }
    ensures quiet { OnOk result (IsQuiet (past_of volume.new)) }

    // When it is refused.
    ensures cause { IfErr result (HasZoneCause (faults_of volume.old) (faults_of volume.new)) }
{
    let block = block_of(volume.layout().kind, place);
    let lowest = lowest_on_way(volume, node, block)?;
    grow_from(volume, directory, node, place, growth, lowest)
}
