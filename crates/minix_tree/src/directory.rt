// Directories block by block.
ghost use Rattle.std.specs.Prelude.{◌≡◌, ◌≤◌, ◌<◌, ◌^◌, true, map, OnErr, IfOk, IfErr};
ghost use Rattle.disk_trait.specs.Past.{Told};
ghost use Rattle.lilo_model.specs.Checks.{with_fault};
ghost use Rattle.lilo_model.specs.MinixLayout.{is_size, reach};
ghost use Rattle.lilo_model.specs.MinixParts.{parts_of};
ghost use Rattle.lilo_model.specs.MinixEntries.{entries_per_block, places};
ghost use Rattle.lilo_model.specs.MinixFind.{Zone};
ghost use Rattle.minix_layout.specs.View.{kind_view, super_view, inode_view};
ghost use Rattle.minix_zones.specs.Volume.{volume_view, past_of, faults_of, SameVolume};
ghost use Rattle.minix_tree.specs.Placed.{placed_from};
ghost use Rattle.minix_tree.specs.Directory.{directory_blocks, places_in, without_place, block_entries};
ghost use Rattle.minix_tree.specs.View.{Gives, HasTreeCause};

use crate::entry::{entries_per_block, entry_size};
use crate::tree_fault::TreeFault;
use disk_trait::Disks;
use minix_layout::{FsKind, Inode};
use minix_zones::{Volume, read_at};

/// How many entries of a directory lie whole below its size.
pub fn places(inode: &Inode, kind: FsKind) -> u32
    ensures value { result ≡ places (kind_view kind) inode.now.size }
    ensures few { result < 2 ^ 28 }
{
    inode.size / u32::from(entry_size(kind))
}

/// How many blocks of a directory have entries that lie whole below its size.
pub fn directory_blocks(inode: &Inode, kind: FsKind) -> u32
    ensures value { result ≡ directory_blocks (kind_view kind) inode.now.size }
    ensures reached { is_size (kind_view kind) inode.now.size ≡ true → result ≤ reach (kind_view kind) }
{
    let places = places(inode, kind);
    let per = u32::from(entries_per_block(kind));
    (places + (per - 1)) / per
}

/// How many entries of a directory's block lie whole below the directory's size.
pub(crate) fn places_in(inode: &Inode, kind: FsKind, index: u32) -> u16
    ensures value { result ≡ places_in (kind_view kind) inode.now.size index }
    ensures few { result ≤ entries_per_block (kind_view kind) }
{
    let places = places(inode, kind);
    let per = entries_per_block(kind);
    let before = u64::from(per) * u64::from(index);
    let left = u64::from(places).saturating_sub(before);
    if left < u64::from(per) {
        left as u16
    } else {
        per
    }
}

/// Reads a block of a directory, and gives how many entries of it lie whole below the directory's size: those
/// are the ones that `entries_among` goes over. Where there are none, nothing is read. The inode isn't asked
/// whether it is a directory.
pub fn read_entries<D: Disks>(
    volume: &mut Volume<'_, D>,
    inode: &Inode,
    index: u32,
    into: &mut [u8; 1024],
) -> Result<u16, TreeFault>
    requires { index < reach (kind_view volume.old.layout.kind) }

    // What is read.
    ensures entries { Told (past_of volume.old) (λ now. Gives
        (λ count. map without_place (placed_from (kind_view volume.old.layout.kind) into.new 0 count)) result
        (with_fault Zone (block_entries (super_view volume.old.layout) (parts_of (volume_view volume.old) now)
        (inode_view inode.now) index))) }
    ensures count { IfOk result (λ count. count ≡ places_in (kind_view volume.old.layout.kind) inode.now.size index) }
    ensures few { IfOk result (λ count. count ≤ entries_per_block (kind_view volume.old.layout.kind)) }
    ensures refused { OnErr result (into.new ≡ into.old) }

    // When it is refused.
    ensures cause { IfErr result (HasTreeCause (faults_of volume.old) (faults_of volume.new)) }
    ensures later { faults_of volume.old ≤ faults_of volume.new }
    ensures same { SameVolume volume.old volume.new }
{
    let count = places_in(inode, volume.layout().kind, index);
    if count == 0 {
        return Ok(0);
    }
    read_at(volume, inode, index, into)?;
    Ok(count)
}
