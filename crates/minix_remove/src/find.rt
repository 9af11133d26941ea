// Where a directory has a name.
ghost use Rattle.std.specs.Prelude.{◌≡◌, ◌+◌, ◌≤◌, ◌<◌, ◌^◌, true, option_map, IfOk, IfErr, IfSome};
ghost use Rattle.disk_trait.specs.Past.{Told};
ghost use Rattle.lilo_model.specs.MinixLayout.{is_size, reach};
ghost use Rattle.lilo_model.specs.MinixParts.{parts_of};
ghost use Rattle.lilo_model.specs.MinixEntries.{entries_per_block, places};
ghost use Rattle.minix_layout.specs.View.{kind_view, super_view, inode_view};
ghost use Rattle.minix_remove.specs.Found.{inode_of, IsAmong, Finds, FindsIn};
ghost use Rattle.minix_tree.specs.Directory.{directory_blocks};
ghost use Rattle.minix_tree.specs.Found.{found_among};
ghost use Rattle.minix_tree.specs.View.{HasTreeCause};
ghost use Rattle.minix_zones.specs.Volume.{volume_view, past_of, faults_of, SameVolume};

use disk_trait::Disks;
use minix_layout::{FsKind, Inode};
use minix_tree::{TreeFault, directory_blocks, entries_per_block, entry_at, places};
use minix_zones::{Volume, read_at};

/// An entry of a directory: its place, and the inode that it leads to.
#[derive(Clone, Copy)]
pub(crate) struct Found {
    pub(crate) place: u32,
    pub(crate) inode: u32,
}

/// The first entry of a name among the first places of a block, whose first place is this one of the directory.
fn find_among(
    block: &[u8; 1024],
    kind: FsKind,
    count: u16,
    first: u32,
    name: &[u8],
) -> Option<Found>
    requires few { count ≤ entries_per_block (kind_view kind) }
    requires fits { first + count < 2 ^ 32 }
    ensures found { option_map inode_of result ≡ found_among (kind_view kind) block.now name.now count }
    ensures place { IfSome result (IsAmong (kind_view kind) block.now name.now first count) }
{
    for at in 0..count {
        let entry = entry_at(block, kind, at);
        if entry.inode != 0 && entry.name == name {
            return Some(Found {
                place: first + u32::from(at),
                inode: entry.inode,
            });
        }
    }
    None
}

/// The first entry of a name in a block of a directory.
fn find_in<D: Disks>(
    volume: &mut Volume<'_, D>,
    directory: &Inode,
    name: &[u8],
    index: u32,
) -> Result<Option<Found>, TreeFault>
    requires reached { index < reach (kind_view volume.old.layout.kind) }
    requires inside { index < directory_blocks (kind_view volume.old.layout.kind) directory.now.size }
    ensures found { Told (past_of volume.old) (λ now. FindsIn (super_view volume.old.layout)
        (parts_of (volume_view volume.old) now) (inode_view directory.now) name.now index result) }
    ensures below { IfOk result (λ found. IfSome found (λ entry.
        entry.place < places (kind_view volume.old.layout.kind) directory.now.size)) }
    ensures some { IfOk result (λ found. IfSome found (λ entry. 1 ≤ entry.inode)) }
    ensures cause { IfErr result (HasTreeCause (faults_of volume.old) (faults_of volume.new)) }
    ensures later { faults_of volume.old ≤ faults_of volume.new }
    ensures same { SameVolume volume.old volume.new }
{
    let kind = volume.layout().kind;
    let per = u32::from(entries_per_block(kind));
    let all = places(directory, kind);
    let first = index * per;
    let count = per.min(all - first) as u16;
    let mut block = [0; 1024];
    if let Err(fault) = read_at(volume, directory, index, &mut block) {
        return Err(TreeFault::Zone(fault));
    }
    Ok(find_among(&block, kind, count, first, name))
}

/// The first entry of a name in a directory. Each of its blocks is read once, up to the one that has it.
pub(crate) fn find_name<D: Disks>(
    volume: &mut Volume<'_, D>,
    directory: &Inode,
    name: &[u8],
) -> Result<Option<Found>, TreeFault>
    requires { is_size (kind_view volume.old.layout.kind) directory.now.size ≡ true }
    ensures found { Told (past_of volume.old) (λ now. Finds (super_view volume.old.layout)
        (parts_of (volume_view volume.old) now) (inode_view directory.now) name.now result) }
    ensures below { IfOk result (λ found. IfSome found (λ entry.
        entry.place < places (kind_view volume.old.layout.kind) directory.now.size)) }
    ensures some { IfOk result (λ found. IfSome found (λ entry. 1 ≤ entry.inode)) }
    ensures cause { IfErr result (HasTreeCause (faults_of volume.old) (faults_of volume.new)) }
    ensures later { faults_of volume.old ≤ faults_of volume.new }
    ensures same { SameVolume volume.old volume.new }
{
    let blocks = directory_blocks(directory, volume.layout().kind);
    for index in 0..blocks {
        if let Some(found) = find_in(volume, directory, name, index)? {
            return Ok(Some(found));
        }
    }
    Ok(None)
}
