// The walk of a text from a directory, up to the first link that is to be followed.
ghost use Rattle.std.specs.Prelude.{◌≡◌, ◌≤◌, ◌<◌, ◌&&◌, ◌||◌, not, true, length, IfOk, IfErr, IfSome, IfNone};
ghost use Rattle.disk_trait.specs.Past.{Told};
ghost use Rattle.lilo_model.specs.Checks.{with_fault};
ghost use Rattle.lilo_model.specs.MinixLayout.{is_size, reach};
ghost use Rattle.lilo_model.specs.MinixParts.{parts_of, is_link};
ghost use Rattle.lilo_model.specs.MinixEntries.{find_entry, entries_per_block};
ghost use Rattle.lilo_model.specs.MinixFind.{Zone, child, components, is_last, walk};
ghost use Rattle.minix_layout.specs.View.{kind_view, super_view, inode_view};
ghost use Rattle.minix_zones.specs.Volume.{volume_view, past_of, faults_of, SameVolume};
ghost use Rattle.minix_tree.specs.View.{Gives, HasTreeCause, IsStat, IsNode};
ghost use Rattle.minix_tree.specs.Found.{found_among, found_in};
ghost use Rattle.minix_tree.specs.Walked.{walked_view, IsWalked, IsWalkedNow};

use crate::component::first_component;
use crate::directory::{directory_blocks, places_in};
use crate::entry::entry_at;
use crate::stat::{Stat, is_directory, is_link, stat_of};
use crate::tree_fault::TreeFault;
use disk_trait::Disks;
use minix_layout::{FsKind, Inode};
use minix_zones::{Volume, read_at};

/// Where a walk ends.
#[derive(Clone, Copy)]
pub(crate) enum Walked<'t> {
    /// At an inode.
    Ends(Stat),
    /// At a link in a directory, with the text after it.
    Meets(Stat, Stat, &'t [u8]),
}

/// The inode of the first entry of a name among the first places of a block.
fn find_among(block: &[u8; 1024], kind: FsKind, count: u16, name: &[u8]) -> Option<u32>
    requires { count ≤ entries_per_block (kind_view kind) }
    ensures found { result ≡ found_among (kind_view kind) block.now name.now count }
    ensures some { IfSome result (λ inode. 1 ≤ inode) }
{
    for place in 0..count {
        let entry = entry_at(block, kind, place);
        if entry.inode != 0 && entry.name == name {
            return Some(entry.inode);
        }
    }
    None
}

/// The inode of the first entry of a name in a block of a directory.
fn find_in<D: Disks>(
    volume: &mut Volume<'_, D>,
    directory: &Inode,
    name: &[u8],
    index: u32,
) -> Result<Option<u32>, TreeFault>
    requires { index < reach (kind_view volume.old.layout.kind) }
    ensures found { Told (past_of volume.old) (λ now. Gives (λ found. found) result
        (with_fault Zone (found_in (super_view volume.old.layout) (parts_of (volume_view volume.old) now)
        (inode_view directory.now) name.now index))) }
    ensures some { IfOk result (λ found. IfSome found (λ inode. 1 ≤ inode)) }
    ensures cause { IfErr result (HasTreeCause (faults_of volume.old) (faults_of volume.new)) }
    ensures later { faults_of volume.old ≤ faults_of volume.new }
    ensures same { SameVolume volume.old volume.new }
{
    let mut block = [0; 1024];
    read_at(volume, directory, index, &mut block)?;
    let kind = volume.layout().kind;
    let count = places_in(directory, kind, index);
    Ok(find_among(&block, kind, count, name))
}

/// The inode of the first entry of a name in a directory. Each of its blocks is read once, up to the one that
/// has it.
fn find_entry<D: Disks>(
    volume: &mut Volume<'_, D>,
    directory: &Inode,
    name: &[u8],
) -> Result<Option<u32>, TreeFault>
    requires { is_size (kind_view volume.old.layout.kind) directory.now.size ≡ true }
    ensures found { Told (past_of volume.old) (λ now. Gives (λ found. found) result
        (with_fault Zone (find_entry (super_view volume.old.layout) (parts_of (volume_view volume.old) now)
        (inode_view directory.now) name.now))) }
    ensures some { IfOk result (λ found. IfSome found (λ inode. 1 ≤ inode)) }
    ensures cause { IfErr result (HasTreeCause (faults_of volume.old) (faults_of volume.new)) }
    ensures later { faults_of volume.old ≤ faults_of volume.new }
    ensures same { SameVolume volume.old volume.new }
{
    let blocks = directory_blocks(directory, volume.layout().kind);
    for index in 0..blocks {
        if let Some(inode) = find_in(volume, directory, name, index)? {
            return Ok(Some(inode));
        }
    }
    Ok(None)
}

/// The inode that a directory has under a name, which is the component at a position of a path, counted from 0. Each block of the
/// directory is read once at most, and the inode once.
///
/// # Errors
///
/// `NotDirectory` and `NotFound` with the position; `BadEntry` where the entry's number is none of the volume's; `Zone`.
pub fn child<D: Disks>(
    volume: &mut Volume<'_, D>,
    directory: &Stat,
    position: u16,
    name: &[u8],
) -> Result<Stat, TreeFault>
    requires fits { IsStat volume.old.layout directory.now }
    requires node { IsNode volume.old directory.now }
    ensures found { Told (past_of volume.old) (λ now. Gives (λ stat. stat.inode) result
        (child (super_view volume.old.layout) (parts_of (volume_view volume.old) now) directory.now.inode
        position name.now)) }
    ensures node { IfOk result (IsNode volume.old) }
    ensures fits { IfOk result (IsStat volume.old.layout) }
    ensures cause { IfErr result (HasTreeCause (faults_of volume.old) (faults_of volume.new)) }
    ensures later { faults_of volume.old ≤ faults_of volume.new }
    ensures same { SameVolume volume.old volume.new }
{
    if !is_directory(&directory.node) {
        return Err(TreeFault::NotDirectory(position));
    }
    let Some(inode) = find_entry(volume, &directory.node, name)? else {
        return Err(TreeFault::NotFound(position));
    };
    if inode > volume.layout().inodes {
        return Err(TreeFault::BadEntry(directory.inode));
    }
    stat_of(volume, inode)
}

/// Whether an inode is a link that is to be followed, where this text comes after its name.
fn is_followed(node: &Inode, follows_last: bool, rest: &[u8]) -> bool
    ensures { result ≡ (is_link (inode_view node.now) && (follows_last || not (is_last (components rest.now)))) }
{
    is_link(node) && (follows_last || first_component(rest).is_some())
}

/// The walk from a directory along the components of a text, up to the first link that is to be followed: each,
/// or each but one in the last component.
pub(crate) fn walk<'t, D: Disks>(
    volume: &mut Volume<'_, D>,
    follows_last: bool,
    directory: Stat,
    text: &'t [u8],
) -> Result<Walked<'t>, TreeFault>
    requires few { length text.now ≤ 1024 }
    requires fits { IsStat volume.old.layout directory }
    requires node { IsNode volume.old directory }
    ensures walked { Told (past_of volume.old) (λ now. Gives walked_view result
        (walk (super_view volume.old.layout) (parts_of (volume_view volume.old) now) follows_last
        directory.inode 0 (components text.now))) }
    ensures fits { IfOk result (IsWalked volume.old.layout) }
    ensures node { IfOk result (IsWalkedNow volume.old) }
    ensures cause { IfErr result (HasTreeCause (faults_of volume.old) (faults_of volume.new)) }
    ensures later { faults_of volume.old ≤ faults_of volume.new }
    ensures same { SameVolume volume.old volume.new }
{
    let mut directory = directory;
    let mut text = text;
    let mut position = 0;
    while let Some(component) = first_component(text) {
        let found = child(volume, &directory, position, component.name)?;
        if is_followed(&found.node, follows_last, component.rest) {
            return Ok(Walked::Meets(directory, found, component.rest));
        }
        directory = found;
        text = component.rest;
        position += 1;
    }
    Ok(Walked::Ends(directory))
}
