// What a path leads to.
ghost use Rattle.std.specs.Prelude.{◌≡◌, ◌≤◌, ◌<◌, ◌+◌, ◌++◌, true, false, length, take, Err, IfOk, IfErr};
ghost use Rattle.disk_trait.specs.Past.{Told};
ghost use Rattle.lilo_model.specs.Checks.{with_fault};
ghost use Rattle.lilo_model.specs.MinixParts.{parts_of, content_at};
ghost use Rattle.lilo_model.specs.MinixFind.{Zone, begins_with_slash, find, find_name, find_path, find_through};
ghost use Rattle.minix_layout.specs.View.{super_view, inode_view};
ghost use Rattle.minix_zones.specs.Volume.{volume_view, past_of, faults_of, SameVolume};
ghost use Rattle.minix_tree.specs.LinkText.{next_view, link_text};
ghost use Rattle.minix_tree.specs.View.{Gives, HasTreeCause, IsStat, IsNode};

use crate::stat::{Stat, stat_of};
use crate::tree_fault::TreeFault;
use crate::walk::{Walked, walk};
use disk_trait::Disks;
use minix_layout::Inode;
use minix_zones::{Volume, read_at};

/// The most bytes of a text that is walked.
const TEXT: usize = 1024;

/// The most links that are replaced by their texts.
const LINKS: u32 = 8;

/// The number of the root.
const ROOT: u32 = 1;

/// What a path leads to. Symbolic links are followed everywhere.
///
/// # Errors
///
/// `NotFound` and `NotDirectory` have the position of the component in the text that is walked: the path, or a
/// link's text with what was left after the link. Empty components are skipped and not counted. A path that
/// doesn't begin with a slash is `NotFound(0)`. `TooManyLinks` is for a ninth link, `BadEntry` for an entry of
/// this directory that is followed and names no inode, and `PathTooLong` for a text of more than 1024 bytes.
pub fn lookup<D: Disks>(volume: &mut Volume<'_, D>, path: &[u8]) -> Result<Stat, TreeFault>
    // What is answered.
    ensures found { Told (past_of volume.old) (λ now. Gives (λ stat. stat.inode) result
        (find (super_view volume.old.layout) (parts_of (volume_view volume.old) now) path.now)) }
    ensures node { IfOk result (IsNode volume.old) }
    ensures fits { IfOk result (IsStat volume.old.layout) }

    // When it is refused.
    ensures no_slash { begins_with_slash path.now ≡ false → result ≡ Err (TreeFault.NotFound 0) }
    ensures too_long { begins_with_slash path.now ≡ true → 1024 < length path.now → result ≡ Err TreeFault.PathTooLong }
    ensures cause { IfErr result (HasTreeCause (faults_of volume.old) (faults_of volume.new)) }
    ensures later { faults_of volume.old ≤ faults_of volume.new }
    ensures same { SameVolume volume.old volume.new }
{
    find_path(volume, true, path)
}

/// The same, but a link in the last component isn't followed.
pub fn lookup_name<D: Disks>(volume: &mut Volume<'_, D>, path: &[u8]) -> Result<Stat, TreeFault>
    // What is answered.
    ensures found { Told (past_of volume.old) (λ now. Gives (λ stat. stat.inode) result
        (find_name (super_view volume.old.layout) (parts_of (volume_view volume.old) now) path.now)) }
    ensures node { IfOk result (IsNode volume.old) }
    ensures fits { IfOk result (IsStat volume.old.layout) }

    // When it is refused.
    ensures no_slash { begins_with_slash path.now ≡ false → result ≡ Err (TreeFault.NotFound 0) }
    ensures too_long { begins_with_slash path.now ≡ true → 1024 < length path.now → result ≡ Err TreeFault.PathTooLong }
    ensures cause { IfErr result (HasTreeCause (faults_of volume.old) (faults_of volume.new)) }
    ensures later { faults_of volume.old ≤ faults_of volume.new }
    ensures same { SameVolume volume.old volume.new }
{
    find_path(volume, false, path)
}

/// Whether a text begins with a slash.
pub fn begins_with_slash(text: &[u8]) -> bool
    ensures { result ≡ begins_with_slash text.now }
{
    match text.first() {
        Some(byte) => *byte == b'/',
        None => false,
    }
}

/// What a path leads to; a link in the last component is followed or not.
fn find_path<D: Disks>(
    volume: &mut Volume<'_, D>,
    follows_last: bool,
    path: &[u8],
) -> Result<Stat, TreeFault>
    ensures found { Told (past_of volume.old) (λ now. Gives (λ stat. stat.inode) result
        (find_path (super_view volume.old.layout) (parts_of (volume_view volume.old) now) follows_last path.now)) }
    ensures node { IfOk result (IsNode volume.old) }
    ensures fits { IfOk result (IsStat volume.old.layout) }
    ensures no_slash { begins_with_slash path.now ≡ false → result ≡ Err (TreeFault.NotFound 0) }
    ensures too_long { begins_with_slash path.now ≡ true → 1024 < length path.now → result ≡ Err TreeFault.PathTooLong }
    ensures cause { IfErr result (HasTreeCause (faults_of volume.old) (faults_of volume.new)) }
    ensures later { faults_of volume.old ≤ faults_of volume.new }
    ensures same { SameVolume volume.old volume.new }
{
    if !begins_with_slash(path) {
        return Err(TreeFault::NotFound(0));
    }
    if path.len() > TEXT {
        return Err(TreeFault::PathTooLong);
    }
    let root = stat_of(volume, ROOT)?;
    find_through(volume, follows_last, LINKS, &root, root, path)
}

/// What a text leads to from a directory, with so many links at most. The text of a link, and the one after
/// it, are walked in a buffer of their own.
fn find_through<D: Disks>(
    volume: &mut Volume<'_, D>,
    follows_last: bool,
    links: u32,
    root: &Stat,
    directory: Stat,
    text: &[u8],
) -> Result<Stat, TreeFault>
    requires few { length text.now ≤ 1024 }
    requires root { root.now.inode ≡ 1 }
    requires root_fits { IsStat volume.old.layout root.now }
    requires root_node { IsNode volume.old root.now }
    requires fits { IsStat volume.old.layout directory }
    requires node { IsNode volume.old directory }
    ensures found { Told (past_of volume.old) (λ now. Gives (λ stat. stat.inode) result
        (find_through (super_view volume.old.layout) (parts_of (volume_view volume.old) now) follows_last links
        directory.inode text.now)) }
    ensures node { IfOk result (IsNode volume.old) }
    ensures fits { IfOk result (IsStat volume.old.layout) }
    ensures cause { IfErr result (HasTreeCause (faults_of volume.old) (faults_of volume.new)) }
    ensures later { faults_of volume.old ≤ faults_of volume.new }
    ensures same { SameVolume volume.old volume.new }
{
    match walk(volume, follows_last, directory, text)? {
        Walked::Ends(stat) => Ok(stat),
        Walked::Meets(holder, link, rest) => {
            if links == 0 {
                return Err(TreeFault::TooManyLinks);
            }
            let mut bytes = [0; TEXT];
            let next = text_through(volume, &link.node, rest, &mut bytes)?;
            let directory = if next.from_root { *root } else { holder };
            let text = &bytes[..next.length];
            find_through(volume, follows_last, links - 1, root, directory, text)
        }
    }
}

/// A text that is walked in place of a link's name and what comes after it.
#[derive(Clone, Copy)]
pub struct NextText {
    /// Its bytes.
    pub length: usize,
    /// Whether it is walked from the root.
    pub from_root: bool,
}

/// Writes the text of a link, and the text after it, as they are walked on: the link is read once.
///
/// # Errors
///
/// `PathTooLong` where both have more than 1024 bytes; `Zone`.
pub fn text_through<D: Disks>(
    volume: &mut Volume<'_, D>,
    link: &Inode,
    rest: &[u8],
    into: &mut [u8; 1024],
) -> Result<NextText, TreeFault>
    requires { length rest.now ≤ 1024 }
    ensures text { Told (past_of volume.old) (λ now. Gives (next_view into.new) result
        (link_text (super_view volume.old.layout) (parts_of (volume_view volume.old) now) (inode_view link.now)
        rest.now)) }
    ensures few { IfOk result (λ next. next.length ≤ 1024) }
    ensures cause { IfErr result (HasTreeCause (faults_of volume.old) (faults_of volume.new)) }
    ensures later { faults_of volume.old ≤ faults_of volume.new }
    ensures same { SameVolume volume.old volume.new }
{
    let size = link.size as usize;
    if size + rest.len() > TEXT {
        return Err(TreeFault::PathTooLong);
    }
    read_link(volume, link, into)?;
    let from_root = begins_with_slash(&into[..size]);
    put_after(into, size, rest);
    Ok(NextText {
        length: size + rest.len(),
        from_root,
    })
}

/// Reads the text of a link.
fn read_link<D: Disks>(
    volume: &mut Volume<'_, D>,
    link: &Inode,
    into: &mut [u8; 1024],
) -> Result<(), TreeFault>
    requires { link.now.size ≤ 1024 }
    ensures text { Told (past_of volume.old) (λ now. Gives (λ _. take link.now.size into.new) result
        (with_fault Zone (content_at (super_view volume.old.layout) (parts_of (volume_view volume.old) now)
        (inode_view link.now)))) }
    ensures cause { IfErr result (HasTreeCause (faults_of volume.old) (faults_of volume.new)) }
    ensures later { faults_of volume.old ≤ faults_of volume.new }
    ensures same { SameVolume volume.old volume.new }
{
    if link.size == 0 {
        return Ok(());
    }
    read_at(volume, link, 0, into)?;
    Ok(())
}

/// Writes a text after the first bytes.
pub fn put_after(into: &mut [u8; 1024], at: usize, text: &[u8])
    requires { at + length text.now ≤ 1024 }
    ensures { take (at + length text.now) into.new ≡ take at into.old ++ text.now }
{
    into[at..at + text.len()].copy_from_slice(text);
}
