// Where the walk of a path ends.
ghost use Rattle.std.specs.Prelude.{◌≡◌, ◌≤◌, length, IfOk, IfErr};
ghost use Rattle.disk_trait.specs.Past.{Told};
ghost use Rattle.lilo_model.specs.MinixParts.{parts_of};
ghost use Rattle.lilo_model.specs.MinixFind.{components, is_last};
ghost use Rattle.minix_layout.specs.View.{super_view};
ghost use Rattle.minix_zones.specs.Volume.{volume_view, past_of, faults_of, SameVolume};
ghost use Rattle.minix_tree.specs.View.{Gives, HasTreeCause, IsStat, IsNode};
ghost use Rattle.minix_names.specs.Ends.{text_end, ends_through, path_end};
ghost use Rattle.minix_names.specs.View.{end_view, text_view, HasName, IsTextEnd, IsTextEndNow};

use crate::entry::child_or_last;
use disk_trait::Disks;
use minix_tree::{
    Stat, TreeFault, begins_with_slash, first_component, is_link, put_after, stat_of, text_through,
};
use minix_zones::Volume;

/// The most bytes of a text that is walked.
const TEXT: usize = 1024;

/// The most links that are replaced by their texts.
const LINKS: u32 = 8;

/// The number of the root.
const ROOT: u32 = 1;

/// Where the walk of a path ends.
#[derive(Clone, Copy, Debug, PartialEq, Eq)]
pub enum PathEnd {
    /// At the inode of this number.
    At(u32),
    /// At the last component of the text that is walked, of which the directory of this number has no entry. It has so
    /// many bytes.
    Misses(u32, usize),
}

/// Where the walk of a text ends.
#[derive(Clone, Copy)]
pub(crate) enum TextEnd<'t> {
    /// At an inode.
    Ends(Stat),
    /// At a link in a directory, with the text after it.
    Meets(Stat, Stat, &'t [u8]),
    /// At a last component that its directory lacks.
    Lacks(Stat, &'t [u8]),
}

/// Whether a text has no component.
fn is_last(rest: &[u8]) -> bool
    ensures { result ≡ is_last (components rest.now) }
{
    first_component(rest).is_none()
}

/// The walk from a directory along the components of a text, up to the first link.
fn walk_text<'t, D: Disks>(
    volume: &mut Volume<'_, D>,
    directory: Stat,
    text: &'t [u8],
) -> Result<TextEnd<'t>, TreeFault>
    requires few { length text.now ≤ 1024 }
    requires fits { IsStat volume.old.layout directory }
    requires node { IsNode volume.old directory }
    ensures walked { Told (past_of volume.old) (λ now. Gives text_view result
        (text_end (super_view volume.old.layout) (parts_of (volume_view volume.old) now)
        directory.inode 0 (components text.now))) }
    ensures fits { IfOk result (IsTextEnd volume.old.layout) }
    ensures node { IfOk result (IsTextEndNow volume.old) }
    ensures cause { IfErr result (HasTreeCause (faults_of volume.old) (faults_of volume.new)) }
    ensures later { faults_of volume.old ≤ faults_of volume.new }
    ensures same { SameVolume volume.old volume.new }
{
    let mut directory = directory;
    let mut text = text;
    let mut position = 0;
    while let Some(component) = first_component(text) {
        let last = is_last(component.rest);
        let Some(found) = child_or_last(volume, &directory, position, component.name, last)? else {
            return Ok(TextEnd::Lacks(directory, component.name));
        };
        if is_link(&found.node) {
            return Ok(TextEnd::Meets(directory, found, component.rest));
        }
        directory = found;
        text = component.rest;
        position += 1;
    }
    Ok(TextEnd::Ends(directory))
}

/// Where the walk of a text ends from a directory, with so many links at most. The text of a link, and the one after
/// it, are walked in a buffer of their own; the name that the walk misses is written into `missed`.
fn walk_through<D: Disks>(
    volume: &mut Volume<'_, D>,
    links: u32,
    root: &Stat,
    directory: Stat,
    text: &[u8],
    missed: &mut [u8; 1024],
) -> Result<PathEnd, TreeFault>
    requires few { length text.now ≤ 1024 }
    requires root { root.now.inode ≡ 1 }
    requires root_fits { IsStat volume.old.layout root.now }
    requires root_node { IsNode volume.old root.now }
    requires fits { IsStat volume.old.layout directory }
    requires node { IsNode volume.old directory }
    ensures end { Told (past_of volume.old) (λ now. Gives (end_view missed.new) result
        (ends_through (super_view volume.old.layout) (parts_of (volume_view volume.old) now) links
        directory.inode text.now)) }
    ensures name { IfOk result HasName }
    ensures cause { IfErr result (HasTreeCause (faults_of volume.old) (faults_of volume.new)) }
    ensures later { faults_of volume.old ≤ faults_of volume.new }
    ensures same { SameVolume volume.old volume.new }
{
    match walk_text(volume, directory, text)? {
        TextEnd::Ends(stat) => Ok(PathEnd::At(stat.inode)),
        TextEnd::Lacks(holder, name) => {
            put_after(missed, 0, name);
            Ok(PathEnd::Misses(holder.inode, name.len()))
        }
        TextEnd::Meets(holder, link, rest) => {
            if links == 0 {
                return Err(TreeFault::TooManyLinks);
            }
            let mut bytes = [0; TEXT];
            let next = text_through(volume, &link.node, rest, &mut bytes)?;
            let directory = if next.from_root { *root } else { holder };
            let text = &bytes[..next.length];
            walk_through(volume, links - 1, root, directory, text, missed)
        }
    }
}

/// Where the walk of a path ends: at an inode, as `minix_tree::lookup`, or at a last component of which its directory
/// has no entry. That component is then at the start of `missed`.
///
/// # Errors
///
/// As `minix_tree::lookup`, but for a last component that isn't there.
pub fn walk_end<D: Disks>(
    volume: &mut Volume<'_, D>,
    path: &[u8],
    missed: &mut [u8; 1024],
) -> Result<PathEnd, TreeFault>
    // What is answered.
    ensures end { Told (past_of volume.old) (λ now. Gives (end_view missed.new) result
        (path_end (super_view volume.old.layout) (parts_of (volume_view volume.old) now) path.now)) }
    ensures name { IfOk result HasName }

    // When it is refused.
    ensures cause { IfErr result (HasTreeCause (faults_of volume.old) (faults_of volume.new)) }
    ensures later { faults_of volume.old ≤ faults_of volume.new }
    ensures same { SameVolume volume.old volume.new }
{
    if !begins_with_slash(path) {
        return Err(TreeFault::NotFound(0));
    }
    if path.len() > TEXT {
        return Err(TreeFault::PathTooLong);
    }
    let root = stat_of(volume, ROOT)?;
    walk_through(volume, LINKS, &root, root, path, missed)
}
