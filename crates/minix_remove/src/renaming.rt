// What a name and the one that it is to become lead to.
ghost use Rattle.std.specs.Prelude.{◌≡◌, ◌≤◌, length, IfOk, IfErr, OnOk};
ghost use Rattle.lilo_model.specs.MinixLayout.{name_size};
ghost use Rattle.minix_layout.specs.View.{kind_view};
ghost use Rattle.minix_remove.specs.Renamed.{FitsFormer, FitsRenaming, GivesMoved, GivesFormer, GivesRenaming};
ghost use Rattle.minix_remove.specs.Renamed.{lacks_link};
ghost use Rattle.minix_remove.specs.Target.{FitsTarget};
ghost use Rattle.minix_choice.specs.View.{HasWriteCause};
ghost use Rattle.minix_zones.specs.Volume.{faults_of, SameVolume};

use crate::target::{Target, find_target};
use disk_trait::Disks;
use minix_choice::WriteFault;
use minix_layout::FsKind;
use minix_tree::{TreeFault, entry_size, is_file};
use minix_turns::most_links;
use minix_zones::Volume;

/// A name and the one that it is to become: what the one leads to, and what the other does where it is there.
#[derive(Clone, Copy)]
pub(crate) struct Renaming {
    pub(crate) moved: Target,
    pub(crate) former: Option<Target>,
}

/// What a name in a directory leads to, and what the one does that it is to become. Nothing is written.
///
/// # Errors
///
/// Why it may not become that, or the disk failed; on disks that report no past others.
pub(crate) fn find_renaming<D: Disks>(
    volume: &mut Volume<'_, D>,
    directory: u32,
    from: &[u8],
    to: &[u8],
) -> Result<Renaming, WriteFault>
    requires some { 1 ≤ directory }
    requires there { directory ≤ volume.old.layout.inodes }
    ensures finds { GivesRenaming volume.old directory from.now to.now result }
    ensures fits { IfOk result (λ found. FitsRenaming volume.old.layout found.moved found.former) }
    ensures short { OnOk result (length to.now ≤ name_size (kind_view volume.old.layout.kind)) }
    ensures cause { IfErr result (HasWriteCause (faults_of volume.old) (faults_of volume.new)) }
    ensures later { faults_of volume.old ≤ faults_of volume.new }
    ensures same { SameVolume volume.old volume.new }
{
    let moved = find_moved(volume, directory, from, to)?;
    let former = find_former(volume, directory, to)?;
    if lacks_link(volume.layout().kind, &moved, &former) {
        return Err(WriteFault::Links);
    }
    Ok(Renaming { moved, former })
}

/// What is renamed, which is a regular file. That it is there comes first, and then whether its new name is too long.
fn find_moved<D: Disks>(
    volume: &mut Volume<'_, D>,
    directory: u32,
    from: &[u8],
    to: &[u8],
) -> Result<Target, WriteFault>
    requires some { 1 ≤ directory }
    requires there { directory ≤ volume.old.layout.inodes }
    ensures finds { GivesMoved volume.old directory from.now to.now result }
    ensures fits { IfOk result (FitsTarget volume.old.layout) }
    ensures short { OnOk result (length to.now ≤ name_size (kind_view volume.old.layout.kind)) }
    ensures cause { IfErr result (HasWriteCause (faults_of volume.old) (faults_of volume.new)) }
    ensures later { faults_of volume.old ≤ faults_of volume.new }
    ensures same { SameVolume volume.old volume.new }
{
    let fits = to.len() <= usize::from(entry_size(volume.layout().kind) - 2);
    match find_target(volume, directory, from) {
        Ok(moved) => {
            if !fits {
                Err(WriteFault::NameTooLong)
            } else if is_file(&moved.node) {
                Ok(moved)
            } else {
                Err(WriteFault::Tree(TreeFault::NotFile))
            }
        }
        Err(TreeFault::NotFile) => {
            if fits {
                Err(WriteFault::Tree(TreeFault::NotFile))
            } else {
                Err(WriteFault::NameTooLong)
            }
        }
        Err(fault) => Err(WriteFault::from(fault)),
    }
}

/// What it is renamed over: nothing, or a regular file.
fn find_former<D: Disks>(
    volume: &mut Volume<'_, D>,
    directory: u32,
    to: &[u8],
) -> Result<Option<Target>, WriteFault>
    requires some { 1 ≤ directory }
    requires there { directory ≤ volume.old.layout.inodes }
    ensures finds { GivesFormer volume.old directory to.now result }
    ensures fits { IfOk result (FitsFormer volume.old.layout) }
    ensures cause { IfErr result (HasWriteCause (faults_of volume.old) (faults_of volume.new)) }
    ensures later { faults_of volume.old ≤ faults_of volume.new }
    ensures same { SameVolume volume.old volume.new }
{
    match find_target(volume, directory, to) {
        Ok(former) => {
            if is_file(&former.node) {
                Ok(Some(former))
            } else {
                Err(WriteFault::Tree(TreeFault::NotFile))
            }
        }
        Err(TreeFault::NotFound(_)) => Ok(None),
        Err(fault) => Err(WriteFault::from(fault)),
    }
}

/// Whether a name is to replace that of another inode, and its own inode can't have a link more.
fn lacks_link(kind: FsKind, moved: &Target, former: &Option<Target>) -> bool
    ensures { result ≡ lacks_link (kind_view kind) moved.now former.now }
{
    match former {
        Some(former) => former.inode != moved.inode && moved.node.links == most_links(kind),
        None => false,
    }
}
