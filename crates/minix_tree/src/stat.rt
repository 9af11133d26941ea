// Inodes by their numbers.
ghost use Rattle.std.specs.Prelude.{◌≡◌, ◌≤◌, ◌/◌, IfOk, IfErr};
ghost use Rattle.disk_trait.specs.Past.{Told};
ghost use Rattle.lilo_model.specs.MinixParts.{parts_of, is_directory, is_file, is_link};
ghost use Rattle.lilo_model.specs.MinixFind.{readable};
ghost use Rattle.minix_layout.specs.View.{super_view, inode_view};
ghost use Rattle.minix_zones.specs.Volume.{volume_view, past_of, faults_of, SameVolume};
ghost use Rattle.minix_tree.specs.View.{Gives, HasTreeCause, IsStat, IsNode};

use crate::tree_fault::TreeFault;
use disk_trait::Disks;
use minix_layout::{Inode, where_inode};
use minix_zones::{Volume, ZoneFault};
use sector_parts::{FieldRef, part};

/// An inode and its number.
#[derive(Clone, Copy, Debug, PartialEq, Eq)]
pub struct Stat {
    pub inode: u32,
    pub node: Inode,
}

/// The top four bits of a mode.
fn kind_of(inode: &Inode) -> u16
    ensures { result ≡ (inode_view inode.now).mode / 4096 }
{
    inode.mode / 4096
}

/// Whether an inode is a directory.
pub fn is_directory(inode: &Inode) -> bool
    ensures { result ≡ is_directory (inode_view inode.now) }
{
    kind_of(inode) == 4
}

/// Whether it is a regular file.
pub fn is_file(inode: &Inode) -> bool
    ensures { result ≡ is_file (inode_view inode.now) }
{
    kind_of(inode) == 8
}

/// Whether it is a symbolic link.
pub fn is_link(inode: &Inode) -> bool
    ensures { result ≡ is_link (inode_view inode.now) }
{
    kind_of(inode) == 10
}

/// The inode with a number, read from its sector. The numbers begin at 1. It is refused as
/// `Zone(Layout(BadSize(FileSize)))` where its size isn't one of the volume's kind.
pub fn stat_of<D: Disks>(volume: &mut Volume<'_, D>, inode: u32) -> Result<Stat, TreeFault>
    requires some { 1 ≤ inode }
    requires there { inode ≤ volume.old.layout.inodes }

    // What is answered.
    ensures found { Told (past_of volume.old) (λ now. Gives (λ stat. stat.inode) result
        (readable (super_view volume.old.layout) (parts_of (volume_view volume.old) now) inode)) }
    ensures number { IfOk result (λ stat. stat.inode ≡ inode) }
    ensures node { IfOk result (IsNode volume.old) }
    ensures fits { IfOk result (IsStat volume.old.layout) }

    // When it is refused.
    ensures cause { IfErr result (HasTreeCause (faults_of volume.old) (faults_of volume.new)) }
    ensures later { faults_of volume.old ≤ faults_of volume.new }
    ensures same { SameVolume volume.old volume.new }
{
    let place = where_inode(volume.layout(), inode);
    let kind = volume.layout().kind;
    let mut sector = [0; 512];
    volume.read_sector(place.sector, &mut sector)?;
    let bytes = part(
        &sector,
        usize::from(place.at),
        usize::from(kind.inode_size()),
    );
    match Inode::read(&FieldRef { bytes }, kind) {
        Ok(node) => Ok(Stat { inode, node }),
        Err(fault) => Err(TreeFault::Zone(ZoneFault::Layout(fault))),
    }
}
