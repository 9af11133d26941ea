// The bytes of an inode that may have a name, and a flush.
ghost use Rattle.std.specs.Prelude.{◌≡◌, ◌≤◌, List};
ghost use Rattle.disk_trait.specs.Moments.{IsTold, IsQuiet};
ghost use Rattle.lilo_model.specs.MinixLayout.{FitsInode, most_links};
ghost use Rattle.minix_change_laws.specs.Changes.{with_size, with_top};
ghost use Rattle.minix_change_laws.specs.Grows.{Deeper};
ghost use Rattle.minix_layout.specs.View.{kind_view, inode_view};
ghost use Rattle.minix_change_laws.specs.Sees.{with_links};
ghost use Rattle.minix_turns.specs.Inode.{TurnsInode, FitsTop, MayHaveLinks, MayHaveSize, MayHaveTop};
ghost use Rattle.minix_turns.specs.Joined.{Unseen};
ghost use Rattle.minix_zones.specs.Volume.{past_of};

use crate::sector::turn;
use disk_trait::Disks;
use minix_layout::{FsKind, Inode, where_inode};
use minix_steps::put_inode;
use minix_zones::{Volume, ZoneFault};

/// Writes an inode, and makes it durable, from a quiet moment on; its neighbours in the sector stay. The numbers
/// begin at 1.
///
/// # Errors
///
/// `Device` alone.
pub fn turn_inode<D: Disks>(
    volume: &mut Volume<'_, D>,
    number: u32,
    inode: &Inode,
) -> Result<(), ZoneFault>
    requires some { 1 ≤ number }
    requires there { number ≤ volume.old.layout.inodes }
    requires fits { FitsInode (kind_view volume.old.layout.kind) (inode_view inode.now) }
    requires quiet { IsQuiet (past_of volume.old) }
    ensures turns { TurnsInode volume.old volume.new number (inode_view inode.now) ZoneFault.Device result }
{
    let kind = volume.layout().kind;
    let place = where_inode(volume.layout(), number);
    let mut bytes = [0; 512];
    volume.read_sector(place.sector, &mut bytes)?;
    put_inode(&mut bytes, usize::from(place.at), inode, kind);
    turn(volume, place.sector, &bytes)
}

/// The most links that an inode of a kind can have.
pub fn most_links(kind: FsKind) -> u16
    ensures { result ≡ most_links (kind_view kind) }
{
    if kind.is_v1() { 255 } else { 65535 }
}

/// Writes an inode with other links, and makes it durable, from a quiet moment on.
///
/// # Errors
///
/// `Device` alone.
pub fn turn_links<D: Disks>(
    volume: &mut Volume<'_, D>,
    number: u32,
    inode: &Inode,
    links: u16,
) -> Result<(), ZoneFault>
    requires some { 1 ≤ number }
    requires there { number ≤ volume.old.layout.inodes }
    requires fits { FitsInode (kind_view volume.old.layout.kind) (inode_view inode.now) }
    requires links { links ≤ most_links (kind_view volume.old.layout.kind) }
    requires quiet { IsQuiet (past_of volume.old) }
    ensures turns { TurnsInode volume.old volume.new number (with_links (inode_view inode.now) links)
        ZoneFault.Device result }
    ensures unseen { (IsTold (past_of volume.old) → MayHaveLinks volume.old number (inode_view inode.now) links)
        → Unseen volume.old volume.new }
{
    let changed = Inode { links, ..*inode };
    turn_inode(volume, number, &changed)
}

/// Writes an inode with another size, and makes it durable, from a quiet moment on.
///
/// # Errors
///
/// `Device` alone.
pub fn turn_size<D: Disks>(
    volume: &mut Volume<'_, D>,
    number: u32,
    inode: &Inode,
    size: u32,
) -> Result<(), ZoneFault>
    requires some { 1 ≤ number }
    requires there { number ≤ volume.old.layout.inodes }
    requires fits { FitsInode (kind_view volume.old.layout.kind) (inode_view inode.now) }
    requires quiet { IsQuiet (past_of volume.old) }
    ensures turns { TurnsInode volume.old volume.new number (with_size (inode_view inode.now) size)
        ZoneFault.Device result }
    ensures unseen { (IsTold (past_of volume.old) → MayHaveSize volume.old number (inode_view inode.now) size)
        → Unseen volume.old volume.new }
{
    let changed = Inode { size, ..*inode };
    turn_inode(volume, number, &changed)
}

/// Writes an inode with another of its numbers of zones and another size, and makes it durable, from a quiet moment
/// on.
///
/// # Errors
///
/// `Device` alone.
#[tactic(auto, using(crate::proofs::FieldLemmas::low_top))]
pub fn turn_pointer<D: Disks>(
    volume: &mut Volume<'_, D>,
    number: u32,
    inode: &Inode,
    top: usize,
    zone: u32,
    size: u32,
) -> Result<(), ZoneFault>
    requires some { 1 ≤ number }
    requires there { number ≤ volume.old.layout.inodes }
    requires fits { FitsInode (kind_view volume.old.layout.kind) (inode_view inode.now) }
    requires top { FitsTop (kind_view volume.old.layout.kind) top zone }
    requires quiet { IsQuiet (past_of volume.old) }
    ensures turns { TurnsInode volume.old volume.new number (with_top (inode_view inode.now) top zone size)
        ZoneFault.Device result }
    ensures unseen { (more : List Deeper) → (IsTold (past_of volume.old)
        → MayHaveTop volume.old number (inode_view inode.now) top zone size more) → Unseen volume.old volume.new }
{
    let mut changed = *inode;
    changed.zones[top] = zone;
    changed.size = size;
    turn_inode(volume, number, &changed)
}
