// The bytes of files.
ghost use Rattle.std.specs.Prelude.{◌≡◌, ◌≤◌, ◌<◌, take, false, Err, OnErr, IfOk, IfErr, IsErrOf};
ghost use Rattle.disk_trait.specs.Past.{Told};
ghost use Rattle.lilo_model.specs.Checks.{with_fault};
ghost use Rattle.lilo_model.specs.MinixLayout.{reach};
ghost use Rattle.lilo_model.specs.MinixParts.{parts_of, is_file, block_at, blocks_at, blocks_for, content_at};
ghost use Rattle.lilo_model.specs.MinixFind.{Zone, file_block, file_at, bytes_in_block};
ghost use Rattle.minix_layout.specs.View.{kind_view, super_view, inode_view};
ghost use Rattle.minix_zones.specs.Held.{AreHeld};
ghost use Rattle.minix_zones.specs.Volume.{volume_view, past_of, faults_of, SameVolume};
ghost use Rattle.minix_tree.specs.File.{block_behind, LeadsToFile};
ghost use Rattle.minix_tree.specs.View.{Gives, HasTreeCause, HasFileCause};

use crate::find::lookup;
use crate::stat::{Stat, is_file};
use crate::tree_fault::TreeFault;
use conf_text::Text;
use disk_trait::Disks;
use minix_layout::Inode;
use minix_zones::{HeldZones, Volume};
use std::alloc::Global;

/// The bytes of a block.
const BLOCK: u64 = 1024;

/// How many bytes of a file its block with an index has.
fn bytes_in_block(size: u32, index: u32) -> u16
    ensures value { result ≡ bytes_in_block size index }
    ensures few { result ≤ 1024 }
{
    let left = u64::from(size).saturating_sub(BLOCK * u64::from(index));
    if left < BLOCK { left as u16 } else { 1024 }
}

/// Reads the block of a file with an index, and gives how many of its bytes are the file's: none past its end,
/// and then nothing is read.
///
/// # Errors
///
/// `NotFile` is for an inode that is no regular file.
pub fn read_block<D: Disks>(
    volume: &mut Volume<'_, D>,
    stat: &Stat,
    index: u32,
    into: &mut [u8; 1024],
) -> Result<u16, TreeFault>
    requires { index < reach (kind_view volume.old.layout.kind) }

    // What is read.
    ensures bytes { Told (past_of volume.old) (λ now. Gives (λ count. take count into.new) result
        (file_block (super_view volume.old.layout) (parts_of (volume_view volume.old) now)
        (inode_view stat.now.node) index)) }
    ensures count { IfOk result (λ count. count ≡ bytes_in_block stat.now.node.size index) }
    ensures refused { OnErr result (into.new ≡ into.old) }

    // When it is refused.
    ensures no_file { is_file (inode_view stat.now.node) ≡ false → result ≡ Err TreeFault.NotFile }
    ensures not_file { IsErrOf result TreeFault.NotFile → is_file (inode_view stat.now.node) ≡ false }
    ensures cause { IfErr result (HasTreeCause (faults_of volume.old) (faults_of volume.new)) }
    ensures later { faults_of volume.old ≤ faults_of volume.new }
    ensures same { SameVolume volume.old volume.new }
{
    let mut held = HeldZones::of(volume);
    read_block_through(&mut held, volume, stat, index, into)
}

/// The same along indirect zones that are held: where blocks are read in order, each of these is read once.
///
/// # Errors
///
/// As `read_block`.
pub fn read_block_through<D: Disks>(
    held: &mut HeldZones,
    volume: &mut Volume<'_, D>,
    stat: &Stat,
    index: u32,
    into: &mut [u8; 1024],
) -> Result<u16, TreeFault>
    requires index { index < reach (kind_view volume.old.layout.kind) }
    requires held { AreHeld volume.old held.old }

    // What is read, and held.
    ensures bytes { Told (past_of volume.old) (λ now. Gives (λ count. take count into.new) result
        (file_block (super_view volume.old.layout) (parts_of (volume_view volume.old) now)
        (inode_view stat.now.node) index)) }
    ensures count { IfOk result (λ count. count ≡ bytes_in_block stat.now.node.size index) }
    ensures refused { OnErr result (into.new ≡ into.old) }
    ensures held { AreHeld volume.new held.new }

    // When it is refused.
    ensures no_file { is_file (inode_view stat.now.node) ≡ false → result ≡ Err TreeFault.NotFile }
    ensures not_file { IsErrOf result TreeFault.NotFile → is_file (inode_view stat.now.node) ≡ false }
    ensures cause { IfErr result (HasTreeCause (faults_of volume.old) (faults_of volume.new)) }
    ensures later { faults_of volume.old ≤ faults_of volume.new }
    ensures same { SameVolume volume.old volume.new }
{
    if !is_file(&stat.node) {
        return Err(TreeFault::NotFile);
    }
    let count = bytes_in_block(stat.node.size, index);
    if count == 0 {
        return Ok(0);
    }
    held.read_at(volume, &stat.node, index, into)?;
    Ok(count)
}

/// The bytes of the regular file that a path leads to.
///
/// # Errors
///
/// Those of `lookup`; `NotFile` for what is no regular file; and `Memory`.
pub fn read_file<D: Disks>(
    alloc: Global,
    volume: &mut Volume<'_, D>,
    path: &[u8],
) -> Result<Text, TreeFault>
    // What is read.
    ensures bytes { Told (past_of volume.old) (λ now. Gives (λ text. text) result
        (file_at (super_view volume.old.layout) (parts_of (volume_view volume.old) now) path.now)) }

    // When it is refused.
    ensures memory { IsErrOf result TreeFault.Memory → Told (past_of volume.old) (λ now.
        LeadsToFile (super_view volume.old.layout) (parts_of (volume_view volume.old) now) path.now) }
    ensures cause { IfErr result (HasFileCause (faults_of volume.old) (faults_of volume.new)) }
    ensures later { faults_of volume.old ≤ faults_of volume.new }
    ensures same { SameVolume volume.old volume.new }
{
    let stat = lookup(volume, path)?;
    if !is_file(&stat.node) {
        return Err(TreeFault::NotFile);
    }
    content(alloc, volume, &stat.node)
}

/// How many blocks a file has.
fn blocks_for(size: u32) -> u32
    ensures { result ≡ blocks_for size }
{
    size.div_ceil(1024)
}

/// The bytes of an inode's file.
fn content<D: Disks>(
    alloc: Global,
    volume: &mut Volume<'_, D>,
    inode: &Inode,
) -> Result<Text, TreeFault>
    requires { blocks_for inode.now.size ≤ reach (kind_view volume.old.layout.kind) }
    ensures bytes { Told (past_of volume.old) (λ now. Gives (λ text. text) result
        (with_fault Zone (content_at (super_view volume.old.layout) (parts_of (volume_view volume.old) now)
        (inode_view inode.now)))) }
    ensures cause { IfErr result (HasFileCause (faults_of volume.old) (faults_of volume.new)) }
    ensures later { faults_of volume.old ≤ faults_of volume.new }
    ensures same { SameVolume volume.old volume.new }
{
    let mut bytes = whole_blocks(alloc, volume, inode)?;
    bytes.truncate(inode.size as usize);
    Ok(Text::from_vec(bytes))
}

/// The bytes of all blocks of a file, each of which is read once.
fn whole_blocks<D: Disks>(
    alloc: Global,
    volume: &mut Volume<'_, D>,
    inode: &Inode,
) -> Result<Vec<u8>, TreeFault>
    requires { blocks_for inode.now.size ≤ reach (kind_view volume.old.layout.kind) }
    ensures bytes { Told (past_of volume.old) (λ now. Gives (λ bytes. bytes.items) result
        (with_fault Zone (blocks_at (block_at (super_view volume.old.layout) (parts_of (volume_view volume.old) now)
        (inode_view inode.now)) (blocks_for inode.now.size)))) }
    ensures cause { IfErr result (HasFileCause (faults_of volume.old) (faults_of volume.new)) }
    ensures later { faults_of volume.old ≤ faults_of volume.new }
    ensures same { SameVolume volume.old volume.new }
{
    let mut held = HeldZones::of(volume);
    let mut bytes = Vec::new(alloc);
    for index in 0..blocks_for(inode.size) {
        push_block(&mut held, volume, inode, index, &mut bytes)?;
    }
    Ok(bytes)
}

/// Adds the bytes of a block.
fn push_block<D: Disks>(
    held: &mut HeldZones,
    volume: &mut Volume<'_, D>,
    inode: &Inode,
    index: u32,
    bytes: &mut Vec<u8>,
) -> Result<(), TreeFault>
    requires index { index < reach (kind_view volume.old.layout.kind) }
    requires held { AreHeld volume.old held.old }
    ensures bytes { Told (past_of volume.old) (λ now. Gives (λ _. bytes.new.items) result
        (with_fault Zone (block_behind (super_view volume.old.layout) (parts_of (volume_view volume.old) now)
        (inode_view inode.now) index bytes.old.items))) }
    ensures held { AreHeld volume.new held.new }
    ensures cause { IfErr result (HasFileCause (faults_of volume.old) (faults_of volume.new)) }
    ensures later { faults_of volume.old ≤ faults_of volume.new }
    ensures same { SameVolume volume.old volume.new }
{
    let mut block = [0; 1024];
    held.read_at(volume, inode, index, &mut block)?;
    bytes.extend_from_slice(&block)?;
    Ok(())
}
