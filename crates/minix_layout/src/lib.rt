//! The superblock and the inodes of a Minix volume, versions 1 and 2, and where they lie.
//!
//! A volume has blocks of 1024 bytes: block 0 is the boot block, block 1 the superblock, then come the
//! bitmaps of inodes and of zones, the table of inodes and the data zones. Numbers are little-endian.
//! Sectors have 512 bytes and are counted from the start of the volume. No call takes memory.
#![tactic(auto)]

mod inode;
mod kind;
mod laws;
mod layout_fault;
mod place;
mod superblock;

pub use inode::Inode;
pub use kind::FsKind;
pub use laws::{inode_that_was_read_is_kept, written_inode_is_read, written_super_is_read};
pub use layout_fault::{LayoutFault, SizeField};
pub use place::{Place, where_inode, where_zone};
pub use superblock::Super;
