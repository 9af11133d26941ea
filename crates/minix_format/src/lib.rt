//! An empty Minix volume is written, versions 1 and 2.
//!
//! The superblock, the bitmaps, the table of inodes with the root, and the root's zone with its two entries. The boot
//! block and all other zones stay as they are. No call takes memory.
#![tactic(auto)]

mod bitmap;
mod format_fault;
mod laws;
mod layout;
mod sector;
mod volume;

pub use format_fault::FormatFault;
pub use laws::{bits_of_a_bitmap, empty_volume_has_the_root_alone};
pub use layout::format_layout;
pub use volume::format;
