//! Filling a new file's inode and zones on a sound Minix volume, versions 1 and 2, and freeing an inode without a name,
//! with its zones and no others.
//!
//! Nothing here touches what had a name at the last flush. So whatever a stop leaves, at any moment, the volume is
//! sound, with the same Names as then.
#![tactic(auto)]

mod clear;
mod fill;
mod free;
mod mark;
mod numbers;

pub use fill::fill_file;
pub use free::free_file;
pub use mark::mark_zones;
pub use numbers::FileZones;
