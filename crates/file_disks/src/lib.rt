//! Disks over opened image files and block devices: neighbouring sectors are read and written at once. They report no
//! past, since nothing is known of what a file keeps.
#![tactic(auto)]

mod ahead;
mod file_disk;
mod file_disks;
mod gathered;
mod held;
mod sector_file;
mod slot;

pub use file_disk::FileDisk;
pub use file_disks::FileDisks;
