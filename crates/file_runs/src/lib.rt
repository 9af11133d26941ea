//! Where the sectors of a file of a Minix volume lie, as runs: sectors of the disk in a row, and holes.
//!
//! Each block of the file is looked up once and each indirect zone is read once; what is kept grows with the runs, not
//! with the file.
#![tactic(auto)]

mod file;
mod laws;
mod list;
mod mapped;
mod path;

pub use file::runs_of;
pub use laws::{no_fewer_runs, sound_files_lie_as_planned, sound_paths_are_mapped_as_planned};
pub use mapped::FileRuns;
pub use path::map_file;
