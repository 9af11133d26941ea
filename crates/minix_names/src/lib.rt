//! The name that a path ends with on a Minix volume: the directory that has it, what is there, and where a walk along a
//! path ends or misses its last component.
//!
//! What uses this crate replaces files by their names: it needs the directory and the last component of a path,
//! whether or not anything is there, and whether another path leads to it or would once a file is there. No call takes
//! memory or writes.
#![tactic(auto)]

mod component;
mod entry;
mod laws;
mod place;
mod walk;

pub use entry::look_up;
pub use laws::path_is_apart_by_its_end;
pub use place::{NamePlace, place_of_name};
pub use walk::{PathEnd, walk_end};
