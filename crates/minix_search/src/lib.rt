//! Where the Minix volume of a run lies: on the device that is named for it, or else on the first device that has one.
//!
//! No call takes memory, and no disk is written.
#![tactic(auto)]

mod search;
mod volume_fault;

pub use search::{Located, find_volume};
pub use volume_fault::VolumeFault;
