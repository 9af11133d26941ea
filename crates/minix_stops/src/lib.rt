//! Stops of a writer on a small Minix volume in memory: what each stop leaves is read back.
#![tactic(auto)]

mod laws;
mod small;

pub use laws::{soundness_is_of_own_sectors, whole_disks};
pub use small::{SMALL_SPAN, open_small, small_disks};
