//! What stopped writers left marked on a sound Minix volume without a use, versions 1 and 2, is freed.
//!
//! A survey says what has a use. The bit of each zone and each inode without one is cleared, in one write for each
//! sector of the bitmaps that has such a bit, and then all is made durable. A stop at any moment leaves a sound volume
//! with the same Names, on which less is marked without a use.
#![tactic(auto)]

mod bitmap;
mod bits;
mod fault;
mod free;
mod laws;
mod waste;

pub use fault::{ReclaimFault, ReclaimHalt};
pub use laws::{
    clear_map_is_off_the_bitmaps, freed_waste_keeps_names, waste_is_what_a_survey_leaves,
};
pub use waste::{Freed, reclaim};
