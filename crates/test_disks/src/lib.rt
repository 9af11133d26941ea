//! Disks in memory for the tests of other crates: disks that report no past, and the images that a stop leaves.
#![tactic(auto)]

mod images;
mod name;
mod untold;

pub use images::{choices, image_left, made_again};
pub use name::has_no_zero;
pub use untold::Untold;
