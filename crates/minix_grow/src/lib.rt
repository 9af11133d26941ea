//! Directories of a Minix volume that grow, versions 1 and 2.
#![tactic(auto)]

mod below;
mod extend;
mod grow;
mod hook;
mod laws;
mod places;
mod way;
mod zones;

pub use below::{grow_in_zone, hook_in_zone};
pub use extend::extend_in_zone;
pub use grow::grow_directory;
pub use hook::{grow_in_inode, hook_in_inode};
pub use laws::{chosen_growth_is_enough, missing_zones_are_the_lowest};
pub use places::slot_of;
pub use zones::make_zones;
