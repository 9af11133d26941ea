//! What a boot of the present map may look at: the sectors of the map and of its files, found by following it.
//!
//! An installation leaves these sectors alone until its commit. Of the Mapped sectors, which Boot's definition lists,
//! the zones of a volume are kept in which one of them lies: a bit for each zone of the volume, whatever the map
//! holds.
#![tactic(auto)]

mod clear;
mod follow;
mod holder;
mod map;
mod met_zones;
mod old_map;
mod place;

pub use clear::is_clear;
pub use holder::holds_table;
pub use old_map::{OldMap, OldMapFault, read_old_map};
