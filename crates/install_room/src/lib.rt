//! The room that an installation takes: what is chosen for its backup and for its map, outside what a boot of the
//! present map may look at, and where the sectors of the map will lie.
#![tactic(auto)]

mod avoid;
mod choices;
mod laws;
mod places;
mod room;

pub use laws::room_may_be_made;
pub use room::{Room, RoomWish, find_room};
