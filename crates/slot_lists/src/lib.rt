//! Lists of slots that name the sectors of a list, one sector each or as many as a slot can name: all at once, or one
//! after the other over runs of sectors.
#![tactic(auto)]

mod cursor;
mod laws;
mod runs;
mod slots;

pub use cursor::SlotCursor;
pub use laws::{checked_places_are_the_maps, cursor_gives_all_slots};
pub use runs::{Run, RunList};
pub use slots::{CompactFault, DiskSector, check_places, compact, could_be_one, plain_slots};
