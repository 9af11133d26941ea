//! Zones of a Minix volume, versions 1 and 2: what is at each index of a file.
//!
//! A [`Volume`] is a span of a disk whose superblock was read. The numbers in an inode lead to the zones of
//! its file: seven by themselves, and three through one, two and three levels of indirect zones. Zone 0 is a
//! hole, whose bytes are zeros. No call takes memory.
#![tactic(auto)]

mod held;
mod held_sectors;
mod laws;
mod visit;
mod volume;
mod walk;
mod zone;
mod zone_fault;

pub use held::HeldZones;
pub use laws::{
    each_pointer_has_a_stop, each_stop_has_a_pointer, each_stop_is_come_to,
    indirect_zone_comes_first, no_two_stops_have_one_pointer, stops_come_in_order,
};
pub use visit::Visit;
pub use volume::Volume;
pub use walk::Walk;
pub use zone::{
    Way, ZoneAt, blocks_under, inside, number_below, number_in, numbers_in_zone, reach, read_at,
    way_to, zone_at,
};
pub use zone_fault::ZoneFault;
