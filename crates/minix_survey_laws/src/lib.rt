//! Laws of what a survey of a Minix volume finds out: public functions with empty bodies, which no code needs to
//! call.
#![tactic(auto)]

mod laws;

pub use laws::{
    count_bounds_all_places, count_is_that_of_names, facts_hold_on_a_sound_volume,
    named_inodes_are_seen, names_are_counted_by_places, seen_inodes_are_named,
    sound_volume_is_surveyed, surveyed_volume_is_sound,
};
