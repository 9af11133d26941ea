//! The section of a file's runs, a section sector at a time: its slots are made when they are asked for, and no memory
//! is taken.
#![tactic(auto)]

mod count;
mod laws;
mod section;

pub use count::{both_slots, count_slots};
pub use laws::{
    counted_slots_are_planned, counting_asks_what_the_plan_asks, section_sectors_are_the_plans,
    slots_are_the_plans,
};
pub use section::{Naming, write_section_at};
