//! Laws of what is chosen for a new file of a Minix volume: zones and an inode that are free, and a place in its
//! directory where its name may be made.
#![tactic(auto)]

mod choice_laws;
mod fill_laws;

pub use choice_laws::{
    choice_is_free, choice_is_held, choice_may_be_a_file, choices_are_apart, growth_is_free,
    held_choice_stays, place_lies_there, place_may_get_the_name, place_stays,
    place_still_may_be_had, promises_stay,
};
pub use fill_laws::{
    chosen_zones_may_be_a_file, content_is_of_the_blocks, filled_inode_is_a_new_file,
    filled_inode_is_fit, pointers_lead_to_what_was_chosen,
};
