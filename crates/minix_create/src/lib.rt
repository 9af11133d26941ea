//! A new file on a sound Minix volume, versions 1 and 2: what is chosen for it is reserved, filled and linked, each by
//! a value of its own. At any moment a stop leaves a sound volume without the file, or with the whole of it under its
//! name.
#![tactic(auto)]

mod brought;
mod chosen;
mod creation;
mod dots;
mod filled;
mod grown;
mod laws;
mod linked;
mod made_laws;
mod place_at;
mod raised;
mod reserved;
mod steps;

pub use chosen::{Chosen, choose};
pub use creation::create;
pub use dots::directory_block;
pub use filled::Filled;
pub use grown::grow_directory;
pub use laws::other_is_left_free;
pub use linked::Linked;
pub use made_laws::{
    changed_entry_keeps_places, growth_of_another_is_unused, kept_places_join,
    place_of_another_may_be_had, unseen_change_keeps_places,
};
pub use reserved::Reserved;
