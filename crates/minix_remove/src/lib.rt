//! Removing and renaming a file of a sound Minix volume, versions 1 and 2: its name goes by one write, and what has no
//! name after it is freed. At any moment a stop leaves a sound volume with the names before or those after.
#![tactic(auto)]

mod find;
mod release;
mod removal;
mod rename;
mod renaming;
mod replace;
mod replaced_laws;
mod take;
mod target;

pub use removal::remove;
pub use rename::replace_name;
pub use replaced_laws::other_is_left_free_by_renaming;
