//! Laws of names that are removed from a sound Minix volume: public functions with empty bodies, which no code needs to
//! call.
#![tactic(auto)]

mod laws;

pub use laws::{
    entry_leads_to_a_named_inode, files_stay_beside_a_directory, held_name_may_go,
    links_may_change_without_a_name, name_that_is_not_held_is_absent,
    removed_name_releases_its_inode,
};
