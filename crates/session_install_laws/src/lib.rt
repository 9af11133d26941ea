//! Laws of sessions in which installations run: public functions with empty bodies, which no code needs to call.
#![tactic(auto)]

mod laws;

pub use laws::{
    committed_map_is_a_new_body, committed_map_keeps_what_a_session_does,
    default_line_of_a_planned_map_is_apart, mapped_sectors_of_a_planned_map_are_its_own,
    runs_after_a_commit_keep_the_new_map, runs_beside_a_map_keep_what_a_session_does,
};
