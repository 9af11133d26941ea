//! Laws of an installation and of what a stop leaves of it: public functions with empty bodies, which no code needs to
//! call.
#![tactic(auto)]

mod laws;

pub use laws::{
    accepted_plan_means_its_configuration, answered_installation_passed_its_checks,
    clear_map_is_spared, clear_test_is_clear, planned_map_means_its_configuration,
    refused_installation_has_a_status_of_its_checks,
    stop_before_the_commit_leaves_what_boots_as_before, stop_in_the_commit_leaves_one_of_the_two,
    stop_leaves_what_boots_as_before_or_as_meant, unwritten_rest_is_a_writer_of_files,
    unwritten_sectors_stay, write_outside_keeps_a_volume, write_to_a_boot_block_keeps_a_volume,
};
