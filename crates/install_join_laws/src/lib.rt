//! Laws of a whole installation: what its steps ensured joins into what install_laws' headline asks, and into what is
//! kept of names. Public functions with empty bodies, which no code needs to call.
#![tactic(auto)]

mod apart_laws;
mod join_laws;

pub use apart_laws::{
    begun_installation_plans_the_same, device_lies_where_its_tables_are_outside,
    device_lies_where_its_tables_stay, devices_that_stay_are_apart, mapped_files_are_not_replaced,
    path_that_passes_by_fails_as_before, settled_configuration_is_apart,
    settled_configuration_plans_the_same, surveyed_configuration_is_apart,
};
pub use join_laws::{
    beginning_keeps_names, commit_ends_an_installation, commit_keeps_the_old_map,
    committed_installation_has_its_backup, committed_map_lies_as_planned,
    done_installation_has_its_map, done_map_lies_as_planned, installation_is_the_headline,
    installation_keeps_names, staged_installation_means_its_configuration,
    staging_keeps_the_old_map, staging_prepares, stopped_beginning_leaves_what_boots_as_before,
    stopped_commit_keeps_names, stopped_plan_keeps_names, stopped_staging_keeps_names,
    stopped_staging_leaves_what_boots_as_before,
};
