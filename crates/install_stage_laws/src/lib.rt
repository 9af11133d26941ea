//! Laws of what an installation stages: public functions with empty bodies, which no code needs to call.
#![tactic(auto)]

mod begin_laws;
mod stage_laws;
mod stays_laws;

pub use begin_laws::{
    apart_backup_is_none_of_the_map, apart_boot_sector_is_outside,
    beginning_promises_what_the_headline_asks, clear_map_is_clear_again, outside_is_left,
    present_map_is_spared,
};
pub use stage_laws::{
    added_name_keeps_files, apart_configuration_has_apart_devices, apart_sectors_are_not_written,
    committed_map_is_held, committed_volume_is_seen_as_before, files_are_kept_in_a_row,
    files_but_none_are_kept, files_but_one_are_kept_in_a_row, holder_stays,
    holder_stays_by_its_name, image_seen_as_before_is_held, image_seen_as_before_keeps_files,
    map_stays_in_its_file, mapped_files_are_kept, mapped_files_are_kept_but_none,
    mapped_files_are_kept_in_a_row, staged_image_is_held, staged_map_has_lays, staged_map_is_clear,
    staged_map_is_written, staged_map_means_its_configuration,
    staging_promises_what_the_headline_asks, tidied_map_has_lays,
    tidying_of_a_staged_map_leaves_what_is_meant, unwritten_rest_is_kept,
    volume_past_block_0_is_seen,
};
pub use stays_laws::{
    clear_places_are_left, planned_map_means_what_it_did, tidying_leaves_what_is_meant,
};
