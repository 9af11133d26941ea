//! Laws of the map that an installation plans: public functions with empty bodies, which no code needs to call.
#![tactic(auto)]

mod laws;

pub use laws::{
    accepted_file_lies, accepted_optional_file_lies, accepted_places_have_slots,
    accepted_plan_boots_as_meant, accepted_plan_has_lays, accepted_plan_lies,
    compact_slots_are_apart, fitting_kernel_is_loaded, image_with_lays_is_held, kept_file_lies,
    map_that_lies_has_lays, map_that_stays_has_lays, optional_file_is_mapped_where_it_counts,
    planned_map_boots_as_its_menu, planned_map_boots_as_meant, planned_map_boots_with_each_line,
    planned_map_has_lays, planned_map_stays, set_line_is_read, shown_menu_is_booted,
};
