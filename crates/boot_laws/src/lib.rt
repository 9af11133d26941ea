//! Laws of what a boot looks at, and of its steps: public functions with empty bodies, which no code needs to call.
#![tactic(auto)]

mod laws;

pub use laws::{
    boot_is_of_mapped_sectors, choice_counts_on_enough_lines, choice_leaves_last_keys,
    listed_file_has_its_size, mapped_sectors_stay, section_lists_no_more,
    unlisted_sector_may_be_written, whole_files_load_as_placed,
};
