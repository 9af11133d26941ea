//! Laws of a map's sectors: what is written of a map is read again. Public functions with empty bodies, which no code
//! needs to call.
#![tactic(auto)]

mod laws;

pub use laws::{
    written_boot_sector_is_read, written_extra_is_read, written_line_is_read, written_link_is_read,
    written_options_are_read, written_slots_are_read, written_table_is_read,
};
