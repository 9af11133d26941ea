//! What a boot has put into memory, as text: regions, each with its address, its length and its bytes in hexadecimal.
//! The form is this project's own (docs/FORMATS.md).
#![tactic(auto)]

mod dump;

pub use dump::{dump_memory, dump_sector};
