//! The readers and writers of a map's sectors: its boot sector, the descriptor table, the options and extra sectors of
//! an entry, and the default line.
//!
//! The layouts of these sectors are this project's own; a boot sector ends with the two bytes that a BIOS
//! looks for. A sector has 512 bytes, offsets and lengths are bytes, and all numbers are little-endian. No
//! call takes memory.
#![tactic(auto)]

mod boot_sector;
mod default_line;
mod descriptor;
mod extra;
pub mod flags;
mod map_fault;
mod one_slot;
mod options;
mod table;
mod text;

pub use boot_sector::{BootSector, restore};
pub use default_line::DefaultLine;
pub use descriptor::Descriptor;
pub use extra::Extra;
pub use map_fault::MapFault;
pub use options::Options;
pub use table::Table;
