//! The modelled PC, as a boot loader sees it: its BIOS and its memory.
//!
//! The BIOS reads or writes one sector a call, by INT 13h: [`Bios::read_slot`] and [`Bios::write_sector`] take the
//! sector that a slot names. It gives one key a call, or reports a tick without one: [`Bios::key`].
//! Memory is bytes from address 0 on: a [`Ram`]. Both are this project's own model of a PC. No call but
//! [`Ram::new`] takes memory of the host.
#![tactic(auto)]

mod bios;
mod key;
mod ram;

pub use bios::{Bios, BiosFault, read_slot, read_slots, write_sector};
pub use key::Key;
pub use ram::Ram;
