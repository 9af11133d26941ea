//! The files of a map: followed along their sections, and placed in memory.
//!
//! A [`FileReader`] reads a file sector by sector, each once, by the slots of its section; [`load_bytes`] places what
//! it reads. A step that fails reports why nothing is started: a [`Halt`].
#![tactic(auto)]

mod file;
mod load;
mod reason;

pub use file::{FileReader, read_one};
pub use load::{load_bytes, place, read_cut};
pub use reason::{Halt, Reason};
