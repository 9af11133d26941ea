//! The file of a configuration on the volume of a run.
//!
//! No disk is written.
#![tactic(auto)]

mod conf_file;
mod file_fault;

pub use conf_file::{ConfFile, read_conf_file};
pub use file_fault::FileFault;
