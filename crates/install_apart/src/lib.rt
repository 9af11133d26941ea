//! The names that an installation replaces, found before anything is written: where they are, and what is there, by
//! this project's own rules.
#![tactic(auto)]

mod apart;
mod apart_device;
mod apart_name;
mod apart_path;
mod backup;
mod fault;
mod name;
mod own;

pub use apart::check_apart;
pub use apart_device::check_devices;
pub use fault::{ApartFault, NameFault};
pub use name::{NamePair, OwnName};
pub use own::{OwnNames, own_names};
