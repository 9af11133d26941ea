//! What a lilo.conf says, or the first thing that refuses it.
//!
//! The names and the sense of the options are lilo.conf(5)'s. The ranges, the order of refusals and what is in effect
//! where a section and the global part both speak are this project's own. Lines count from 1.
#![tactic(auto)]

mod config;
mod disk;
mod reader;
mod section;
mod tell_config;
mod tell_disk;
mod tell_section;
mod value;

pub use conf_settings::{ConfFault, ConfReason, Opt};
pub use config::Config;
pub use disk::{DiskList, DiskSection};
pub use reader::parse;
pub use section::{Mount, Section, SectionList};
