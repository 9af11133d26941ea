//! The settings of a lilo.conf: its options with what comes after them, in order, and what their values mean.
//!
//! The names and the sense of the options are lilo.conf(5)'s. The exact rules, the ranges and what is refused are
//! this project's own. Lines count from 1.
#![tactic(auto)]

mod line;
mod option;
mod reader;
mod reason;
mod setting;
mod value;

pub use line::config_line;
pub use option::{Opt, Part, Takes};
pub use reader::read_settings;
pub use reason::{ConfFault, ConfReason, ReasonText};
pub use setting::{Cut, Given, Setting, SettingList};
pub use text_numbers::{number_between, video_mode};
pub use value::{is_name, is_path, is_value, last_part, root_at, whole_disk_at};
