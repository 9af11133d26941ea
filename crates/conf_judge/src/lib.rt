//! Which settings of a lilo.conf are refused, and what is in effect in its parts.
//!
//! The names and the sense of the options are lilo.conf(5)'s. The order of what is tested, and what is in effect where
//! a section and the global part both speak, are this project's own.
#![tactic(auto)]

mod effect;
mod names;
mod part;
mod parts;
mod place;
mod section;

pub use effect::{effect_flag, effect_value, opening_line, section_label, section_path};
pub use names::{default_refusal, names_refusal};
pub use part::{disk_details, given_text, has_option, part_kind, value_of};
pub use parts::{Parts, parts_of};
pub use place::settings_refusal;
pub use section::sections_refusal;
