//! The default line of a map, set for one boot or cleared: `lilo -R`.
//!
//! One sector is written and made durable, so a stop at any moment leaves the old line or the new one. The checks and
//! their order are this project's own; a line for one boot follows LILO's manners. No call takes memory.
#![tactic(auto)]

mod shot;

pub use shot::{ShotFault, clear_line, set_line};
