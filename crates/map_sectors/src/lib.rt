//! The plan of a map as a value, and what it says. It keeps where files lie as runs, so that a kernel of any size takes
//! little memory.
#![tactic(auto)]

mod boot;
mod chains;
mod descriptor;
mod file;
mod map;
mod places;
mod planning;
mod readers;
mod runs;
mod section;
mod sector;
mod slots;
mod system;
mod table;
mod texts;

pub use map::MapPlan;
pub use planning::plan;
