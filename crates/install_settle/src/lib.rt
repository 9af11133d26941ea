//! After an installation's commit its new map takes the place of the old one, which is freed.
#![tactic(auto)]

mod settlement;
mod settling;
mod tidied_laws;
mod tidying;

pub use settlement::settle;
pub use settling::{LeftMap, SettleFault, Settling, find_settling};
pub use tidied_laws::{tidied_map_holds_the_table, tidied_map_means_its_configuration};
pub use tidying::tidy_map;
