//! What the program `lilo` does with its arguments, over disks, keys and a sink of text that the caller gives.
//!
//! [`lilo`] is the top call.
#![tactic(auto)]

mod backup;
mod boot;
mod conf;
mod install_part;
mod laws;
mod line;
mod memory;
mod part;
mod place;
mod query;
mod refusal;
mod run;
mod test_part;

pub use bios_model::Ram;
pub use boot::{say_failed, say_keys};
pub use laws::{
    boots_answer_as_the_model, keys_matter_to_boots_alone, memory_matters_to_boots_alone,
};
pub use memory::boots;
pub use place::find_device;
pub use refusal::{Halt, PlaceFault, say};
pub use run::lilo;
