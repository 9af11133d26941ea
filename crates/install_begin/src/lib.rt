//! What an installation and `lilo -t` begin with: where the volume of a part lies, its configuration with the boot
//! device, and where that lies.
//!
//! No disk is written.
#![tactic(auto)]

mod fault;
mod laws;
mod reading;

pub use fault::BeginFault;
pub use laws::{tests_answer_as_the_model, what_is_read_is_answered_as_the_model};
pub use reading::{Begun, begin};
