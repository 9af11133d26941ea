//! The prompt in its place: keys are taken from a BIOS, and what the prompt answers is shown, with the message and the
//! names where they belong.
//!
//! [`ask`] begins the prompt, and takes keys until something is chosen, the keys end, or a fault comes. No call takes
//! memory.
#![tactic(auto)]

mod asking;
mod laws;
mod message;
mod reply;

pub use asking::{Stop, ask};
pub use laws::asking_comes_to_the_choice;
pub use message::Message;
