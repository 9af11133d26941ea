//! The boot loader of a modelled PC.
#![tactic(auto)]

mod entry;
mod kernel;
mod laws;
mod line;
mod loader;
mod map;
mod outcome;

pub use laws::boots_as_the_model;
pub use loader::boot;
pub use outcome::Outcome;
pub use section_loader::Reason;
pub use stream_trait::Shown;
