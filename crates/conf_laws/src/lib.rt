//! Laws of what a lilo.conf says: public functions with empty bodies, which no code needs to call.
#![tactic(auto)]

mod laws;

pub use laws::{a_config_is_lawful, every_config_is_lawful, refusal_is_the_first_that_fails};
