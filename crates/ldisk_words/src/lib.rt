//! What the arguments of a command line of `ldisk` ask for.
//!
//! [`ask`] answers it, or that they ask for nothing. No call takes memory.
#![tactic(auto)]

mod asked;
mod laws;
mod number;
mod part;

pub use asked::{Asked, Command, ask};
pub use laws::words_ask_as_the_grammar_says;
pub use part::PartWish;
