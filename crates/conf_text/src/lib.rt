//! The text of lilo.conf: its tokens in order, and texts of their own.
//!
//! That an option, an equals sign and a value make a setting, that a number sign begins a comment and that
//! quotes hold blanks together is lilo.conf(5)'s; the exact rules are this project's own. A place counts bytes
//! from 0, a line from 1.
#![tactic(auto)]

mod laws;
mod meaning;
mod scan;
mod text;
mod token;
mod tokens;

pub use laws::{faults_end_the_text, starts_rise, tokens_are_parts};
pub use meaning::plain;
pub use text::Text;
pub use token::{TextFault, Token, TokenKind};
pub use tokens::Tokens;
