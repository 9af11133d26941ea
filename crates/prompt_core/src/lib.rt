//! The prompt of a boot loader in LILO's manner: it is given one key at a time, and answers what it shows and what
//! is chosen.
//!
//! The texts, as `boot: `, the keys that edit a line and the words `lock` and `vga=` follow LILO's manners; how long
//! an answer is waited for, and how words count that are repeated or wrong, are rules of this project's own. No call
//! takes memory, and none fails.
#![tactic(auto)]

mod entry;
mod laws;
mod line;
mod parts;
mod prompt;
mod reply;
mod state;
mod step;
mod text;
mod word;

pub use bios_model::Key;
pub use entry::{Choice, Settings};
pub use laws::{
    comes_to_the_choice, keys_one_by_one, lines_are_short, more_is_wanted, opens_at_the_opening,
};
pub use parts::Parts;
pub use prompt::Prompt;
pub use reply::{Answer, Picked, Reply};
