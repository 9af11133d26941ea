//! The arguments of a command line of `lilo`: whether they are in its grammar, and what they ask for.
//!
//! ```text
//! run     = part { "--then" part }
//! part    = { "-C" path | "--root" device | "-v" } command
//! command = (nothing) | "-t" | "-q" [device] | "-R" { word } | "-u" device | "boot" device ["--dump"]
//! ```
//!
//! An option appears at most once in a part. A path begins with `/`. The arguments of `-R` run to `--then` or the end,
//! and have bytes of 0x20 to 0x7E alone, at least one each. No call takes memory.
#![tactic(auto)]

mod command;
mod laws;
mod options;
mod part;
mod run;

pub use laws::{first_wrong_word, runs_of_words, unfinished_words};
pub use part::{Command, Part, Wrong};
pub use run::{PartAt, check, part_at};
