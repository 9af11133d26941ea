//! What the program `ldisk` does with its arguments, over disks and a sink of text that the caller gives: it makes a
//! partition table and empty Minix volumes, lists directories, stores, prints and removes files, makes directories and
//! symbolic links, and frees what is marked without a use.
//!
//! [`ldisk`] is the top call; ldisk_words says what arguments ask for.
#![tactic(auto)]

mod command;
mod files;
mod freeing;
mod get;
mod halt;
mod laws;
mod ls;
mod made;
mod pieces;
mod put;
mod reading;
mod room;
mod run;

pub use laws::{get_prints_the_file, ls_prints_the_lines_of_the_entries};
pub use run::ldisk;
