//! Names on a Minix volume, versions 1 and 2: what a path leads to, the entries of directories, and the bytes
//! of files.
//!
//! Paths are walked from inode 1. Each component is found as the first entry of that name in the directory that
//! was reached, and symbolic links are replaced by their texts, at most eight of them. Only `read_file` takes
//! memory: a text that is walked after a link is in a buffer of 1024 bytes. Each call reads a block of a
//! directory once for each component that is looked for in it, and an inode once when it is reached.
#![tactic(auto)]

mod component;
mod directory;
mod entry;
mod file;
mod find;
mod laws;
mod stat;
mod tree_fault;
mod walk;

pub use component::{Component, first_component};
pub use directory::{directory_blocks, places, read_entries};
pub use entry::{
    DirEntry, Entries, entries_among, entries_in, entries_per_block, entry_at, entry_size, is_dots,
};
pub use file::{read_block, read_block_through, read_file};
pub use find::{NextText, begins_with_slash, lookup, lookup_name, put_after, text_through};
pub use laws::directory_is_its_blocks;
pub use stat::{Stat, is_directory, is_file, is_link, stat_of};
pub use tree_fault::TreeFault;
pub use walk::child;
