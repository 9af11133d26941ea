//! Turns on a Minix volume, versions 1 and 2: one sector of something that may have a name, and a flush. Whatever a
//! stop leaves, at any moment of a turn, is what was held before or has the sector whole.
#![tactic(auto)]

mod entry;
mod inode;
mod joined;
mod laws;
mod number;
mod part;
mod replace;
mod sector;

pub use entry::{turn_entry, turn_free};
pub use inode::{most_links, turn_inode, turn_links, turn_pointer, turn_size};
pub use joined::{path_is_led_after, path_stays_led, steps_are_unseen, unseen_calls_join};
pub use laws::{lowered_links_are_enough, raised_links_are_enough};
pub use number::turn_number;
pub use part::turn_part;
pub use replace::{EntryPlace, turn_replace};
pub use sector::turn;
