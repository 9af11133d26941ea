//! A reader that follows a section, the list of a file's sectors, along its links, and a writer of its sectors.
//!
//! A section is a chain of section sectors of 63 slots each; the last eight bytes of one are a link, a slot
//! of one sector, to the next. The reader sees bytes and slots alone: its caller reads the sectors. This
//! format is the project's own. No call takes memory.
#![tactic(auto)]

mod laws;
mod section_reader;
mod sectors;

pub use laws::{done_again, enough_turns, reads_the_section, refused_again, takes_turns};
pub use section_reader::{Ask, SectionFault, SectionReader};
pub use sectors::{section_sectors, write_section};
