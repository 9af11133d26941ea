//! Files that are made on a sound Minix volume, versions 1 and 2: what is chosen for them before anything is written.
//!
//! Of inodes and zones the lowest free ones are chosen, data first and in order, then indirect zones in the order of a
//! walk, then those by which the directory grows. What was chosen for one file is kept from the next by `Taken`.
#![tactic(auto)]

mod directory;
mod file_zones;
mod growth;
mod halt;
mod pick;
mod taken;
mod wish;
mod write_fault;

pub use halt::WriteHalt;
pub use pick::{Choice, choose};
pub use taken::Taken;
pub use wish::Wish;
pub use write_fault::WriteFault;
