//! What `ldisk` makes an image with: a partition table, and an empty Minix volume in one of its partitions.
//!
//! [`make`] and [`mkfs`] check and write; [`are_placed`] is the first of the checks. No call takes memory.
#![tactic(auto)]

mod fault;
mod laws;
mod place;
mod table;
mod volume;

pub use fault::MakeFault;
pub use laws::table_reads_as_asked;
pub use place::are_placed;
pub use table::make;
pub use volume::mkfs;
