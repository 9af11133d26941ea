//! Steps on a sound Minix volume, versions 1 and 2, of which a writer is made.
//!
//! A step touches nothing that had a name at the last flush. So whatever a stop leaves, at any moment of it,
//! the volume is sound, with the same Names as then. No step but `settle` flushes.
#![tactic(auto)]

mod bit_fault;
mod bit_laws;
mod bitmap;
mod bits;
mod find;
mod flush;
mod inode;
mod mark;
mod mark_step;
mod marked;
mod number_list;
mod number_set;
mod ready;
mod scan;
mod step_laws;
mod write;
mod zone;
mod zone_bits;

pub use bit_fault::BitFault;
pub use bit_laws::{inode_mark_is_one_bit, mark_is_one_bit, zone_mark_is_one_bit};
pub use bits::put_bit;
pub use find::{find_free, find_inode};
pub use flush::settle;
pub use inode::{put_inode, write_inode};
pub use mark::{clear_inode, clear_zone, mark_inode, mark_zone};
pub use mark_step::{free_inode, free_zone, put_inode_mark, put_zone_mark};
pub use marked::{inode_is_marked, zone_is_marked};
pub use number_list::NumberList;
pub use number_set::NumberSet;
pub use ready::{quiet_is_ready, steps_join, unmarked_is_unnamed, unmarked_is_unused};
pub use step_laws::{written_inode_is_kept, written_inode_is_one_inode, written_zone_is_one_zone};
pub use write::write_beside;
pub use zone::write_zone;
pub use zone_bits::{zone_bit, zone_bit_sector};
