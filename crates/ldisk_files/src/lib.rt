//! What `ldisk` does with the names of a Minix volume: `rm`, `mkdir`, `ln` and `put`; and with what is marked without a
//! use: `reclaim`.
//!
//! [`rm`] surveys the volume, looks for the name, and only then writes; [`mkdir`], [`ln`] and [`put`] choose room for
//! what is made before they write. Pull the plug at any write, and the volume is sound, with the names before or after.
//! [`reclaim`] changes no name.
#![tactic(auto)]

mod check;
mod content;
mod creation;
mod ended;
mod fault;
mod freeing;
mod making;
mod place;
mod put_fault;
mod removal;
mod room;
mod stored;
mod storing;

pub use creation::{ln, mkdir};
pub use fault::FileFault;
pub use freeing::reclaim;
pub use put_fault::PutFault;
pub use removal::rm;
pub use storing::put;
