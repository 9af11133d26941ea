//! The boot sector that was there before the first installation, brought back from its backup: `lilo -u`.
//!
//! One sector is written and made durable, so a stop at any moment leaves the old boot sector or the one that is
//! restored. The checks, their order and the backup's name are this project's own. No call takes memory.
#![tactic(auto)]

mod backup;
mod boot_sector;
mod restore_fault;

pub use boot_sector::restore;
pub use restore_fault::RestoreFault;
