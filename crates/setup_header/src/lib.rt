//! The header of a Linux kernel, the layout of memory for it, and the header's fields that a loader
//! replaces: Linux/x86 boot protocol 2.00 to 2.06, and the form before it, which has no version.
//!
//! A kernel's real-mode part is its first sector, the boot sector, and the setup sectors after it; what
//! follows is the protected-mode part. The header is in the first two sectors. Addresses are physical,
//! lengths are bytes. No call here takes memory.
#![tactic(auto)]

mod fields;
mod header;
mod layout;
mod refusal;

pub use fields::patch;
pub use header::Header;
pub use layout::{Layout, Region, plan_memory};
pub use refusal::SetupFault;
