//! Bytes of a 512-byte disk sector: parts of it, and little-endian numbers and names in it.
//!
//! Offsets and lengths are bytes. Numbers are little-endian, as in the IBM PC partition table, the
//! Linux/x86 boot protocol and Minix file systems. No call refuses or takes memory.
#![tactic(auto)]

mod field_mut;
mod field_ref;
mod halves;
mod lent_part;
mod sector;

pub use field_mut::FieldMut;
pub use field_ref::FieldRef;
pub use halves::{half, half_mut};
pub use lent_part::{part_mut, put_name};
pub use sector::{Sector, part, put_part, put_u16, put_u32, u16_at, u32_at};
