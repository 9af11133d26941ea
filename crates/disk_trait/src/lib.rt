//! Disks as an installer and a loader see them: sectors read and written by number, and flushes.
//!
//! A disk is numbered from 0 and has sectors of 512 bytes, numbered from 0 too. The trait says what a
//! call does to the past: what the disks held at first and each write and flush since. The functions
//! `read`, `write` and `flush`, and those made of them, say the same in terms of moments: what the disks
//! hold now, and what a stop may leave. `MemDisks` keeps disks in memory.
#![tactic(auto)]

mod disks;
mod event;
mod geometry;
mod held_disk;
mod laws;
mod layer;
mod left;
mod mem_disk;
mod mem_disks;
mod range;

pub use disks::{DiskFault, Disks, Phase, Span};
pub use event::Event;
pub use geometry::{Geometry, GeometryFault};
pub use laws::{
    Claim, end_of_run, joining, last_moment, leaves_only, left_images, may_hold, not_written,
    now_and_begun, quiet, runs_join, untold, weaker, whole,
};
pub use layer::{flush, read, write, write_and_flush};
pub use mem_disk::{Failing, MemDisk};
pub use mem_disks::MemDisks;
pub use range::{write_range, write_sectors};
