// What is done to disks.
use sector_parts::Sector;

/// One event of the disks.
#[derive(Clone, Copy, Debug)]
pub enum Event {
    /// The write of one sector: its disk, its number there, and the bytes.
    Write(u8, u64, Sector),
    /// A flush of all disks.
    Flush,
}
