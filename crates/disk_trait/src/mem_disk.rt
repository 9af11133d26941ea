// What disks in memory are made of.
use crate::Geometry;

/// A disk that is to be made.
#[derive(Clone, Copy, Debug, PartialEq, Eq)]
pub struct MemDisk {
    pub sectors: u32,
    pub geometry: Geometry,
}

/// A call that is to fail: reads, writes and flushes in range are counted from 0.
#[derive(Clone, Copy, Debug, PartialEq, Eq)]
pub struct Failing {
    pub call: u64,
    /// A write that fails is made all the same. A read or a flush that fails does nothing.
    pub made: bool,
}
