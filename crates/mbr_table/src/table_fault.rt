/// Why a device can't be found, or the partitions of a disk can't be listed.
#[derive(Clone, Copy, Debug, PartialEq, Eq)]
pub enum TableFault {
    /// The partition table in this sector has no signature.
    NoSignature(u64),
    /// This partition ends past the end of the disk, or with 0 a table to which a link leads.
    OutsideDisk(u8),
    /// A link leads to the table in this sector, which was read before.
    LoopedChain(u64),
    /// There are more than 59 logical partitions.
    TooMany,
    /// The name is none of a device.
    UnknownDevice,
    /// The disk has no partition of this number.
    NoPartition(u8),
    /// There is no disk of this number.
    NoDisk(u8),
    /// The disk failed.
    Device,
}
