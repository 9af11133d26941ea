// Refusals.

/// A field of a superblock or an inode.
#[derive(Clone, Copy, Debug, PartialEq, Eq)]
pub enum SizeField {
    /// The number of inodes.
    Inodes,
    /// The number of zones.
    Zones,
    /// The blocks of the inode bitmap.
    InodeMap,
    /// The blocks of the zone bitmap.
    ZoneMap,
    /// The first data zone.
    FirstZone,
    /// The bytes of a file.
    FileSize,
}

/// Why a superblock or an inode can't be used.
#[derive(Clone, Copy, Debug, PartialEq, Eq)]
pub enum LayoutFault {
    /// The magic number is that of no kind.
    BadMagic,
    /// This field is out of its range.
    BadSize(SizeField),
    /// Zones are larger than blocks.
    ZoneSize,
}
