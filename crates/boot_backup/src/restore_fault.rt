use disk_trait::Phase;
use mbr_table::TableFault;

/// Why a boot sector isn't restored.
#[derive(Clone, Copy, Debug, PartialEq, Eq)]
pub enum RestoreFault {
    /// The boot sector that is there is of another system, or of another version; or there is no backup of 512 bytes.
    NotOurs,
    /// No device has a volume, or the one that is named has no room for one.
    NoVolume,
    /// The volume's device isn't found, or a table of partitions that would be searched for it is refused.
    Place(TableFault),
    /// The volume's superblock is refused, or a zone or an inode on the way to the backup.
    Layout,
    /// A disk failed: before the boot sector was written, or in the write or flush of it.
    Device(Phase),
}
