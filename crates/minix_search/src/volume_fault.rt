use mbr_table::TableFault;

/// Why there is no volume.
#[derive(Clone, Copy, Debug, PartialEq, Eq)]
pub enum VolumeFault {
    /// No device has one, or the one that is named has fewer than four sectors.
    NoVolume,
    /// The device isn't found, a table that would be searched is refused, or a disk failed.
    Place(TableFault),
}
