/// Why a sector of a map is refused.
#[derive(Clone, Copy, Debug, PartialEq, Eq)]
pub enum MapFault {
    /// The sector isn't a boot sector of this format.
    NotOurs,
    /// The boot sector is of another version, this one.
    BadVersion(u16),
    /// This entry of the table, counted from 0, breaks the format, or any other field: 255.
    BadTable(u8),
    /// The sector isn't one of the default line.
    BadLine,
}
