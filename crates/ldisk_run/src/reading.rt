// A command that only reads.
use mbr_table::Device;

/// A command that only reads.
#[derive(Clone, Copy, Debug, PartialEq, Eq)]
pub(crate) enum Reading<'a> {
    /// `get`: it prints the file at a path.
    Get { device: Device, path: &'a [u8] },
    /// `ls`: it lists the directory at a path.
    Ls { device: Device, path: &'a [u8] },
}
