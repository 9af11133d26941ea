// How a boot ends.

use disk_trait::Phase;
use section_loader::Reason;
use setup_header::Layout;

/// How a boot ends.
#[derive(Clone, Copy, Debug, PartialEq, Eq)]
pub enum Outcome {
    /// A kernel lies in memory by this layout.
    Loaded(Layout),
    /// A boot sector lies at 0x7C00.
    Handed,
    /// Nothing was started.
    Refused(Reason),
    /// The source of keys failed.
    Keys,
    /// A disk failed, before, in or after the write of the default line.
    Device(Phase),
}

/// What was started.
#[derive(Clone, Copy, Debug, PartialEq, Eq)]
pub(crate) enum Started {
    Loaded(Layout),
    Handed,
}
