// Why a file isn't stored.
ghost use Rattle.std.specs.Prelude.{◌≡◌};
ghost use Rattle.ldisk_files.specs.Stored.{put_status};

use crate::fault::FileFault;

/// Why a file isn't stored.
#[derive(Clone, Copy, Debug, PartialEq, Eq)]
pub enum PutFault {
    /// The source failed.
    Source,
    /// The volume refuses it, its length, the disk or memory.
    File(FileFault),
}

impl PutFault {
    /// The exit status that reports it.
    pub fn status(self) -> u8
        ensures { result ≡ put_status self }
    {
        match self {
            PutFault::Source => 11,
            PutFault::File(fault) => fault.status(),
        }
    }
}
