// Refusals.
ghost use Rattle.std.specs.Prelude.{◌≡◌};
ghost use Rattle.ldisk_files.specs.Answer.{fault_status, zone_fault, tree_fault, survey_fault, write_fault};

use minix_choice::WriteFault;
use minix_survey::SurveyFault;
use minix_tree::TreeFault;
use minix_zones::ZoneFault;

/// Why no name is changed, and nothing is freed.
#[derive(Clone, Copy, Debug, PartialEq, Eq)]
pub enum FileFault {
    /// A volume, its survey, a path or a kind is refused, or something is at a new name.
    Refused,
    /// A link's target has no byte, or too many.
    BadLength,
    /// Inodes, zones or the length of names don't suffice.
    NoSpace,
    /// The disk failed.
    Device,
    /// There is no memory.
    Memory,
}

impl FileFault {
    /// The exit status that reports it.
    pub fn status(self) -> u8
        ensures { result ≡ fault_status self }
    {
        match self {
            FileFault::Refused => 3,
            FileFault::BadLength => 4,
            FileFault::NoSpace => 5,
            FileFault::Device => 8,
            FileFault::Memory => 13,
        }
    }
}

/// How a refusal of a superblock, an inode or a zone is reported.
pub(crate) fn zone_fault(fault: ZoneFault) -> FileFault
    ensures { result ≡ zone_fault fault }
{
    match fault {
        ZoneFault::Device => FileFault::Device,
        _ => FileFault::Refused,
    }
}

/// How a refusal of a path is reported.
pub(crate) fn tree_fault(fault: TreeFault) -> FileFault
    ensures { result ≡ tree_fault fault }
{
    match fault {
        TreeFault::Zone(fault) => zone_fault(fault),
        TreeFault::Memory => FileFault::Memory,
        _ => FileFault::Refused,
    }
}

/// How a refusal of a survey is reported.
pub(crate) fn survey_fault(fault: SurveyFault) -> FileFault
    ensures { result ≡ survey_fault fault }
{
    match fault {
        SurveyFault::Memory => FileFault::Memory,
        SurveyFault::Tree(fault) => tree_fault(fault),
        _ => FileFault::Refused,
    }
}

/// How a refusal of a writer is reported.
pub(crate) fn write_fault(fault: WriteFault) -> FileFault
    ensures { result ≡ write_fault fault }
{
    match fault {
        WriteFault::Device => FileFault::Device,
        WriteFault::Memory => FileFault::Memory,
        WriteFault::NoSpace { .. } | WriteFault::NoInode | WriteFault::NameTooLong => {
            FileFault::NoSpace
        }
        _ => FileFault::Refused,
    }
}
