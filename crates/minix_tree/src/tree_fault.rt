// Refusals.
use minix_zones::ZoneFault;
use std::alloc::AllocError;

/// Why a path leads nowhere, or a file can't be read. A position counts the components of the text that is
/// walked, from 0.
#[derive(Debug, Drop, PartialEq, Eq)]
pub enum TreeFault {
    /// There is no entry of this component's name, or the path doesn't begin with a slash.
    NotFound(u16),
    /// This component is looked for in what is no directory.
    NotDirectory(u16),
    /// What was found is no regular file.
    NotFile,
    /// A ninth link is met.
    TooManyLinks,
    /// An entry of this directory names an inode that isn't there.
    BadEntry(u32),
    /// The text that is still to be walked has more than 1024 bytes.
    PathTooLong,
    /// A zone or an inode is refused, or the disk failed.
    Zone(ZoneFault),
    /// There is no memory for the file.
    Memory,
}

impl From<AllocError> for TreeFault {
    ghost use Rattle.std.specs.Prelude.{◌≡◌};
    ghost use Rattle.minix_tree.specs.declared.tree_fault.TreeFault.{TreeFault};

    ghost from_gives = { λ _ fault. fault ≡ TreeFault.Memory };

    fn from(_: AllocError) -> TreeFault {
        TreeFault::Memory
    }
}

impl From<ZoneFault> for TreeFault {
    ghost use Rattle.std.specs.Prelude.{◌≡◌};
    ghost use Rattle.minix_tree.specs.declared.tree_fault.TreeFault.{TreeFault};

    ghost from_gives = { λ given fault. fault ≡ TreeFault.Zone given };

    fn from(fault: ZoneFault) -> TreeFault {
        TreeFault::Zone(fault)
    }
}
