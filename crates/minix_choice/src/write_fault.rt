// Refusals.
use minix_steps::BitFault;
use minix_tree::TreeFault;
use minix_zones::ZoneFault;
use std::alloc::AllocError;

/// Why a file can't be made.
#[derive(Debug, Drop, PartialEq, Eq)]
pub enum WriteFault {
    /// So many zones are needed, and fewer are free; or one is, and the directory can't grow.
    NoSpace { need: u32, found: u32 },
    /// No inode is free.
    NoInode,
    /// The name has more bytes than the names of the volume.
    NameTooLong,
    /// The directory has the name.
    Exists,
    /// The inode has as many links as one of the volume can have.
    Links,
    /// A zone's number or an inode's size is refused: on a sound volume whose disks report their past none is.
    Tree(TreeFault),
    /// The disk failed.
    Device,
    /// There is no memory.
    Memory,
}

impl From<AllocError> for WriteFault {
    ghost use Rattle.std.specs.Prelude.{◌≡◌};
    ghost use Rattle.minix_choice.specs.declared.write_fault.WriteFault.{WriteFault};

    ghost from_gives = { λ _ fault. fault ≡ WriteFault.Memory };

    fn from(_: AllocError) -> WriteFault {
        WriteFault::Memory
    }
}

impl From<ZoneFault> for WriteFault {
    ghost use Rattle.std.specs.Prelude.{◌≡◌};
    ghost use Rattle.minix_choice.specs.View.{zone_refusal};

    ghost from_gives = { λ fault refusal. refusal ≡ zone_refusal fault };

    fn from(fault: ZoneFault) -> WriteFault {
        match fault {
            ZoneFault::Device => WriteFault::Device,
            _ => WriteFault::Tree(TreeFault::Zone(fault)),
        }
    }
}

impl From<TreeFault> for WriteFault {
    ghost use Rattle.std.specs.Prelude.{◌≡◌};
    ghost use Rattle.minix_choice.specs.View.{tree_refusal};

    ghost from_gives = { λ fault refusal. refusal ≡ tree_refusal fault };

    fn from(fault: TreeFault) -> WriteFault {
        match fault {
            TreeFault::Zone(fault) => WriteFault::from(fault),
            TreeFault::Memory => WriteFault::Memory,
            _ => WriteFault::Tree(fault),
        }
    }
}

impl From<BitFault> for WriteFault {
    ghost use Rattle.std.specs.Prelude.{◌≡◌};
    ghost use Rattle.minix_choice.specs.View.{bit_refusal};

    ghost from_gives = { λ fault refusal. refusal ≡ bit_refusal fault };

    fn from(fault: BitFault) -> WriteFault {
        match fault {
            BitFault::NoSpace { need, found } => WriteFault::NoSpace { need, found },
            BitFault::Device => WriteFault::Device,
            BitFault::Memory => WriteFault::Memory,
        }
    }
}
