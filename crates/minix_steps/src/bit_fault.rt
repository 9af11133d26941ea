// Refusals.
use std::alloc::AllocError;

/// Why no zones or inodes are found, or a bitmap bit can't be written.
#[derive(Clone, Copy, Debug, PartialEq, Eq)]
pub enum BitFault {
    /// So many zones are needed, and fewer are free.
    NoSpace { need: u32, found: u32 },
    /// The disk failed.
    Device,
    /// There is no memory for the list.
    Memory,
}

impl From<AllocError> for BitFault {
    ghost use Rattle.std.specs.Prelude.{◌≡◌};
    ghost use Rattle.minix_steps.specs.declared.bit_fault.BitFault.{BitFault};

    ghost from_gives = { λ _ fault. fault ≡ BitFault.Memory };

    fn from(_: AllocError) -> BitFault {
        BitFault::Memory
    }
}
