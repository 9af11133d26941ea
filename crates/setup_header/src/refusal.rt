// Why a kernel is refused.

/// Why a kernel, or what goes with it, can't be loaded.
#[derive(Clone, Copy, Debug, PartialEq, Eq)]
pub enum SetupFault {
    /// The kernel is shorter than its real-mode part.
    TooShort,
    /// The kernel's first sector doesn't end with the bytes 55 AA.
    NoBootFlag,
    /// The kernel has this many setup sectors, more than 64.
    SetupTooLarge(u8),
    /// A low kernel has this many bytes of protected-mode code, more than 524,288.
    LowTooLarge(u32),
    /// An initrd goes with a kernel that can't take one.
    NoInitrd,
    /// The kernel or its initrd would end at the address `need`, past `have`, the end of the memory for it.
    NoRoom { need: u64, have: u64 },
    /// The command line has this many bytes, more than the kernel takes.
    LineTooLong(u32),
}
