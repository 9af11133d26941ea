// Why nothing is started.

use setup_header::SetupFault;

/// Why nothing was started.
#[derive(Clone, Copy, Debug, PartialEq, Eq)]
pub enum Reason {
    /// The boot sector isn't of this format, and a BIOS takes it for no boot sector.
    NotBootable,
    /// This entry of the descriptor table breaks the format, or with 255 another part of the map.
    BadTable(u8),
    /// The default line's sector breaks the format.
    BadLine,
    /// Eight bytes of a section are no slot; places count from 0, 64 for each section sector.
    BadSlot(u32),
    /// A section goes on after this many section sectors, the most allowed.
    ChainTooLong(u16),
    /// A section ends after this many sectors, and more are needed.
    ShortChain(u32),
    /// A slot names a sector that isn't there.
    NotFound,
    /// The kernel can't be loaded.
    Header(SetupFault),
    /// The keys ended at the prompt.
    Idle,
}

/// Why a step of a boot ended it.
#[derive(Clone, Copy, Debug, PartialEq, Eq)]
pub enum Halt {
    /// A disk failed.
    Device,
    Refused(Reason),
}

impl From<SetupFault> for Halt {
    ghost use Rattle.std.specs.Prelude.{◌≡◌};
    ghost use Rattle.section_loader.specs.declared.reason.Halt.TheVariants.{Refused};
    ghost use Rattle.section_loader.specs.declared.reason.Reason.TheVariants as reasons;

    ghost from_gives = { λ fault halt. halt ≡ Refused (reasons.Header fault) };

    fn from(fault: SetupFault) -> Halt {
        Halt::Refused(Reason::Header(fault))
    }
}
