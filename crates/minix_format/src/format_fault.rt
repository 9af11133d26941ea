// Refusals.
use disk_trait::DiskFault;

/// Why a volume can't be made.
#[derive(Clone, Copy, Debug, PartialEq, Eq)]
pub enum FormatFault {
    /// The sectors don't suffice for the tables and the root, or the first data zone doesn't fit its field.
    NoSpace,
    /// The disk failed.
    Device,
}

impl From<DiskFault> for FormatFault {
    ghost use Rattle.std.specs.Prelude.{◌≡◌};
    ghost use Rattle.minix_format.specs.declared.format_fault.FormatFault.{FormatFault};

    ghost from_gives = { λ _ fault. fault ≡ FormatFault.Device };

    fn from(_: DiskFault) -> FormatFault {
        FormatFault::Device
    }
}
