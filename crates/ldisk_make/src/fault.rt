// Refusals.
ghost use Rattle.std.specs.Prelude.{◌≡◌};
ghost use Rattle.ldisk_make.specs.Answer.{fault_status};

use disk_trait::DiskFault;

/// Why nothing is made.
#[derive(Clone, Copy, Debug, PartialEq, Eq)]
pub enum MakeFault {
    /// Partitions overlap, lie outside the disk or touch its first sector.
    Misplaced,
    /// Disk 0 isn't there, or the device can't be found.
    NoPlace,
    /// The sectors don't suffice for the tables and the root, or the first data zone doesn't fit its field.
    NoSpace,
    /// The disk failed.
    Device,
}

impl From<DiskFault> for MakeFault {
    ghost use Rattle.std.specs.Prelude.{◌≡◌};
    ghost use Rattle.ldisk_make.specs.declared.fault.MakeFault.{MakeFault};

    ghost from_gives = { λ _ fault. fault ≡ MakeFault.Device };

    fn from(_: DiskFault) -> MakeFault {
        MakeFault::Device
    }
}

impl MakeFault {
    /// The exit status that reports it.
    pub fn status(self) -> u8
        ensures { result ≡ fault_status self }
    {
        match self {
            MakeFault::Misplaced => 1,
            MakeFault::NoPlace => 3,
            MakeFault::NoSpace => 5,
            MakeFault::Device => 8,
        }
    }
}
