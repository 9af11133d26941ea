// Refusals.
use disk_trait::DiskFault;
use minix_layout::LayoutFault;

/// Why a zone or a volume can't be used.
#[derive(Clone, Copy, Debug, PartialEq, Eq)]
pub enum ZoneFault {
    /// The superblock or an inode is refused.
    Layout(LayoutFault),
    /// This number on the way to a zone is neither 0 nor that of a data zone.
    ZoneOutside(u32),
    /// The disk failed.
    Device,
}

impl From<DiskFault> for ZoneFault {
    ghost use Rattle.std.specs.Prelude.{◌≡◌};
    ghost use Rattle.minix_zones.specs.declared.zone_fault.ZoneFault.{ZoneFault};

    ghost from_gives = { λ _ fault. fault ≡ ZoneFault.Device };

    fn from(_: DiskFault) -> ZoneFault {
        ZoneFault::Device
    }
}
