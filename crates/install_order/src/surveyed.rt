// What an installation begins with.
ghost use Rattle.std.specs.Prelude.{◌<◌};
ghost use Rattle.minix_zones.specs.Volume.{sizes_of};

use crate::examination::Examined;
use disk_trait::{Disks, Span};
use lilo_conf::Config;
use mbr_table::Device;
use minix_zones::Volume;

/// A volume that was surveyed for a configuration, and what was found. Names are settled, or they are only looked at.
pub struct Surveyed<'d, D: Disks> {
    pub(crate) volume: Volume<'d, D>,
    pub(crate) config: Config,
    /// The device that is to boot, and where it lies.
    pub(crate) device: Device,
    pub(crate) boot: Span,
    /// Seconds since 1970.
    pub(crate) time: u32,
    pub(crate) found: Examined,
    pub(crate) settled: bool,
    ghost on_disk: { boot.start < sizes_of volume boot.disk },
}

impl<'d, D: Disks> Surveyed<'d, D> {
    ghost use Rattle.std.specs.Prelude.{◌≡◌};

    /// Whether the map that was there is Clear: no sector that a boot of it may look at lies where files are written.
    /// None where the boot sector is another system's.
    pub fn clear(&self) -> Option<bool>
        ensures { result ≡ self.now.found.clear }
    {
        self.found.clear
    }
}
