// What was done with a volume.
ghost use Rattle.std.specs.Prelude.{◌≡◌};
ghost use Rattle.ldisk_files.specs.Answer.{zone_fault};

use crate::fault::{FileFault, zone_fault};
use disk_trait::Disks;
use minix_zones::{Volume, ZoneFault};

/// A volume, and what was done with it.
#[derive(Drop)]
pub(crate) struct Ended<'d, D: Disks> {
    pub(crate) volume: Volume<'d, D>,
    pub(crate) result: Result<(), FileFault>,
}

/// How it is reported that there is no volume. The disks are handed back.
pub(crate) fn refused<D: Disks>(disks: &mut D, fault: ZoneFault) -> FileFault
    ensures told { result ≡ zone_fault fault }
    ensures same { disks.new ≡ disks.old }
{
    zone_fault(fault)
}
