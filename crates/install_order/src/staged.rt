// What was staged is committed.
ghost use Rattle.std.specs.Prelude.{◌<◌};
ghost use Rattle.minix_zones.specs.Volume.{sizes_of};

use crate::boot_sector::commit;
use crate::committed::Committed;
use crate::fault::InstallFault;
use crate::halt::Halt;
use disk_trait::{Disks, Phase, Span};
use install_apart::NamePair;
use minix_zones::Volume;
use sector_parts::Sector;
use std::mem::drop;

/// A volume on which the files of an installation are, whole and durable, while what boots is as before. The new boot
/// sector is what is still to be written.
pub struct Staged<'d, D: Disks> {
    pub(crate) volume: Volume<'d, D>,
    /// Where the boot device lies.
    pub(crate) boot: Span,
    /// The map's names.
    pub(crate) map: NamePair,
    /// The new boot sector.
    pub(crate) sector: Sector,
    ghost on_disk: { boot.start < sizes_of volume boot.disk },
}

impl<'d, D: Disks> Staged<'d, D> {
    ghost use Rattle.std.specs.Prelude.{◌≡◌, IfOk, IfErr};
    ghost use Rattle.disk_trait.specs.Moments.{IsQuiet};
    ghost use Rattle.minix_zones.specs.Volume.{past_of};
    ghost use Rattle.install_order.specs.States.{HaltsCommit, IsCommitted, MayBeCommitted, MayBeTidied};

    /// Writes the new boot sector and makes it durable: one write and one flush. From then on the new map boots.
    ///
    /// # Errors
    ///
    /// `Device` alone: the sector was written or it wasn't. The phase is `Commit`.
    pub fn commit(self) -> Result<Committed<'d, D>, Halt<'d, D>>
        ensures committed { IfOk result (IsCommitted self.entry) }
        ensures quiet { IfOk result (λ committed. IsQuiet (past_of committed.volume)) }
        ensures ready { MayBeCommitted self.entry → IfOk result MayBeTidied }
        ensures halted { IfErr result (HaltsCommit self.entry) }
    {
        let Staged {
            volume,
            boot,
            map,
            sector,
        } = self;
        let mut volume = volume;
        match commit(&mut volume, boot, &sector) {
            Ok(()) => Ok(Committed { volume, map }),
            Err(_) => {
                drop(map);
                Err(Halt {
                    volume,
                    phase: Phase::Commit,
                    fault: InstallFault::Device,
                })
            }
        }
    }
}
