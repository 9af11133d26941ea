// What makes steps durable.
ghost use Rattle.std.specs.Prelude.{◌≡◌, OnOk};
ghost use Rattle.disk_trait.specs.Moments.{IsTold, now, begun};
ghost use Rattle.minix_change_laws.specs.Beside.{SoundAsIn};
ghost use Rattle.minix_zones.specs.Volume.{volume_view, past_of, Syncs};
ghost use Rattle.minix_steps.specs.Steps.{IsReady, Steps};

use disk_trait::Disks;
use minix_zones::{Volume, ZoneFault};

/// Makes all steps so far durable. Then the volume is sound, with the Names of the last flush. A flush that
/// failed did nothing.
///
/// # Errors
///
/// `Device` alone.
pub fn settle<D: Disks>(volume: &mut Volume<'_, D>) -> Result<(), ZoneFault>
    requires { IsReady volume.old }
    ensures steps { Steps volume.old volume.new }
    ensures syncs { Syncs volume.old volume.new ZoneFault.Device result }
    ensures begun { OnOk result (begun (past_of volume.new) ≡ now (past_of volume.new)) }
    ensures sound { IsTold (past_of volume.old)
        → OnOk result (SoundAsIn (volume_view volume.old) (begun (past_of volume.old)) (now (past_of volume.new))) }
{
    volume.sync()
}
