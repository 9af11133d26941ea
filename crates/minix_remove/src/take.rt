// An entry that is cleared, and its inode that is let go.
ghost use Rattle.std.specs.Prelude.{OnOk, IfErr};
ghost use Rattle.disk_trait.specs.Moments.{IsTold, IsQuiet};
ghost use Rattle.minix_remove.specs.Removed.{IsSomeTarget, TakesAway};
ghost use Rattle.minix_remove.specs.Target.{FitsTarget};
ghost use Rattle.minix_zones.specs.View.{HasZoneCause};
ghost use Rattle.minix_zones.specs.Volume.{past_of, faults_of};

use crate::release::release;
use crate::target::Target;
use disk_trait::Disks;
use minix_grow::slot_of;
use minix_turns::turn_free;
use minix_zones::{Volume, ZoneFault};

/// Clears the entry of a name, and lets its inode go: each is made durable.
///
/// # Errors
///
/// `Device`, and on disks that report no past `ZoneOutside`.
pub(crate) fn take_away<D: Disks>(
    volume: &mut Volume<'_, D>,
    target: &Target,
) -> Result<(), ZoneFault>
    requires fits { FitsTarget volume.old.layout target.now }
    requires quiet { IsQuiet (past_of volume.old) }
    requires may { IsTold (past_of volume.old) → IsSomeTarget volume.old target.now }
    ensures takes { TakesAway volume.old volume.new target.now result }
    ensures quiet { OnOk result (IsQuiet (past_of volume.new)) }
    ensures cause { IfErr result (HasZoneCause (faults_of volume.old) (faults_of volume.new)) }
{
    let index = slot_of(volume.layout().kind, target.place);
    turn_free(volume, target.zone, index)?;
    release(volume, target.inode, &target.node)
}
