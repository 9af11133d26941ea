// A number in an indirect zone, and a flush.
ghost use Rattle.std.specs.Prelude.{◌≡◌, ◌^◌, ◌≤◌, ◌<◌, OnOk};
ghost use Rattle.disk_trait.specs.Moments.{IsTold, now, IsQuiet, LeavesOnly};
ghost use Rattle.lilo_model.specs.MinixLayout.{numbers_in_zone, number_size};
ghost use Rattle.minix_layout.specs.View.{kind_view};
ghost use Rattle.minix_turns.specs.Names.{HooksUnseen};
ghost use Rattle.minix_turns.specs.Part.{TurnsNumber, HasNumberPart, WithOrWithoutNumber};
ghost use Rattle.minix_zones.specs.Volume.{past_of, HasDeviceCause};

use crate::part::turn_part;
use disk_trait::Disks;
use minix_zones::{Volume, ZoneFault};

/// Writes a number into an indirect zone, and makes it durable, from a quiet moment on. The zone's other numbers stay.
///
/// # Errors
///
/// `Device` alone.
pub fn turn_number<D: Disks>(
    volume: &mut Volume<'_, D>,
    zone: u32,
    index: u16,
    number: u32,
) -> Result<(), ZoneFault>
    requires from { volume.old.layout.first ≤ zone }
    requires below { zone < volume.old.layout.zones }
    requires there { index < numbers_in_zone (kind_view volume.old.layout.kind) }
    requires fits { number < 256 ^ number_size (kind_view volume.old.layout.kind) }
    requires quiet { IsQuiet (past_of volume.old) }
    ensures turns { TurnsNumber volume.old volume.new zone index number ZoneFault.Device result }
    ensures any_moment { LeavesOnly (past_of volume.old) (past_of volume.new)
        (WithOrWithoutNumber volume.old zone index number) }
    ensures number { IsTold (past_of volume.old)
        → OnOk result (HasNumberPart volume.old (now (past_of volume.new)) zone index number) }
    ensures quiet { OnOk result (IsQuiet (past_of volume.new)) }
    ensures device { HasDeviceCause volume.old volume.new ZoneFault.Device result }

    // Where a directory gets zones by it, no name sees it.
    ensures unseen { HooksUnseen volume.old volume.new zone index number }
{
    write_number(volume, zone, index, number)
}

// The same, by the version.
fn write_number<D: Disks>(
    volume: &mut Volume<'_, D>,
    zone: u32,
    index: u16,
    number: u32,
) -> Result<(), ZoneFault>
    requires from { volume.old.layout.first ≤ zone }
    requires below { zone < volume.old.layout.zones }
    requires there { index < numbers_in_zone (kind_view volume.old.layout.kind) }
    requires fits { number < 256 ^ number_size (kind_view volume.old.layout.kind) }
    requires quiet { IsQuiet (past_of volume.old) }
    ensures { TurnsNumber volume.old volume.new zone index number ZoneFault.Device result }
{
    if volume.layout().kind.is_v1() {
        turn_part(volume, zone, 2 * index, &(number as u16).to_le_bytes())
    } else {
        turn_part(volume, zone, 4 * index, &number.to_le_bytes())
    }
}
