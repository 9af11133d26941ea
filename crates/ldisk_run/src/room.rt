// Where a volume may lie.
ghost use Rattle.std.specs.Prelude.{◌≡◌, ◌≤◌, ◌+◌, Err, IfOk, IfErr};
ghost use Rattle.disk_trait.specs.Calls.{SameOf};
ghost use Rattle.sector_address.specs.Machine.{OnDisks};
ghost use Rattle.lilo_model.specs.LdiskVerdict.{room_of};
ghost use Rattle.mbr_table.specs.View.{device_view, span_view};
ghost use Rattle.ldisk_run.specs.Run.{Gives, HasCause};

use crate::halt::{Halt, table_halt};
use disk_trait::{Disks, Span};
use mbr_table::{Device, place_of};

/// The fewest sectors that a volume can have.
const FEWEST: u64 = 4;

/// The sectors of a device, which have room for a volume.
#[tactic(auto, unfolding(lilo_model::specs::LdiskVerdict::room_of))]
pub(crate) fn find_room<D: Disks>(disks: &mut D, device: Device) -> Result<Span, Halt>
    ensures room { OnDisks D.Disks disks.old (λ now machine. Gives span_view result
        (room_of now machine (device_view device))) }
    ensures on_disk { IfOk result (λ span. span.start + span.count ≤ D.size_of disks.old span.disk) }
    ensures fewest { IfOk result (λ span. 4 ≤ span.count) }
    ensures no_disk { D.size_of disks.old 0 ≡ 0 → result ≡ Err Halt.Refused }
    ensures cause { IfErr result (HasCause (D.faults disks.old) (D.faults disks.new)) }
    ensures later { D.faults disks.old ≤ D.faults disks.new }
    ensures same { SameOf D.Disks disks.old disks.new }
{
    if disks.size(0) == 0 {
        return Err(Halt::Refused);
    }
    match place_of(disks, device) {
        Ok(span) if span.count >= FEWEST => Ok(span),
        Ok(_) => Err(Halt::Refused),
        Err(fault) => Err(table_halt(fault)),
    }
}
