// Where a device lies.
ghost use Rattle.std.specs.Prelude.{◌≡◌, ◌<◌, Err, IfOk, IfErr, IsErrOf, IsTrue};
ghost use Rattle.sector_address.specs.Machine.{OnDisks};
ghost use Rattle.mbr_table.specs.View.{device_view};
ghost use Rattle.lilo_run.specs.Refusal.{halt_verdict};
ghost use Rattle.lilo_run.specs.Run.{GivesPlace, IsPlaceHalt, is_place_status};
ghost use Rattle.lilo_model.specs.ConfVerdict.{place_at};
ghost use Rattle.bios_model.specs.Reads.{OnlyReads};

use crate::refusal::{Halt, PlaceFault};
use disk_trait::{Disks, Span};
use mbr_table::{Device, TableFault, place_of};

/// The sectors of a device.
#[tactic(auto, unfolding(lilo_model::specs::ConfVerdict::place_at))]
pub fn find_device<D: Disks>(disks: &mut D, device: Device) -> Result<Span, Halt>
    ensures place { OnDisks D.Disks disks.old (λ now machine.
        GivesPlace result (place_at now machine (device_view device))) }
    ensures inside { IfOk result (λ span. span.start < D.size_of disks.old span.disk) }
    ensures no_disk { D.size_of disks.old device.disk ≡ 0 → result ≡ Err (Halt.NoPlace PlaceFault.NoDisk) }
    ensures known { IfErr result (λ halt. IsTrue (is_place_status (halt_verdict halt).status)) }
    ensures reads { OnlyReads D.Disks disks.old disks.new (IsErrOf result Halt.Device) }
{
    match place_of(disks, device) {
        Ok(span) => Ok(span),
        Err(fault) => Err(place_halt(fault)),
    }
}

// How a refusal of partition tables is reported.
pub(crate) fn place_halt(fault: TableFault) -> Halt
    ensures told { IsPlaceHalt fault result }
    ensures known { IsTrue (is_place_status (halt_verdict result).status) }
{
    match fault {
        TableFault::Device => Halt::Device,
        TableFault::NoDisk(_) => Halt::NoPlace(PlaceFault::NoDisk),
        TableFault::NoPartition(_) => Halt::NoPlace(PlaceFault::NoPartition),
        TableFault::NoSignature(_)
        | TableFault::OutsideDisk(_)
        | TableFault::LoopedChain(_)
        | TableFault::TooMany
        | TableFault::UnknownDevice => Halt::NoPlace(PlaceFault::BadTable),
    }
}
