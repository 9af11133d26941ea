// What an installation would do, reported without doing it: `-t`.
ghost use Rattle.std.specs.Prelude.{◌≡◌, option_map, IsTrue};
ghost use Rattle.disk_trait.specs.Moments.{IsWhole};
ghost use Rattle.lilo_model.specs.Place.{Memory};
ghost use Rattle.mbr_table.specs.View.{device_view};
ghost use Rattle.bios_model.specs.Reads.{ReadsAndShows};
ghost use Rattle.lilo_run.specs.Refusal.{IsBeginHalt};
ghost use Rattle.lilo_run.specs.Run.{is_test_status, DoesBeside};
ghost use Rattle.lilo_run.specs.Verdict.{test_effect};

use crate::conf::{ConfHalt, say_conf};
use disk_trait::Disks;
use install_begin::{BeginFault, begin};
use install_run::preview_begun;
use mbr_table::Device;
use std::alloc::Global;
use stream_trait::{Shown, Sink};

/// Carries out `-t` at a time, in seconds since 1970.
pub(crate) fn test<D: Disks, O: Sink>(
    alloc: Global,
    disks: &mut D,
    root: Option<Device>,
    path: &[u8],
    time: u32,
    out: &mut Shown<'_, O>,
) -> u8
    requires whole { IsWhole (D.size_of disks.old) (D.past disks.old) }
    ensures does { (memory : Memory) → DoesBeside D.Disks O.Sink disks.old memory result out.old out.new
        (λ now machine. test_effect now machine time (option_map device_view root) path.now) }
    ensures known { IsTrue (is_test_status result) }
    ensures only { ReadsAndShows D.Disks O.Sink (disks.old, out.old) (disks.new, out.new) (result ≡ 8) }
{
    match begin(alloc, disks, root, path) {
        Ok(begun) => preview_begun(alloc, disks, begun, time, out),
        Err(fault) => say_conf(out, begin_halt(fault), path),
    }
}

// How it is reported that an installation can't begin.
pub(crate) fn begin_halt(fault: BeginFault) -> ConfHalt
    ensures { IsBeginHalt fault result }
{
    match fault {
        BeginFault::File(fault) => ConfHalt::File(fault),
        BeginFault::Text(fault) => ConfHalt::Text(fault),
    }
}
