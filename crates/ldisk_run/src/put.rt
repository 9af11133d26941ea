// `put`: a file is stored.
ghost use Rattle.std.specs.Prelude.{◌≡◌, ◌≢◌, ◌≤◌, ◌+◌, ℕ, List, IsTrue, false};
ghost use Rattle.disk_trait.specs.Moments.{IsWhole};
ghost use Rattle.sector_address.specs.Machine.{OnDisks};
ghost use Rattle.lilo_model.specs.Faults.{Rose};
ghost use Rattle.ldisk_files.specs.Stored.{OnGiven};
ghost use Rattle.ldisk_model.specs.Arguments.{Put};
ghost use Rattle.ldisk_model.specs.Verdict.{command_verdict, asks_source};
ghost use Rattle.mbr_table.specs.View.{device_view};
ghost use Rattle.minix_names.specs.Component.{HasNoZero};
ghost use Rattle.ldisk_run.specs.Left.{AnswersAs, LeavesBy};
ghost use Rattle.ldisk_run.specs.Made.{put_status};
ghost use Rattle.ldisk_run.specs.Run.{is_any_status};

use crate::halt::status_of;
use crate::room::find_room;
use disk_trait::Disks;
use ldisk_files::PutFault;
use mbr_table::Device;
use std::alloc::Global;
use stream_trait::Source;

/// Stores the bytes of a source at a path of a device at a time, and answers the status.
pub(crate) fn put<D: Disks, I: Source>(
    alloc: Global,
    disks: &mut D,
    device: Device,
    path: &[u8],
    source: &mut I,
    time: u32,
) -> u8
    requires whole { IsWhole (D.size_of disks.old) (D.past disks.old) }
    requires path { HasNoZero path.now }
    ensures answers { (sectors : ℕ) → OnDisks D.Disks disks.old (λ now machine. OnGiven (I.left source.old) (λ given.
        AnswersAs (command_verdict now machine given sectors (Put (device_view device) path.now)) result)) }
    ensures known { IsTrue (is_any_status result) }
    ensures usage { result ≢ 1 }
    ensures no_disk { D.size_of disks.old 0 ≡ 0 → result ≡ 3 }
    ensures leaves { (sectors : ℕ) → OnGiven (I.left source.old) (λ given.
        LeavesBy D.Disks disks.old disks.new time given sectors (Put (device_view device) path.now) result) }
    ensures unread { OnDisks D.Disks disks.old (λ now machine.
        asks_source now machine (Put (device_view device) path.now) ≡ false → source.new ≡ source.old) }
    ensures source { result ≡ 11 → Rose (I.faults source.old) (I.faults source.new) }
{
    match find_room(disks, device) {
        Ok(span) => put_status(ldisk_files::put(alloc, disks, span, path, source, time)),
        Err(halt) => status_of(Err(halt)),
    }
}

/// The status of what was stored.
fn put_status(done: Result<(), PutFault>) -> u8
    ensures { result ≡ put_status done }
{
    match done {
        Ok(()) => 0,
        Err(fault) => fault.status(),
    }
}
