// `rm`, `mkdir` and `ln`: names of a volume change.
ghost use Rattle.std.specs.Prelude.{◌≡◌, ◌≢◌, ◌≤◌, ◌+◌, ℕ, List, IsTrue};
ghost use Rattle.disk_trait.specs.Moments.{IsWhole};
ghost use Rattle.disk_trait.specs.Past.{Told};
ghost use Rattle.sector_address.specs.Machine.{OnDisks};
ghost use Rattle.ldisk_model.specs.Arguments.{Rm, Mkdir, Ln};
ghost use Rattle.ldisk_model.specs.Verdict.{command_verdict};
ghost use Rattle.mbr_table.specs.View.{device_view};
ghost use Rattle.minix_names.specs.Component.{HasNoZero};
ghost use Rattle.ldisk_run.specs.Left.{AnswersAs, LeavesBy};
ghost use Rattle.ldisk_run.specs.Made.{file_status};
ghost use Rattle.ldisk_run.specs.Run.{is_command_status, status_of};

use crate::halt::status_of;
use crate::room::find_room;
use disk_trait::Disks;
use ldisk_files::FileFault;
use mbr_table::Device;
use std::alloc::Global;

/// Removes the file or the link at a path of a device, and answers the status.
pub(crate) fn rm<D: Disks>(alloc: Global, disks: &mut D, device: Device, path: &[u8]) -> u8
    requires whole { IsWhole (D.size_of disks.old) (D.past disks.old) }
    ensures answers { (given : List ℕ) (sectors : ℕ) → OnDisks D.Disks disks.old (λ now machine.
        AnswersAs (command_verdict now machine given sectors (Rm (device_view device) path.now)) result) }
    ensures known { IsTrue (is_command_status result) }
    ensures usage { result ≢ 1 }
    ensures no_disk { D.size_of disks.old 0 ≡ 0 → result ≡ 3 }
    ensures leaves { (given : List ℕ) (time sectors : ℕ)
        → LeavesBy D.Disks disks.old disks.new time given sectors (Rm (device_view device) path.now) result }
{
    match find_room(disks, device) {
        Ok(span) => file_status(ldisk_files::rm(alloc, disks, span, path)),
        Err(halt) => status_of(Err(halt)),
    }
}

/// Makes a directory at a path of a device at a time, and answers the status.
pub(crate) fn mkdir<D: Disks>(
    alloc: Global,
    disks: &mut D,
    device: Device,
    path: &[u8],
    time: u32,
) -> u8
    requires whole { IsWhole (D.size_of disks.old) (D.past disks.old) }
    requires path { HasNoZero path.now }
    ensures answers { (given : List ℕ) (sectors : ℕ) → OnDisks D.Disks disks.old (λ now machine.
        AnswersAs (command_verdict now machine given sectors (Mkdir (device_view device) path.now)) result) }
    ensures known { IsTrue (is_command_status result) }
    ensures usage { result ≢ 1 }
    ensures no_disk { D.size_of disks.old 0 ≡ 0 → result ≡ 3 }
    ensures leaves { (given : List ℕ) (sectors : ℕ)
        → LeavesBy D.Disks disks.old disks.new time given sectors (Mkdir (device_view device) path.now) result }
{
    match find_room(disks, device) {
        Ok(span) => file_status(ldisk_files::mkdir(alloc, disks, span, path, time)),
        Err(halt) => status_of(Err(halt)),
    }
}

/// Makes a symbolic link with a target at a path of a device at a time, and answers the status.
pub(crate) fn ln<D: Disks>(
    alloc: Global,
    disks: &mut D,
    device: Device,
    path: &[u8],
    target: &[u8],
    time: u32,
) -> u8
    requires whole { IsWhole (D.size_of disks.old) (D.past disks.old) }
    requires path { HasNoZero path.now }
    ensures answers { (given : List ℕ) (sectors : ℕ) → OnDisks D.Disks disks.old (λ now machine.
        AnswersAs (command_verdict now machine given sectors (Ln (device_view device) path.now target.now)) result) }
    ensures known { IsTrue (is_command_status result) }
    ensures usage { result ≢ 1 }
    ensures no_disk { D.size_of disks.old 0 ≡ 0 → result ≡ 3 }
    ensures leaves { (given : List ℕ) (sectors : ℕ)
        → LeavesBy D.Disks disks.old disks.new time given sectors (Ln (device_view device) path.now target.now) result }
{
    match find_room(disks, device) {
        Ok(span) => file_status(ldisk_files::ln(alloc, disks, span, path, target, time)),
        Err(halt) => status_of(Err(halt)),
    }
}

/// The status of what was done with a file.
fn file_status(done: Result<(), FileFault>) -> u8
    ensures { result ≡ file_status done }
{
    match done {
        Ok(()) => 0,
        Err(fault) => fault.status(),
    }
}
