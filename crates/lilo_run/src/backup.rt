// The boot sector, restored from its backup: `-u`.
ghost use Rattle.std.specs.Prelude.{◌≡◌, ◌≤◌, ◌<◌, option_map, IfSome, IsTrue};
ghost use Rattle.stream_trait.specs.Shows.{Shows, sink_of};
ghost use Rattle.disk_trait.specs.declared.disks.Phase.{Phase};
ghost use Rattle.lilo_model.specs.ConfVerdict.{place_at};
ghost use Rattle.lilo_model.specs.Place.{Memory};
ghost use Rattle.mbr_table.specs.View.{device_view, span_view};
ghost use Rattle.loader_core.specs.Leaves.{WritesAndShows};
ghost use Rattle.lilo_run.specs.Refusal.{restore_verdict};
ghost use Rattle.lilo_run.specs.Run.{is_restore_status, CarriesBeside, IsLost};
ghost use Rattle.lilo_run.specs.Verdict.{early_at, restored_at, restored_effect, restore_effect};

use crate::boot::say_failed;
use crate::conf::say_file;
use crate::place::find_device;
use crate::refusal::{Halt, say};
use boot_backup::{RestoreFault, restore};
use conf_file::FileFault;
use disk_trait::{Disks, Phase, Span};
use loader_core::Shown;
use mbr_table::{Device, TableFault};
use stream_trait::Sink;

/// Restores the boot sector of a device from its backup on the part's volume, and answers the status.
pub(crate) fn put_back<D: Disks, O: Sink>(
    disks: &mut D,
    root: Option<Device>,
    device: Device,
    out: &mut Shown<'_, O>,
) -> u8
    ensures does { (memory : Memory) → CarriesBeside D.Disks O.Sink memory result
        (disks.old, out.old) (disks.new, out.new)
        (λ now machine. restore_effect now machine (option_map device_view root) (device_view device)
        (place_at now machine (device_view device))) }
    ensures early { IfSome (early_at (D.size_of disks.old) (device_view device)) (λ status. result ≡ status) }
    ensures known { IsTrue (is_restore_status result) }
    ensures only { WritesAndShows D.Disks O.Sink (disks.old, out.old) (disks.new, out.new) (IsLost result) }
{
    match find_device(disks, device) {
        Ok(span) => put_back_in(disks, root, device, span, out),
        Err(halt) => say(out, halt),
    }
}

// The same in the sectors of the device.
fn put_back_in<D: Disks, O: Sink>(
    disks: &mut D,
    root: Option<Device>,
    device: Device,
    span: Span,
    out: &mut Shown<'_, O>,
) -> u8
    requires { span.start < D.size_of disks.old span.disk }
    ensures does { (memory : Memory) → CarriesBeside D.Disks O.Sink memory result
        (disks.old, out.old) (disks.new, out.new)
        (λ now machine. restored_effect
        (restored_at now machine (option_map device_view root) (device_view device) (span_view span))) }
    ensures known { IsTrue (is_restore_status result) }
    ensures only { WritesAndShows D.Disks O.Sink (disks.old, out.old) (disks.new, out.new) (IsLost result) }
{
    match restore(disks, root, device, span) {
        Ok(()) => 0,
        Err(fault) => say_restore(out, fault),
    }
}

// Shows the line that reports why a boot sector isn't restored, and gives its status.
fn say_restore<O: Sink>(out: &mut Shown<'_, O>, fault: RestoreFault) -> u8
    requires { fault ≡ RestoreFault.Place TableFault.Device → ⊥ }
    ensures status { result ≡ (restore_verdict fault).status }
    ensures known { IsTrue (is_restore_status result) }
    ensures some { 1 ≤ result }
    ensures lost { IsLost result → (phase : Phase) × (fault ≡ RestoreFault.Device phase) }
    ensures shown { Shows (sink_of O.Sink out.old) (restore_verdict fault).text (sink_of O.Sink out.new) }
    ensures same_reference { out.new.out.ghost_name ≡ out.old.out.ghost_name }
{
    match fault {
        RestoreFault::NotOurs => say(out, Halt::NotOurs),
        RestoreFault::NoVolume => say_file(out, FileFault::NoVolume, b""),
        RestoreFault::Place(fault) => say_file(out, FileFault::Place(fault), b""),
        RestoreFault::Layout => say_file(out, FileFault::Layout, b""),
        RestoreFault::Device(Phase::Before) => say(out, Halt::Device),
        // Nothing comes after the flush that may fail.
        RestoreFault::Device(Phase::Commit | Phase::After) => say_failed(out, Phase::Commit),
    }
}
