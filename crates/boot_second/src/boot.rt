// A boot whose memory is handed over.
ghost use Rattle.std.specs.Prelude.{◌≡◌, ◌<◌, false, length, IfSome, IsTrue};
ghost use Rattle.mbr_table.specs.View.{device_view, span_view};
ghost use Rattle.lilo_model.specs.ConfVerdict.{place_at};
ghost use Rattle.stream_trait.specs.Shows.{sink_of};
ghost use Rattle.loader_core.specs.Report.{boot_report};
ghost use Rattle.loader_core.specs.Leaves.{WritesAndAsks};
ghost use Rattle.lilo_run.specs.Run.{is_boot_status, IsLost};
ghost use Rattle.lilo_run.specs.Verdict.{early_at, boot_effect, report_effect};
ghost use Rattle.boot_second.specs.Second.{BootsOn, place_records, report_records};

use crate::hand::{hand_kernel, hand_sector};
use bios_model::{Bios, Ram};
use disk_trait::{Disks, Span};
use lilo_run::{Halt, find_device, say, say_failed, say_keys};
use loader_core::{Outcome, boot};
use mbr_table::Device;
use stream_trait::{Shown, Sink, Source};

/// Boots a device by keys, shows the texts that `lilo IMAGE.. -- boot DEVICE` shows, and answers its status. Where that
/// is 0, what the boot put into memory is handed over: its regions, and where the machine goes on. Where it isn't,
/// nothing is.
#[tactic(auto, unfolding(lilo_run::specs::Verdict::boot_effect))]
pub fn boot_second<D: Disks, I: Source, O: Sink, R: Sink>(
    bios: &mut Bios<'_, D, I>,
    device: Device,
    ram: &mut Ram,
    out: &mut Shown<'_, O>,
    to: &mut Shown<'_, R>,
) -> u8
    ensures boots { BootsOn D.Disks I.Source O.Sink R.Sink result
        (bios.old.disks.now, bios.old.keys.now, ram.old, out.old) to.old
        (bios.new.disks.now, bios.new.keys.now, ram.new, out.new) to.new
        (λ now machine memory. boot_effect now machine memory false (place_at now machine (device_view device)))
        (λ now machine memory. place_records now machine memory (place_at now machine (device_view device))) }
    ensures early { IfSome (early_at (D.size_of bios.old.disks.now) (device_view device)) (λ status. result ≡ status) }
    ensures known { IsTrue (is_boot_status result) }
    ensures nothing { (result ≡ 0 → ⊥) → sink_of R.Sink to.new ≡ sink_of R.Sink to.old }
    ensures memory { length ram.new ≡ length ram.old }
    ensures asks { WritesAndAsks D.Disks I.Source O.Sink (bios.old, out.old) (bios.new, out.new)
        (IsLost result) (result ≡ 11) }
{
    match find_device(bios.disks, device) {
        Ok(span) => boot_span(bios, span, ram, out, to),
        Err(halt) => say(out, halt),
    }
}

/// Boots from the first of some sectors by keys.
fn boot_span<D: Disks, I: Source, O: Sink, R: Sink>(
    bios: &mut Bios<'_, D, I>,
    span: Span,
    ram: &mut Ram,
    out: &mut Shown<'_, O>,
    to: &mut Shown<'_, R>,
) -> u8
    requires { span.start < D.size_of bios.old.disks.now span.disk }
    ensures boots { BootsOn D.Disks I.Source O.Sink R.Sink result
        (bios.old.disks.now, bios.old.keys.now, ram.old, out.old) to.old
        (bios.new.disks.now, bios.new.keys.now, ram.new, out.new) to.new
        (λ now machine memory keys. report_effect false (boot_report now machine (span_view span) memory keys))
        (λ now machine memory keys. report_records (boot_report now machine (span_view span) memory keys)) }
    ensures known { IsTrue (is_boot_status result) }
    ensures nothing { (result ≡ 0 → ⊥) → sink_of R.Sink to.new ≡ sink_of R.Sink to.old }
    ensures memory { length ram.new ≡ length ram.old }
    ensures asks { WritesAndAsks D.Disks I.Source O.Sink (bios.old, out.old) (bios.new, out.new)
        (IsLost result) (result ≡ 11) }
{
    match boot(bios, span, ram, out) {
        Outcome::Loaded(layout) => {
            hand_kernel(to, ram, &layout);
            0
        }
        Outcome::Handed => {
            hand_sector(to, ram);
            0
        }
        Outcome::Refused(reason) => say(out, Halt::Boot(reason)),
        Outcome::Keys => say_keys(out),
        Outcome::Device(phase) => say_failed(out, phase),
    }
}
