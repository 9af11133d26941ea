// A boot from a device, and what is reported of the memory after it.
ghost use Rattle.std.specs.Prelude.{◌≡◌, ◌<◌, [], ◌∷◌, length, IfSome, IsTrue};
ghost use Rattle.mbr_table.specs.View.{device_view, span_view};
ghost use Rattle.stream_trait.specs.Shows.{Shows, sink_of};
ghost use Rattle.loader_core.specs.Report.{boot_report};
ghost use Rattle.setup_header.specs.Words.{LiesIn};
ghost use Rattle.memory_dump.specs.Dump.{regions_of, boot_sector_in};
ghost use Rattle.loader_core.specs.Leaves.{WritesAndAsks};
ghost use Rattle.lilo_run.specs.Refusal.{keys_failed, phase_verdict};
ghost use Rattle.lilo_run.specs.Run.{is_boot_status, CarriesOn, IsLost};
ghost use Rattle.lilo_model.specs.ConfVerdict.{place_at};
ghost use Rattle.lilo_run.specs.Verdict.{early_at, boot_effect, report_effect, regions_text};

use crate::place::find_device;
use crate::refusal::{Halt, say};
use bios_model::{Bios, Ram};
use disk_trait::{Disks, Phase, Span};
use loader_core::{Outcome, Shown, boot};
use mbr_table::Device;
use memory_dump::{dump_memory, dump_sector};
use setup_header::Layout;
use stream_trait::{Sink, Source};

/// Boots a device by keys, reports the memory where that is asked for, and answers the status.
#[tactic(auto, unfolding(crate::specs::Verdict::boot_effect))]
pub(crate) fn boot_device<D: Disks, I: Source, O: Sink>(
    bios: &mut Bios<'_, D, I>,
    device: Device,
    dump: bool,
    ram: &mut Ram,
    out: &mut Shown<'_, O>,
) -> u8
    ensures does { CarriesOn D.Disks I.Source O.Sink result
        (bios.old.disks.now, bios.old.keys.now, ram.old, out.old)
        (bios.new.disks.now, bios.new.keys.now, ram.new, out.new)
        (λ now machine memory. boot_effect now machine memory dump (place_at now machine (device_view device))) }
    ensures early { IfSome (early_at (D.size_of bios.old.disks.now) (device_view device)) (λ status. result ≡ status) }
    ensures known { IsTrue (is_boot_status result) }
    ensures memory { length ram.new ≡ length ram.old }
    ensures asks { WritesAndAsks D.Disks I.Source O.Sink (bios.old, out.old) (bios.new, out.new)
        (IsLost result) (result ≡ 11) }
{
    match find_device(bios.disks, device) {
        Ok(span) => boot_span(bios, span, dump, ram, out),
        Err(halt) => say(out, halt),
    }
}

/// Boots from the first of some sectors by keys.
fn boot_span<D: Disks, I: Source, O: Sink>(
    bios: &mut Bios<'_, D, I>,
    span: Span,
    dump: bool,
    ram: &mut Ram,
    out: &mut Shown<'_, O>,
) -> u8
    requires { span.start < D.size_of bios.old.disks.now span.disk }
    ensures does { CarriesOn D.Disks I.Source O.Sink result
        (bios.old.disks.now, bios.old.keys.now, ram.old, out.old)
        (bios.new.disks.now, bios.new.keys.now, ram.new, out.new)
        (λ now machine memory keys. report_effect dump (boot_report now machine (span_view span) memory keys)) }
    ensures known { IsTrue (is_boot_status result) }
    ensures memory { length ram.new ≡ length ram.old }
    ensures asks { WritesAndAsks D.Disks I.Source O.Sink (bios.old, out.old) (bios.new, out.new)
        (IsLost result) (result ≡ 11) }
{
    match boot(bios, span, ram, out) {
        Outcome::Loaded(layout) => {
            tell_kernel(dump, out, ram, &layout);
            0
        }
        Outcome::Handed => {
            tell_sector(dump, out, ram);
            0
        }
        Outcome::Refused(reason) => say(out, Halt::Boot(reason)),
        Outcome::Keys => say_keys(out),
        Outcome::Device(phase) => say_failed(out, phase),
    }
}

/// Shows the line that reports that the source of keys failed, and gives its status.
pub fn say_keys<O: Sink>(out: &mut Shown<'_, O>) -> u8
    ensures status { result ≡ 11 }
    ensures shown { Shows (sink_of O.Sink out.old) keys_failed.text (sink_of O.Sink out.new) }
    ensures same_reference { out.new.out.ghost_name ≡ out.old.out.ghost_name }
{
    out.put(b"lilo: keys\n");
    11
}

/// Shows the line that says in which phase a disk failed, and gives its status.
pub fn say_failed<O: Sink>(out: &mut Shown<'_, O>, phase: Phase) -> u8
    ensures status { result ≡ (phase_verdict phase).status }
    ensures lost { IsLost result }
    ensures shown { Shows (sink_of O.Sink out.old) (phase_verdict phase).text (sink_of O.Sink out.new) }
    ensures same_reference { out.new.out.ghost_name ≡ out.old.out.ghost_name }
{
    out.put(phase_line(phase));
    phase_status(phase)
}

fn phase_status(phase: Phase) -> u8
    ensures status { result ≡ (phase_verdict phase).status }
    ensures lost { IsLost result }
{
    match phase {
        Phase::Before => 8,
        Phase::Commit => 9,
        Phase::After => 10,
    }
}

fn phase_line(phase: Phase) -> &'static [u8]
    ensures { result.now ≡ (phase_verdict phase).text }
{
    match phase {
        Phase::Before => b"lilo: device\n",
        Phase::Commit => b"lilo: device at commit\n",
        Phase::After => b"lilo: device after commit\n",
    }
}

/// Shows what a kernel's loading has put into memory, where that is asked for.
fn tell_kernel<O: Sink>(dump: bool, out: &mut Shown<'_, O>, ram: &mut Ram, layout: &Layout)
    requires { LiesIn (length ram.old) layout.now }
    ensures shown { Shows (sink_of O.Sink out.old)
        (regions_text dump (regions_of layout.now ram.old)) (sink_of O.Sink out.new) }
    ensures same { ram.new ≡ ram.old }
    ensures same_reference { out.new.out.ghost_name ≡ out.old.out.ghost_name }
{
    if dump {
        dump_memory(out, ram, layout);
    }
}

/// Reports the boot sector that was started, where that is asked for.
fn tell_sector<O: Sink>(dump: bool, out: &mut Shown<'_, O>, ram: &mut Ram)
    ensures shown { Shows (sink_of O.Sink out.old)
        (regions_text dump (boot_sector_in ram.old ∷ [])) (sink_of O.Sink out.new) }
    ensures same { ram.new ≡ ram.old }
    ensures same_reference { out.new.out.ghost_name ≡ out.old.out.ghost_name }
{
    if dump {
        dump_sector(out, ram);
    }
}
