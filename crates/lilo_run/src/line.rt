// The default line, set for one boot or cleared: `-R`.
ghost use Rattle.std.specs.Prelude.{◌≡◌, ◌≤◌, ◌<◌, ◌++◌, option_map, slice_range, Err, IfOk, OnOk, IsTrue};
ghost use Rattle.stream_trait.specs.Shows.{Shows, sink_of};
ghost use Rattle.disk_trait.specs.Calls.{GoesOn, SameOf};
ghost use Rattle.disk_trait.specs.declared.disks.Phase.{Phase};
ghost use Rattle.lilo_model.specs.Checks.{with_fault};
ghost use Rattle.lilo_model.specs.ConfVerdict.{place_at};
ghost use Rattle.lilo_model.specs.Faults.{Rose};
ghost use Rattle.lilo_model.specs.LineSector.{line_bytes};
ghost use Rattle.lilo_model.specs.LineShots.{shot_line, shot_place};
ghost use Rattle.lilo_model.specs.LineWords.{joined_words};
ghost use Rattle.lilo_model.specs.Place.{Memory};
ghost use Rattle.sector_address.specs.Machine.{OnDisks};
ghost use Rattle.mbr_table.specs.View.{device_view, span_view};
ghost use Rattle.loader_core.specs.Leaves.{WritesAndShows};
ghost use Rattle.one_shot.specs.Shot.{Puts};
ghost use Rattle.lilo_run.specs.Line.{spaced};
ghost use Rattle.lilo_run.specs.Refusal.{line_refused, shot_verdict};
ghost use Rattle.lilo_run.specs.Run.{is_line_status, CarriesBeside, IsLost};
ghost use Rattle.lilo_run.specs.Verdict.{line_effect, line_on, shot_effect};

use crate::boot::say_failed;
use crate::conf::{boot_device, say_conf};
use crate::place::find_device;
use crate::refusal::{Halt, long_line, say};
use disk_trait::{Disks, Phase, Span};
use loader_core::{Reason, Shown};
use mbr_table::Device;
use one_shot::{ShotFault, clear_line, set_line};
use std::alloc::{AllocError, Global};
use stream_trait::{Sink, Words};

/// The arguments from one place to before another, with a space between each two.
pub(crate) fn joined(
    alloc: Global,
    words: &Words,
    from: usize,
    to: usize,
) -> Result<Vec<u8>, AllocError>
    ensures { IfOk result (λ text. text.items ≡ joined_words (slice_range words.now from to)) }
{
    let mut text = Vec::new(alloc);
    for at in from..to.min(words.count()) {
        push_word(&mut text, at == from, words.word(at).as_bytes())?;
    }
    Ok(text)
}

// Adds a word to the words before it.
fn push_word(text: &mut Vec<u8>, is_first: bool, word: &[u8]) -> Result<(), AllocError>
    ensures { OnOk result (text.new.items ≡ text.old.items ++ spaced is_first word.now) }
{
    if !is_first {
        text.push(b' ')?;
    }
    text.extend_from_slice(word)?;
    Ok(())
}

/// Sets the default line on the device that a part's configuration boots, for one boot, or without a text clears it,
/// and answers the status.
pub(crate) fn put_line<D: Disks, O: Sink>(
    alloc: Global,
    disks: &mut D,
    root: Option<Device>,
    path: &[u8],
    text: &[u8],
    out: &mut Shown<'_, O>,
) -> u8
    ensures does { (memory : Memory) → CarriesBeside D.Disks O.Sink memory result
        (disks.old, out.old) (disks.new, out.new)
        (λ now machine. line_effect now machine (option_map device_view root) path.now text.now) }
    ensures known { IsTrue (is_line_status result) }
    ensures only { WritesAndShows D.Disks O.Sink (disks.old, out.old) (disks.new, out.new) (IsLost result) }
{
    match boot_device(alloc, disks, root, path) {
        Ok(device) => put_line_on(disks, device, text, out),
        Err(halt) => say_conf(out, halt, path),
    }
}

// The same on a device.
fn put_line_on<D: Disks, O: Sink>(
    disks: &mut D,
    device: Device,
    text: &[u8],
    out: &mut Shown<'_, O>,
) -> u8
    ensures does { (memory : Memory) → CarriesBeside D.Disks O.Sink memory result
        (disks.old, out.old) (disks.new, out.new)
        (λ now machine. shot_effect text.now
        (line_on now machine text.now (place_at now machine (device_view device)))) }
    ensures known { IsTrue (is_line_status result) }
    ensures only { WritesAndShows D.Disks O.Sink (disks.old, out.old) (disks.new, out.new) (IsLost result) }
{
    match find_device(disks, device) {
        Ok(span) => put_line_in(disks, span, text, out),
        Err(halt) => say(out, halt),
    }
}

// The same in the sectors of a device.
fn put_line_in<D: Disks, O: Sink>(
    disks: &mut D,
    span: Span,
    text: &[u8],
    out: &mut Shown<'_, O>,
) -> u8
    requires { span.start < D.size_of disks.old span.disk }
    ensures does { (memory : Memory) → CarriesBeside D.Disks O.Sink memory result
        (disks.old, out.old) (disks.new, out.new)
        (λ now machine. shot_effect text.now
        (with_fault line_refused (shot_place now machine (span_view span) text.now))) }
    ensures known { IsTrue (is_line_status result) }
    ensures only { WritesAndShows D.Disks O.Sink (disks.old, out.old) (disks.new, out.new) (IsLost result) }
{
    match shoot(disks, span, text) {
        Ok(()) => 0,
        Err(fault) => say_shot(out, fault),
    }
}

// Sets the default line to a text, or clears it where that is empty.
fn shoot<D: Disks>(disks: &mut D, span: Span, text: &[u8]) -> Result<(), ShotFault>
    requires { span.start < D.size_of disks.old span.disk }
    ensures line { OnDisks D.Disks disks.old (λ now machine. Puts D.Disks disks.old disks.new
        (line_bytes (shot_line text.now)) (shot_place now machine (span_view span) text.now) result) }
    ensures before { result ≡ Err (ShotFault.Device Phase.Before) → SameOf D.Disks disks.old disks.new }
    ensures failed { (phase : Phase) → result ≡ Err (ShotFault.Device phase)
        → Rose (D.faults disks.old) (D.faults disks.new) }
    ensures goes_on { GoesOn D.Disks disks.old disks.new }
{
    match text {
        [] => clear_line(disks, span),
        _ => set_line(disks, span, text),
    }
}

// Shows the line that reports why a default line wasn't written, and gives its status.
fn say_shot<O: Sink>(out: &mut Shown<'_, O>, fault: ShotFault) -> u8
    ensures status { result ≡ (shot_verdict fault).status }
    ensures known { IsTrue (is_line_status result) }
    ensures some { 1 ≤ result }
    ensures lost { IsLost result → (phase : Phase) × (fault ≡ ShotFault.Device phase) }
    ensures shown { Shows (sink_of O.Sink out.old) (shot_verdict fault).text (sink_of O.Sink out.new) }
    ensures same_reference { out.new.out.ghost_name ≡ out.old.out.ghost_name }
{
    match fault {
        ShotFault::NotOurs => say(out, Halt::NotOurs),
        ShotFault::LineTooLong(size) => {
            out.put(long_line(size).as_slice());
            4
        }
        ShotFault::BadTable(entry) => say(out, Halt::Boot(Reason::BadTable(entry))),
        ShotFault::NotFound => say(out, Halt::Boot(Reason::NotFound)),
        ShotFault::Device(Phase::Before) => say(out, Halt::Device),
        // Nothing comes after the flush that may fail.
        ShotFault::Device(Phase::Commit | Phase::After) => say_failed(out, Phase::Commit),
    }
}
