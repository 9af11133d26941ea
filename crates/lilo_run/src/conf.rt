// The configuration of a part: where it is, what it says, and what is reported of one that can't be used.
ghost use Rattle.std.specs.Prelude.{◌≡◌, ◌≤◌, ◌++◌, ℕ, None, option_map, option_copied, is_none, codes, IfErr};
ghost use Rattle.disk_trait.specs.Calls.{SameOf};
ghost use Rattle.std.specs.Prelude.{IfSome, IsTrue};
ghost use Rattle.stream_trait.specs.Shows.{Shows, sink_of};
ghost use Rattle.lilo_model.specs.ConfVerdict.{conf_path, conf_device};
ghost use Rattle.lilo_model.specs.Place.{Memory};
ghost use Rattle.lilo_model.specs.Words.{Query};
ghost use Rattle.sector_address.specs.Machine.{OnDisks};
ghost use Rattle.mbr_table.specs.View.{device_view};
ghost use Rattle.conf_settings.specs.View.{fault_view, reason_view};
ghost use Rattle.lilo_run.specs.Refusal.{conf_verdict, file_verdict, text_verdict, GivesDevice, HasConfCause};
ghost use Rattle.lilo_run.specs.Run.{is_conf_status, DoesBeside};
ghost use Rattle.lilo_run.specs.Verdict.{query_command, conf_query_effect, early_status};
ghost use Rattle.bios_model.specs.Reads.{ReadsAndShows};

use crate::place::place_halt;
use crate::query::query_device;
use crate::refusal::{Halt, say};
use conf_file::{FileFault, read_conf_file};
use conf_settings::config_line;
use disk_trait::Disks;
use lilo_conf::{ConfFault, ConfReason, parse};
use mbr_table::Device;
use std::alloc::Global;
use stream_trait::{Shown, Sink};

/// The path of a configuration where none is given.
const CONFIG: &str = "/etc/lilo.conf";

/// Why a configuration can't be used.
#[derive(Clone, Copy, Debug, PartialEq, Eq)]
pub(crate) enum ConfHalt {
    /// Its file isn't read.
    File(FileFault),
    /// Its text is refused.
    Text(ConfFault),
}

/// The path of a part's configuration.
pub(crate) fn conf_path<'w>(config: Option<&'w str>) -> &'w str
    ensures { result.now ≡ conf_path (option_copied config.entry) }
{
    match config {
        Some(path) => path,
        None => CONFIG,
    }
}

/// Carries out `-q`, with a device or without.
#[tactic(auto, unfolding(crate::specs::Verdict::early_status))]
pub(crate) fn query<D: Disks, O: Sink>(
    alloc: Global,
    disks: &mut D,
    device: Option<Device>,
    root: Option<Device>,
    path: &[u8],
    out: &mut Shown<'_, O>,
) -> u8
    ensures does { (memory : Memory) → DoesBeside D.Disks O.Sink disks.old memory result out.old out.new
        (λ now machine. query_command now machine (option_map device_view root) path.now
        (option_map device_view device)) }
    ensures early { IfSome (early_status (D.size_of disks.old) (Query (option_map device_view device)))
        (λ status. result ≡ status) }
    ensures known { IsTrue (is_conf_status result) }
    ensures starved { result ≡ 13 → device ≡ None }
    ensures only { ReadsAndShows D.Disks O.Sink (disks.old, out.old) (disks.new, out.new) (result ≡ 8) }
{
    match device {
        Some(device) => query_device(disks, device, out),
        None => query_conf(alloc, disks, root, path, out),
    }
}

/// Carries out `-q` without a device: that of the configuration's `boot` is listed, or the volume's.
#[tactic(auto, unfolding(crate::specs::Verdict::conf_query_effect, lilo_model::specs::ConfVerdict::conf_query_verdict, lilo_model::specs::ConfVerdict::conf_names_text))]
fn query_conf<D: Disks, O: Sink>(
    alloc: Global,
    disks: &mut D,
    root: Option<Device>,
    path: &[u8],
    out: &mut Shown<'_, O>,
) -> u8
    ensures does { (memory : Memory) → DoesBeside D.Disks O.Sink disks.old memory result out.old out.new (λ now machine.
        conf_query_effect now machine (option_map device_view root) path.now) }
    ensures known { IsTrue (is_conf_status result) }
    ensures only { ReadsAndShows D.Disks O.Sink (disks.old, out.old) (disks.new, out.new) (result ≡ 8) }
{
    match boot_device(alloc, disks, root, path) {
        Ok(device) => query_device(disks, device, out),
        Err(halt) => say_conf(out, halt, path),
    }
}

/// The device that the configuration of a part boots: the volume's, where it names none.
#[tactic(auto, unfolding(lilo_model::specs::ConfVerdict::conf_device))]
pub(crate) fn boot_device<D: Disks>(
    alloc: Global,
    disks: &mut D,
    root: Option<Device>,
    path: &[u8],
) -> Result<Device, ConfHalt>
    ensures device { OnDisks D.Disks disks.old (λ now machine.
        GivesDevice path.now result (conf_device now machine (option_map device_view root) path.now)) }
    ensures cause { IfErr result (HasConfCause (D.faults disks.old) (D.faults disks.new)) }
    ensures later { D.faults disks.old ≤ D.faults disks.new }
    ensures same { SameOf D.Disks disks.old disks.new }
{
    match read_conf_file(alloc, disks, root, path) {
        Ok(file) => match parse(alloc, file.text.bytes()) {
            Ok(config) => Ok(config.boot.unwrap_or(file.device)),
            Err(fault) => Err(ConfHalt::Text(fault)),
        },
        Err(fault) => Err(ConfHalt::File(fault)),
    }
}

/// Shows the line that reports why a configuration can't be used, whose path is this one, and gives its status.
pub(crate) fn say_conf<O: Sink>(out: &mut Shown<'_, O>, halt: ConfHalt, path: &[u8]) -> u8
    ensures status { result ≡ (conf_verdict path.now halt).status }
    ensures known { IsTrue (is_conf_status result) }
    ensures some { 1 ≤ result }
    ensures shown { Shows (sink_of O.Sink out.old) (conf_verdict path.now halt).text (sink_of O.Sink out.new) }
    ensures same_reference { out.new.out.ghost_name ≡ out.old.out.ghost_name }
{
    match halt {
        ConfHalt::File(fault) => say_file(out, fault, path),
        ConfHalt::Text(fault) => say_text(out, fault),
    }
}

/// The same of its file.
#[tactic(auto, unfolding(lilo_model::specs::Refusal::refusal_line))]
pub(crate) fn say_file<O: Sink>(out: &mut Shown<'_, O>, fault: FileFault, path: &[u8]) -> u8
    ensures status { result ≡ (file_verdict path.now fault).status }
    ensures known { IsTrue (is_conf_status result) }
    ensures some { 1 ≤ result }
    ensures shown { Shows (sink_of O.Sink out.old) (file_verdict path.now fault).text (sink_of O.Sink out.new) }
    ensures same_reference { out.new.out.ghost_name ≡ out.old.out.ghost_name }
{
    match fault {
        FileFault::NoVolume => {
            out.put(b"lilo: volume: no volume\n");
            3
        }
        FileFault::Place(fault) => say(out, place_halt(fault)),
        FileFault::Device => say(out, Halt::Device),
        FileFault::Layout => {
            out.put(b"lilo: volume: layout\n");
            3
        }
        FileFault::Missing => {
            say_path(out, b"lilo: volume: missing ", path);
            3
        }
        FileFault::BadPath => {
            say_path(out, b"lilo: volume: path ", path);
            3
        }
        FileFault::Memory => say_memory(out),
    }
}

// Shows a text and a path, and ends the line.
fn say_path<O: Sink>(out: &mut Shown<'_, O>, text: &[u8], path: &[u8])
    ensures shown { Shows (sink_of O.Sink out.old) (text.now ++ path.now ++ codes "\n") (sink_of O.Sink out.new) }
    ensures same_reference { out.new.out.ghost_name ≡ out.old.out.ghost_name }
{
    out.put(text);
    out.put(path);
    out.put(b"\n");
}

/// Shows that memory doesn't suffice, and gives the status.
pub(crate) fn say_memory<O: Sink>(out: &mut Shown<'_, O>) -> u8
    ensures status { result ≡ 13 }
    ensures shown { Shows (sink_of O.Sink out.old) (codes "lilo: memory\n") (sink_of O.Sink out.new) }
    ensures same_reference { out.new.out.ghost_name ≡ out.old.out.ghost_name }
{
    out.put(b"lilo: memory\n");
    13
}

// Shows why a text is refused, and gives the status.
fn say_text<O: Sink>(out: &mut Shown<'_, O>, fault: ConfFault) -> u8
    ensures status { result ≡ (text_verdict (fault_view fault)).status }
    ensures known { IsTrue (is_conf_status result) }
    ensures some { 1 ≤ result }
    ensures shown { Shows (sink_of O.Sink out.old) (text_verdict (fault_view fault)).text (sink_of O.Sink out.new) }
    ensures same_reference { out.new.out.ghost_name ≡ out.old.out.ghost_name }
{
    if is_memory(fault.reason) {
        return say_memory(out);
    }
    out.put(b"lilo: config: ");
    out.put(config_line(fault).as_slice());
    out.put(b"\n");
    2
}

// Whether it is memory that doesn't suffice.
fn is_memory(reason: ConfReason) -> bool
    ensures { result ≡ is_none (reason_view reason) }
{
    matches!(reason, ConfReason::Memory)
}
