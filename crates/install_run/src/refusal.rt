// What is answered of an installation that is refused.
ghost use Rattle.std.specs.Prelude.{◌≡◌, ◌≤◌, ◌++◌, codes, OnOk, OnErr};
ghost use Rattle.lilo_model.specs.Faults.{Rose};
ghost use Rattle.stream_trait.specs.Shows.{Shows, sink_of};
ghost use Rattle.stream_trait.specs.Sink.{Takes, TakesFront};
ghost use Rattle.install_run.specs.Texts.{device_line, device_status, fault_status, fault_text};

use crate::path::show_path;
use crate::plan::{plan_status, show_plan};
use crate::write::show_write;
use disk_trait::{Disks, Phase};
use install_order::{Halt, InstallFault};
use std::mem::drop;
use stream_trait::{Shown, Sink, SinkFailed};

// Of a disk that failed.
fn device_status(phase: Phase) -> u8
    ensures { result ≡ device_status phase }
{
    match phase {
        Phase::Before => 8,
        Phase::Commit => 9,
        Phase::After => 10,
    }
}

fn device_line(phase: Phase) -> &'static [u8]
    ensures { result.now ≡ device_line phase }
{
    match phase {
        Phase::Before => b"device\n",
        Phase::Commit => b"device at commit\n",
        Phase::After => b"device after commit\n",
    }
}

/// The exit status of an installation that is refused in a phase of it: 3 for the volume and its paths, 4 for what
/// can't be mapped or isn't apart, 5 for space, 13 for memory; 8, 9 and 10 where a disk failed before the commit, in it
/// and after it.
pub fn fault_status(fault: &InstallFault, phase: Phase) -> u8
    ensures { result ≡ fault_status fault.now phase }
{
    match fault {
        InstallFault::Survey(_) | InstallFault::Path(_, _) => 3,
        InstallFault::NotApart(_) => 4,
        InstallFault::Plan(fault) => plan_status(fault),
        InstallFault::Write(_) => 5,
        InstallFault::Device => device_status(phase),
        InstallFault::Memory => 13,
    }
}

// Shows it.
fn show_fault<O: Sink>(fault: &InstallFault, phase: Phase, out: &mut Shown<'_, O>)
    ensures shown { Shows (sink_of O.Sink out.old) (fault_text fault.now phase) (sink_of O.Sink out.new) }
    ensures same_reference { out.new.out.ghost_name ≡ out.old.out.ghost_name }
{
    match fault {
        InstallFault::Survey(_) => out.put(b"volume: survey\n"),
        InstallFault::NotApart(option) => {
            out.put(b"address: ");
            out.put(option.name());
            out.put(b" is not apart\n");
        }
        InstallFault::Path(path, fault) => show_path(path.bytes(), fault, out),
        InstallFault::Plan(fault) => show_plan(fault, out),
        InstallFault::Write(fault) => show_write(fault, out),
        InstallFault::Device => out.put(device_line(phase)),
        InstallFault::Memory => out.put(b"memory\n"),
    }
}

/// Shows the line that reports why an installation is refused, and gives the exit status.
pub fn say_fault<O: Sink>(fault: &InstallFault, phase: Phase, out: &mut Shown<'_, O>) -> u8
    ensures status { result ≡ fault_status fault.now phase }
    ensures shown { Shows (sink_of O.Sink out.old) (codes "lilo: " ++ fault_text fault.now phase)
        (sink_of O.Sink out.new) }
    ensures same_reference { out.new.out.ghost_name ≡ out.old.out.ghost_name }
{
    out.put(b"lilo: ");
    show_fault(fault, phase, out);
    fault_status(fault, phase)
}

/// The same of what ended an installation, with the disks, which are given back.
pub fn say_halt<'d, D: Disks, O: Sink>(halt: Halt<'d, D>, out: &mut Shown<'_, O>) -> (u8, &'d mut D)
    ensures status { result.0 ≡ fault_status halt.entry.fault halt.entry.phase }
    ensures shown { Shows (sink_of O.Sink out.old) (codes "lilo: " ++ fault_text halt.entry.fault halt.entry.phase)
        (sink_of O.Sink out.new) }
    ensures disks { result.1.now ≡ halt.entry.volume.disks.now }
    ensures same_reference { result.1.ghost_name ≡ halt.entry.volume.disks.ghost_name }
    ensures same_sink { out.new.out.ghost_name ≡ out.old.out.ghost_name }
{
    let Halt {
        volume,
        phase,
        fault,
    } = halt;
    let status = say_fault(&fault, phase, out);
    drop(fault);
    (status, volume.detach())
}

/// Puts the line that reports why an installation is refused, without `lilo: ` before it, with its newline.
///
/// # Errors
///
/// The sink failed, and has taken a prefix of the line.
pub fn fault_line<O: Sink>(
    fault: &InstallFault,
    phase: Phase,
    out: &mut O,
) -> Result<(), SinkFailed>
    ensures later { O.faults out.old ≤ O.faults out.new }
    ensures ok { OnOk result (Takes (O.taken out.old) (fault_text fault.now phase) (O.taken out.new)) }
    ensures uncounted { OnOk result (O.faults out.new ≡ O.faults out.old) }
    ensures failed { OnErr result (Rose (O.faults out.old) (O.faults out.new)) }
    ensures front { OnErr result (TakesFront (O.taken out.old) (fault_text fault.now phase) (O.taken out.new)) }
{
    let mut shown = Shown::new(out);
    show_fault(fault, phase, &mut shown);
    if shown.failed() {
        Err(SinkFailed)
    } else {
        Ok(())
    }
}
