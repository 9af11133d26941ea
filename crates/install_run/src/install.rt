// An installation, from what was read to its end.
ghost use Rattle.std.specs.Prelude.{◌≡◌, ◌<◌, true, is_some, IfSome, IsTrue, Some, Ok};
ghost use Rattle.disk_trait.specs.Calls.{GoesOn};
ghost use Rattle.disk_trait.specs.Moments.{IsQuiet, IsWhole};
ghost use Rattle.disk_trait.specs.Past.{Told};
ghost use Rattle.lilo_model.specs.Faults.{Rose};
ghost use Rattle.lilo_model.specs.ConfLawful.{IsLawful};
ghost use Rattle.lilo_conf.specs.View.{config_view};
ghost use Rattle.mbr_table.specs.View.{device_view, span_view};
ghost use Rattle.minix_search.specs.View.{HasRoom};
ghost use Rattle.minix_zones.specs.Volume.{volume_view, past_of, sizes_of, faults_of};
ghost use Rattle.sector_address.specs.Machine.{OnDisks};
ghost use Rattle.stream_trait.specs.Shows.{HasFailed, sink_of};
ghost use Rattle.lilo_model.specs.Partitions.{span_of};
ghost use Rattle.install_begin.specs.View.{begun_view};
ghost use Rattle.install_order.specs.Begins.{LiesThere};
ghost use Rattle.install_order.specs.Checks.{IsLaid};
ghost use Rattle.install_order.specs.View.{begun_of};
ghost use Rattle.install_run.specs.Answers.{is_install_status, IsDiskFault};
ghost use Rattle.install_run.specs.Installs.{Installs, InstallsBegun};
ghost use Rattle.install_run.specs.Phases.{FailsBy};
ghost use Rattle.install_run.specs.Staged.{IsStagedFrom, IsStagedOn};
ghost use Rattle.install_run.specs.Steps.{Finishes, IsReadyToStage};

use crate::carry::carry_out;
use crate::prepare::prepare;
use crate::refusal::say_halt;
use crate::report::Report;
use crate::trial::say_zone;
use disk_trait::{Disks, Span};
use install_begin::Begun;
use install_order::Planned;
use lilo_conf::Config;
use minix_zones::Volume;
use std::alloc::Global;
use stream_trait::{Shown, Sink};

// Carries out what is planned, and gives the exit status and the disks.
fn finish<'d, D: Disks, O: Sink>(planned: Planned<'d, D>, out: &mut Shown<'_, O>) -> (u8, &'d mut D)
    requires { IsReadyToStage planned }
    ensures finishes { Finishes planned.entry result.0 result.1.now (sink_of O.Sink out.old) (sink_of O.Sink out.new) }
    ensures cause { IsDiskFault result.0 → Rose (faults_of planned.entry.volume) (D.faults result.1.now) }
    ensures statuses { IsTrue (is_install_status result.0) }
    ensures goes_on { GoesOn D.Disks planned.entry.volume.disks.now result.1.now }
    ensures same_reference { result.1.ghost_name ≡ planned.entry.volume.disks.ghost_name }
    ensures sink { HasFailed (sink_of O.Sink out.old) (sink_of O.Sink out.new) }
    ensures same_sink { out.new.out.ghost_name ≡ out.old.out.ghost_name }
{
    match carry_out(planned) {
        Ok(tidied) => (0, tidied.leave()),
        Err(halt) => say_halt(halt, out),
    }
}

// Installs by a configuration on a volume, and gives the exit status and the disks.
fn install<'d, D: Disks, O: Sink>(
    alloc: Global,
    volume: Volume<'d, D>,
    config: Config,
    boot: Span,
    now: u32,
    out: &mut Shown<'_, O>,
) -> (u8, &'d mut D)
    requires whole { IsWhole (sizes_of volume) (past_of volume) }
    requires laid { Told (past_of volume) (IsLaid (volume_view volume)) }
    requires on_disk { boot.start < sizes_of volume boot.disk }
    requires device { is_some config.boot ≡ true }
    requires lawful { IsLawful (config_view config) }
    requires there { IfSome config.boot (λ device. OnDisks D.Disks volume.disks.now (λ image machine.
        LiesThere image machine (begun_of volume config device boot))) }
    ensures installs { IfSome config.boot (λ device. OnDisks D.Disks volume.entry.disks.now (λ image machine.
        Installs image machine (begun_of volume.entry config device boot) now (past_of volume.entry)
        (D.past result.1.now) result.0 (sink_of O.Sink out.old) (sink_of O.Sink out.new))) }
    ensures phase { IfSome config.boot (λ device. OnDisks D.Disks volume.entry.disks.now (λ image machine.
        IsQuiet (past_of volume.entry) → FailsBy D.Disks result.0
        (IsStagedFrom machine (begun_of volume.entry config device boot) (past_of volume.entry)) (span_view boot)
        volume.entry.disks.now result.1.now)) }
    ensures cause { IsDiskFault result.0 → Rose (faults_of volume.entry) (D.faults result.1.now) }
    ensures statuses { IsTrue (is_install_status result.0) }
    ensures goes_on { GoesOn D.Disks volume.entry.disks.now result.1.now }
    ensures same_reference { result.1.ghost_name ≡ volume.entry.disks.ghost_name }
    ensures sink { HasFailed (sink_of O.Sink out.old) (sink_of O.Sink out.new) }
    ensures same_sink { out.new.out.ghost_name ≡ out.old.out.ghost_name }
{
    match prepare(alloc, volume, config, boot, now) {
        Ok((planned, clear)) => {
            let report = Report {
                skipped: planned.skipped(),
                clear,
                names: planned.names(),
                default_entry: planned.default_entry(),
            };
            report.show(out);
            finish(planned, out)
        }
        Err(halt) => say_halt(halt, out),
    }
}

/// Installs at a time, in seconds since 1970, by what was read, and gives the exit status: 0 where it is done; 3, 4 and
/// 5 for a refusal, after which what boots is as before; 8, 9 and 10 where a disk failed before the commit, in it and
/// after it; 13 where memory didn't suffice, which it does once the installation is planned and reported.
pub fn install_begun<D: Disks, O: Sink>(
    alloc: Global,
    disks: &mut D,
    begun: Begun,
    time: u32,
    out: &mut Shown<'_, O>,
) -> u8
    // Each sector has 512 bytes: so it is of disks that hold whole sectors, or that don't report what they hold.
    requires whole { IsWhole (D.size_of disks.old) (D.past disks.old) }
    requires room { HasRoom (D.size_of disks.old begun.volume.disk) begun.volume }
    requires boot { begun.boot.start < D.size_of disks.old begun.boot.disk }
    requires device { begun.config.boot ≡ Some begun.device }
    requires lawful { IsLawful (config_view begun.config) }
    requires there { OnDisks D.Disks disks.old (λ now machine.
        span_of now machine (device_view begun.device) ≡ Ok (span_view begun.boot)) }

    // What is answered, and what a stop at any moment leaves.
    ensures installs { OnDisks D.Disks disks.old (λ now machine. InstallsBegun now machine time (begun_view begun)
        (D.past disks.old) (D.past disks.new) result (sink_of O.Sink out.old) (sink_of O.Sink out.new)) }
    ensures statuses { IsTrue (is_install_status result) }
    ensures cause { IsDiskFault result → Rose (D.faults disks.old) (D.faults disks.new) }
    // The phase in which a disk failed, by the status.
    ensures phase { OnDisks D.Disks disks.old (λ now machine. IsQuiet (D.past disks.old) → FailsBy D.Disks result
        (IsStagedOn now machine (begun_view begun) (D.past disks.old)) (span_view begun.boot) disks.old disks.new) }

    // What stays.
    ensures goes_on { GoesOn D.Disks disks.old disks.new }
    ensures sink { HasFailed (sink_of O.Sink out.old) (sink_of O.Sink out.new) }
    ensures same_sink { out.new.out.ghost_name ≡ out.old.out.ghost_name }
{
    let Begun {
        volume: place,
        config,
        device: _,
        boot,
    } = begun;
    match Volume::attach(disks, place) {
        Ok(volume) => install(alloc, volume, config, boot, time, out).0,
        Err((disks, fault)) => say_zone(disks, fault, out),
    }
}
