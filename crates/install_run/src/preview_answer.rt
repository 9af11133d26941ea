// What an installation would do.
ghost use Rattle.std.specs.Prelude.{◌≡◌, ◌<◌, ◌≤◌, ℕ, true, is_some, IfOk, IfErr, IfSome, IsTrue};
ghost use Rattle.disk_trait.specs.Calls.{SameOf};
ghost use Rattle.disk_trait.specs.Past.{Told};
ghost use Rattle.lilo_model.specs.Faults.{Rose};
ghost use Rattle.lilo_model.specs.ConfLawful.{IsLawful};
ghost use Rattle.lilo_conf.specs.View.{config_view};
ghost use Rattle.minix_zones.specs.Volume.{volume_view, past_of, sizes_of, faults_of, SameVolume};
ghost use Rattle.sector_address.specs.Machine.{OnDisks};
ghost use Rattle.stream_trait.specs.Shows.{HasFailed, sink_of};
ghost use Rattle.install_order.specs.Checks.{IsLaid};
ghost use Rattle.install_order.specs.Faults.{HasInstallCause};
ghost use Rattle.install_order.specs.View.{begun_of};
ghost use Rattle.install_run.specs.Previews.{
  preview_answer,
  GivesPreview,
  AnswersPreview,
  AnswersRefusal,
  is_preview_status,
  volume_left,
};

use crate::refusal::say_halt;
use crate::report::Report;
use disk_trait::{Disks, Phase, Span};
use install_order::{Halt, Planned, Surveyed};
use lilo_conf::Config;
use minix_zones::Volume;
use std::alloc::Global;
use stream_trait::{Shown, Sink};

// What is planned for a volume that is looked at, and whether the present map is Clear.
fn decide<'d, D: Disks>(
    alloc: Global,
    volume: Volume<'d, D>,
    config: Config,
    boot: Span,
    now: u32,
) -> Result<(Planned<'d, D>, Option<bool>), Halt<'d, D>>
    requires laid { Told (past_of volume) (IsLaid (volume_view volume)) }
    requires on_disk { boot.start < sizes_of volume boot.disk }
    requires device { is_some config.boot ≡ true }
    requires lawful { IsLawful (config_view config) }
    ensures gives { IfSome config.boot (λ device. OnDisks D.Disks volume.entry.disks.now (λ image machine.
        GivesPreview (preview_answer image machine (begun_of volume.entry config device boot) now) result)) }
    ensures cause { IfErr result (λ halt. HasInstallCause (faults_of volume.entry) (faults_of halt.volume) halt.fault) }
    ensures phase { IfErr result (λ halt. halt.phase ≡ Phase.Before) }
    ensures later { faults_of volume.entry ≤ faults_of (volume_left result) }
    ensures same { SameVolume volume.entry (volume_left result) }
{
    let surveyed = Surveyed::look(alloc, volume, config, boot, now)?;
    let clear = surveyed.clear();
    let planned = surveyed.plan(alloc)?;
    Ok((planned, clear))
}

// Reports why it is refused.
fn refuse<'d, D: Disks, O: Sink>(halt: Halt<'d, D>, out: &mut Shown<'_, O>) -> (u8, &'d mut D)
    requires before { halt.phase ≡ Phase.Before }
    ensures refused { (before : ℕ) → HasInstallCause before (faults_of halt.entry.volume) halt.entry.fault
        → AnswersRefusal halt.entry.fault result.0 (sink_of O.Sink out.old) (sink_of O.Sink out.new) }
    ensures cause { (before : ℕ) → HasInstallCause before (faults_of halt.entry.volume) halt.entry.fault → result.0 ≡ 8
        → Rose before (faults_of halt.entry.volume) }
    ensures known { IsTrue (is_preview_status result.0) }
    ensures sink { HasFailed (sink_of O.Sink out.old) (sink_of O.Sink out.new) }
    ensures disks { result.1.now ≡ halt.entry.volume.disks.now }
    ensures same_reference { result.1.ghost_name ≡ halt.entry.volume.disks.ghost_name }
    ensures same_sink { out.new.out.ghost_name ≡ out.old.out.ghost_name }
{
    say_halt(halt, out)
}

/// Reports what an installation by a configuration would do, and whether the present map is Clear, or why it is
/// refused, and gives the exit status and the disks. The boot device lies in the span, as the caller found it. The time
/// is in seconds since 1970. Nothing is written.
pub fn preview<'d, D: Disks, O: Sink>(
    alloc: Global,
    volume: Volume<'d, D>,
    config: Config,
    boot: Span,
    now: u32,
    out: &mut Shown<'_, O>,
) -> (u8, &'d mut D)
    requires laid { Told (past_of volume) (IsLaid (volume_view volume)) }
    requires on_disk { boot.start < sizes_of volume boot.disk }
    requires device { is_some config.boot ≡ true }
    requires lawful { IsLawful (config_view config) }
    ensures answers { IfSome config.boot (λ device. OnDisks D.Disks volume.entry.disks.now (λ image machine.
        AnswersPreview (preview_answer image machine (begun_of volume.entry config device boot) now) result.0
        (sink_of O.Sink out.old) (sink_of O.Sink out.new))) }
    ensures cause { result.0 ≡ 8 → Rose (faults_of volume.entry) (D.faults result.1.now) }
    ensures later { faults_of volume.entry ≤ D.faults result.1.now }
    ensures statuses { IsTrue (is_preview_status result.0) }
    ensures same { SameOf D.Disks volume.entry.disks.now result.1.now }
    ensures same_reference { result.1.ghost_name ≡ volume.entry.disks.ghost_name }
    ensures sink { HasFailed (sink_of O.Sink out.old) (sink_of O.Sink out.new) }
    ensures same_sink { out.new.out.ghost_name ≡ out.old.out.ghost_name }
{
    match decide(alloc, volume, config, boot, now) {
        Ok((planned, clear)) => {
            let report = Report {
                skipped: planned.skipped(),
                clear,
                names: planned.names(),
                default_entry: planned.default_entry(),
            };
            report.show_test(out);
            (0, planned.leave())
        }
        Err(halt) => refuse(halt, out),
    }
}
