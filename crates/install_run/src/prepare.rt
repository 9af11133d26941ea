// An installation begins and is planned.
ghost use Rattle.std.specs.Prelude.{◌≡◌, ◌≢◌, ◌<◌, true, is_some, IfOk, IfErr, IfSome};
ghost use Rattle.disk_trait.specs.Calls.{GoesOn};
ghost use Rattle.disk_trait.specs.Moments.{IsQuiet};
ghost use Rattle.disk_trait.specs.Past.{Told};
ghost use Rattle.lilo_model.specs.ConfLawful.{IsLawful};
ghost use Rattle.lilo_conf.specs.View.{config_view};
ghost use Rattle.minix_zones.specs.Volume.{volume_view, past_of, sizes_of, faults_of};
ghost use Rattle.sector_address.specs.Machine.{OnDisks};
ghost use Rattle.install_order.specs.Begins.{HasNothingLeft, LiesThere};
ghost use Rattle.install_order.specs.Checks.{IsLaid, StaysRefused};
ghost use Rattle.install_order.specs.Faults.{HasInstallCause};
ghost use Rattle.install_order.specs.View.{begun_of};
ghost use Rattle.install_run.specs.Previews.{volume_left};
ghost use Rattle.install_run.specs.Answers.{GivesInstall};
ghost use Rattle.install_run.specs.Steps.{GainsUnlessLost, IsPrepared, IsReadyToStage, StaysBegun};

use disk_trait::{Disks, Phase, Span};
use install_order::{Halt, InstallFault, Planned, Surveyed};
use lilo_conf::Config;
use minix_zones::Volume;
use std::alloc::Global;

/// What is planned, once names are settled, and whether the map that was there is Clear.
pub(crate) fn prepare<'d, D: Disks>(
    alloc: Global,
    volume: Volume<'d, D>,
    config: Config,
    boot: Span,
    now: u32,
) -> Result<(Planned<'d, D>, Option<bool>), Halt<'d, D>>
    requires laid { Told (past_of volume) (IsLaid (volume_view volume)) }
    requires on_disk { boot.start < sizes_of volume boot.disk }
    requires device { is_some config.boot ≡ true }
    requires lawful { IsLawful (config_view config) }
    requires there { IfSome config.boot (λ device. OnDisks D.Disks volume.disks.now (λ image machine.
        LiesThere image machine (begun_of volume config device boot))) }
    ensures gives { IfSome config.boot (λ device. OnDisks D.Disks volume.entry.disks.now (λ image machine.
        GivesInstall image machine (begun_of volume.entry config device boot) now result)) }
    ensures unbegun { IfSome config.boot (λ device. OnDisks D.Disks volume.entry.disks.now (λ image machine.
        StaysRefused image machine (begun_of volume.entry config device boot) (past_of volume.entry)
        (past_of (volume_left result)))) }
    ensures nothing { IfSome config.boot (λ device. OnDisks D.Disks volume.entry.disks.now (λ image _.
        HasNothingLeft image (begun_of volume.entry config device boot)
        → past_of (volume_left result) ≡ past_of volume.entry)) }
    ensures prepared { IfOk result (λ made. IsPrepared volume.entry config boot now made.0) }
    ensures ready { IfOk result (λ made. IsReadyToStage made.0) }
    ensures stays { IfSome config.boot (λ device. StaysBegun volume.entry (begun_of volume.entry config device boot)
        (volume_left result)) }
    ensures quiet { IsQuiet (past_of volume.entry) → IfErr result (λ halt. halt.fault ≢ InstallFault.Device
        → IsQuiet (past_of halt.volume)) }
    ensures gains { IfErr result (GainsUnlessLost volume.entry) }
    ensures cause { IfErr result (λ halt. HasInstallCause (faults_of volume.entry) (faults_of halt.volume) halt.fault) }
    ensures phase { IfErr result (λ halt. halt.phase ≡ Phase.Before) }
    ensures goes_on { GoesOn D.Disks volume.entry.disks.now (volume_left result).disks.now }
    ensures same_reference { (volume_left result).disks.ghost_name ≡ volume.entry.disks.ghost_name }
{
    let surveyed = Surveyed::begin(alloc, volume, config, boot, now)?;
    let clear = surveyed.clear();
    let planned = surveyed.plan(alloc)?;
    Ok((planned, clear))
}
