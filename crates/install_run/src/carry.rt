// What is planned is carried out.
ghost use Rattle.std.specs.Prelude.{◌≡◌, IfErr};
ghost use Rattle.disk_trait.specs.Calls.{GoesOn};
ghost use Rattle.disk_trait.specs.Moments.{IsTold};
ghost use Rattle.minix_zones.specs.Volume.{past_of, faults_of};
ghost use Rattle.install_order.specs.Faults.{HasInstallCause};
ghost use Rattle.install_run.specs.Steps.{Carries, IsReadyToStage, volume_after};

use disk_trait::Disks;
use install_order::{Halt, InstallFault, Planned, Tidied};

/// Stages the files of a plan, commits the boot sector and tidies. No memory is taken.
pub(crate) fn carry_out<'d, D: Disks>(planned: Planned<'d, D>) -> Result<Tidied<'d, D>, Halt<'d, D>>
    requires { IsReadyToStage planned }
    ensures carries { Carries planned.entry result }
    ensures device { IsTold (past_of planned.entry.volume) → IfErr result (λ halt. halt.fault ≡ InstallFault.Device) }
    ensures cause { IfErr result (λ halt.
        HasInstallCause (faults_of planned.entry.volume) (faults_of halt.volume) halt.fault) }
    ensures goes_on { GoesOn D.Disks planned.entry.volume.disks.now (volume_after result).disks.now }
    ensures same_reference { (volume_after result).disks.ghost_name ≡ planned.entry.volume.disks.ghost_name }
{
    let staged = planned.stage()?;
    let committed = staged.commit()?;
    committed.tidy()
}
