// Refusals.
ghost use Rattle.std.specs.Prelude.{◌≡◌, ℕ};
ghost use Rattle.minix_survey.specs.View.{HasSurveyCause};
ghost use Rattle.minix_choice.specs.View.{HasWriteCause};
ghost use Rattle.install_apart.specs.Apart.{HasApartCause};
ghost use Rattle.install_apart.specs.Faults.{HasNameCause};
ghost use Rattle.install_settle.specs.Found.{HasSettleCause};
ghost use Rattle.map_plan.specs.View.{HasPlanCause};
ghost use Rattle.present_map.specs.Old.{HasOldMapCause};
ghost use Rattle.install_order.specs.Faults.{
  HasInstallCause,
  survey_refusal,
  apart_refusal,
  name_refusal,
  settle_refusal,
  old_refusal,
  plan_refusal,
  write_refusal,
};

use conf_settings::Opt;
use conf_text::Text;
use install_apart::{ApartFault, NameFault};
use install_settle::SettleFault;
use map_plan::PlanFault;
use minix_choice::WriteFault;
use minix_survey::SurveyFault;
use minix_tree::TreeFault;
use minix_zones::ZoneFault;
use present_map::OldMapFault;

/// Why an installation is refused.
#[derive(Drop)]
pub enum InstallFault {
    /// The volume isn't sound.
    Survey(SurveyFault),
    /// What this option names isn't apart from what an installation writes.
    NotApart(Opt),
    /// The path of the map, as it is configured, or the place of the backup can't be followed, or what is there is no
    /// regular file.
    Path(Text, TreeFault),
    /// No map is planned.
    Plan(PlanFault),
    /// A file can't be made or renamed.
    Write(WriteFault),
    /// A disk failed.
    Device,
    /// Out of memory.
    Memory,
}

/// The refusal of a survey.
pub(crate) fn survey_refusal(fault: SurveyFault) -> InstallFault
    ensures is { result ≡ survey_refusal fault }
    ensures cause { (before now : ℕ) → HasSurveyCause before now fault → HasInstallCause before now result }
{
    match fault {
        SurveyFault::Tree(TreeFault::Zone(ZoneFault::Device)) => InstallFault::Device,
        SurveyFault::Memory => InstallFault::Memory,
        fault => InstallFault::Survey(fault),
    }
}

/// That of what isn't apart.
pub(crate) fn apart_refusal(fault: ApartFault) -> InstallFault
    ensures is { result ≡ apart_refusal fault }
    ensures cause { (before now : ℕ) → HasApartCause before now fault → HasInstallCause before now result }
{
    match fault {
        ApartFault::NotApart(option) => InstallFault::NotApart(option),
        ApartFault::Device => InstallFault::Device,
        ApartFault::Memory => InstallFault::Memory,
    }
}

/// That of a name.
pub(crate) fn name_refusal(fault: NameFault) -> InstallFault
    ensures is { result ≡ name_refusal fault }
    ensures cause { (before now : ℕ) → HasNameCause before now fault → HasInstallCause before now result }
{
    match fault {
        NameFault::Path(path, fault) => InstallFault::Path(path, fault),
        NameFault::Device => InstallFault::Device,
        NameFault::Memory => InstallFault::Memory,
    }
}

/// That of settling.
pub(crate) fn settle_refusal(fault: SettleFault) -> InstallFault
    ensures is { result ≡ settle_refusal fault }
    ensures cause { (before now : ℕ) → HasSettleCause before now fault → HasInstallCause before now result }
{
    match fault {
        SettleFault::Links => InstallFault::Write(WriteFault::Links),
        SettleFault::Device => InstallFault::Device,
    }
}

/// That of the present map.
pub(crate) fn old_refusal(fault: OldMapFault) -> InstallFault
    ensures is { result ≡ old_refusal fault }
    ensures cause { (before now : ℕ) → HasOldMapCause before now fault → HasInstallCause before now result }
{
    match fault {
        OldMapFault::Device => InstallFault::Device,
        OldMapFault::Memory => InstallFault::Memory,
    }
}

/// That of a writer of files.
pub(crate) fn write_refusal(fault: WriteFault) -> InstallFault
    ensures is { result ≡ write_refusal fault }
    ensures cause { (before now : ℕ) → HasWriteCause before now fault → HasInstallCause before now result }
{
    match fault {
        WriteFault::Device => InstallFault::Device,
        WriteFault::Memory => InstallFault::Memory,
        fault => InstallFault::Write(fault),
    }
}

/// That of a plan.
pub(crate) fn plan_refusal(fault: PlanFault) -> InstallFault
    ensures is { result ≡ plan_refusal fault }
    ensures cause { (before now : ℕ) → HasPlanCause before now fault → HasInstallCause before now result }
{
    match fault {
        PlanFault::Device => InstallFault::Device,
        PlanFault::Memory => InstallFault::Memory,
        fault => InstallFault::Plan(fault),
    }
}
