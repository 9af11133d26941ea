// Refusals.
ghost use Rattle.std.specs.Prelude.{◌≡◌};
ghost use Rattle.minix_reclaim.specs.Reclaim.{reclaim_fault};

use disk_trait::Disks;
use minix_survey::SurveyFault;
use minix_tree::TreeFault;
use minix_zones::{Volume, ZoneFault};

/// Why nothing is freed, or not all.
#[derive(Debug, Drop, PartialEq, Eq)]
pub enum ReclaimFault {
    /// The volume isn't sound: the first thing that is wrong with it.
    Survey(SurveyFault),
    /// The disk failed.
    Device,
    /// There is no memory for the survey.
    Memory,
}

/// A volume that is handed back, and why.
#[derive(Drop)]
pub struct ReclaimHalt<'d, D: Disks> {
    pub volume: Volume<'d, D>,
    pub fault: ReclaimFault,
}

impl From<ZoneFault> for ReclaimFault {
    ghost use Rattle.std.specs.Prelude.{◌≡◌};
    ghost use Rattle.minix_reclaim.specs.declared.fault.ReclaimFault.{ReclaimFault};

    ghost from_gives = { λ _ fault. fault ≡ ReclaimFault.Device };

    fn from(_: ZoneFault) -> ReclaimFault {
        ReclaimFault::Device
    }
}

/// How a refusal of a survey is reported.
pub(crate) fn reclaim_fault(fault: SurveyFault) -> ReclaimFault
    ensures { result ≡ reclaim_fault fault }
{
    match fault {
        SurveyFault::Memory => ReclaimFault::Memory,
        SurveyFault::Tree(TreeFault::Zone(ZoneFault::Device)) => ReclaimFault::Device,
        _ => ReclaimFault::Survey(fault),
    }
}
