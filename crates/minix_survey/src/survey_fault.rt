// Refusals.
use minix_tree::TreeFault;
use minix_zones::ZoneFault;
use std::alloc::AllocError;

/// The first thing that is wrong with a volume.
#[derive(Debug, Drop, PartialEq, Eq)]
pub enum SurveyFault {
    /// A zone is referred to twice: by the inode that was reached first, and by the other one.
    Crossed(u32, u32, u32),
    /// A zone that is referred to isn't marked.
    Unmarked(u32),
    /// An inode that is named isn't marked.
    UnmarkedInode(u32),
    /// An entry of this directory at this place, counted from 0 over all places, names an inode that isn't there or
    /// has no mode; or names the root or a directory that has a name elsewhere; or has the name of an earlier one; or
    /// is a wrong `.` or `..`. Where one of these two is missing, the place is the number of places.
    BadLink(u32, u32),
    /// An inode has fewer links than names.
    FewLinks(u32),
    /// A directory is nested below more than 64 others.
    TooDeep,
    /// `NotDirectory(0)` where the root is no directory; `Zone` where a zone's number or an inode's size is refused, or
    /// the disk failed.
    Tree(TreeFault),
    /// There is no memory for the survey.
    Memory,
}

impl From<AllocError> for SurveyFault {
    ghost use Rattle.std.specs.Prelude.{◌≡◌};
    ghost use Rattle.minix_survey.specs.declared.survey_fault.SurveyFault.{SurveyFault};

    ghost from_gives = { λ _ fault. fault ≡ SurveyFault.Memory };

    fn from(_: AllocError) -> SurveyFault {
        SurveyFault::Memory
    }
}

impl From<TreeFault> for SurveyFault {
    ghost use Rattle.std.specs.Prelude.{◌≡◌};
    ghost use Rattle.minix_survey.specs.declared.survey_fault.SurveyFault.{SurveyFault};

    ghost from_gives = { λ given fault. fault ≡ SurveyFault.Tree given };

    fn from(fault: TreeFault) -> SurveyFault {
        SurveyFault::Tree(fault)
    }
}

impl From<ZoneFault> for SurveyFault {
    ghost use Rattle.std.specs.Prelude.{◌≡◌};
    ghost use Rattle.minix_survey.specs.declared.survey_fault.SurveyFault.{SurveyFault};
    ghost use Rattle.minix_tree.specs.declared.tree_fault.TreeFault.TheVariants as trees;

    ghost from_gives = { λ given fault. fault ≡ SurveyFault.Tree (trees.Zone given) };

    fn from(fault: ZoneFault) -> SurveyFault {
        SurveyFault::Tree(TreeFault::Zone(fault))
    }
}
