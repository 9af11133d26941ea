// What the definitions of moments say: laws, which no code needs to call.
ghost use Rattle.disk_trait.specs.Past.{Image};
ghost use Rattle.disk_trait.specs.Laws.{MayHoldLaw, LastMomentLaw, NowAndBegunLaw, QuietLaw, JoiningLaw, LeavesOnlyLaw};
ghost use Rattle.disk_trait.specs.Laws.{RunsJoinLaw, WeakerLaw, EndOfRunLaw, WholeLaw, UntoldLaw, LeftImagesLaw};
ghost use Rattle.disk_trait.specs.Laws.{NotWrittenLaw, NotWrittenByOneLaw, NotWrittenByRangeLaw, NotWrittenJoinsLaw};
ghost use Rattle.disk_trait.specs.Laws.{NotWrittenStaysLaw};

use std::marker::Brand;

/// A fact about what disks hold, for the laws that speak of any such fact.
pub trait Claim {
    /// An image has it.
    ghost holds: { Image → Type 0 };
}

impl Claim for Brand {
    ghost holds = { λ _. Unit {0} };
}

/// A sector may hold its bytes at the last flush or those of one write since, and nothing else.
pub fn may_hold()
    ensures { MayHoldLaw }
{}

/// A stop at this moment is one after all events.
pub fn last_moment()
    ensures { LastMomentLaw }
{}

/// What the disks hold now, and what they held at the last flush, may be left.
pub fn now_and_begun()
    ensures { NowAndBegunLaw }
{}

/// After a flush, and at the start, a stop leaves only what the disks hold now.
pub fn quiet()
    ensures { QuietLaw }
{}

/// From a quiet moment on, what a stop leaves depends on what was held there and the events since alone.
pub fn joining()
    ensures { JoiningLaw }
{}

/// `LeavesOnly` says that at every moment of a run each image that a stop leaves has the fact.
pub fn leaves_only<C: Claim>()
    ensures { LeavesOnlyLaw C.holds }
{}

/// Two runs in a row, each of which leaves only what has the fact, are one.
pub fn runs_join<C: Claim>()
    ensures { RunsJoinLaw C.holds }
{}

/// A run that leaves only what has one fact leaves only what has a weaker one.
pub fn weaker<C: Claim, W: Claim>()
    ensures { WeakerLaw C.holds W.holds }
{}

/// After a run that leaves only what has the fact, a stop leaves only what has it.
pub fn end_of_run<C: Claim>()
    ensures { EndOfRunLaw C.holds }
{}

/// Where each sector had 512 bytes at the start, and so has each that was written, a stop leaves no other.
pub fn whole()
    ensures { WholeLaw }
{}

/// Where no past is known, nothing is said of how long a sector is.
pub fn untold()
    ensures { UntoldLaw }
{}

/// The images that a stop may leave are those that come of a choice for each write since the last flush.
pub fn left_images()
    ensures { LeftImagesLaw }
{}

/// A run doesn't write a sector exactly where each of its events is a flush or writes another one; what a stop
/// left there stays as it was.
pub fn not_written()
    ensures exact { NotWrittenLaw }
    ensures by_one { NotWrittenByOneLaw }
    ensures by_range { NotWrittenByRangeLaw }
    ensures joins { NotWrittenJoinsLaw }
    ensures stays { NotWrittenStaysLaw }
{}
