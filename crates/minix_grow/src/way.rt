// The way to a block of a directory.
ghost use Rattle.std.specs.Prelude.{◌≡◌, ◌≢◌, ◌+◌, ◌≤◌, ◌<◌, IfOk, IfErr};
ghost use Rattle.disk_trait.specs.Moments.{IsTold};
ghost use Rattle.lilo_model.specs.MinixLayout.{numbers_in_zone, reach};
ghost use Rattle.lilo_model.specs.MinixWalk.{branch_of};
ghost use Rattle.minix_grow.specs.Grow.{IsLowest, IsRefusedOnWay, ReachesDownNow};
ghost use Rattle.minix_grow.specs.Way.{depth_of, index_above};
ghost use Rattle.minix_layout.specs.View.{kind_view, inode_view};
ghost use Rattle.minix_turns.specs.Inode.{tops};
ghost use Rattle.minix_zones.specs.View.{HasZoneCause};
ghost use Rattle.minix_zones.specs.Volume.{past_of, faults_of, SameVolume};

use disk_trait::Disks;
use minix_layout::{FsKind, Inode};
use minix_zones::{Volume, ZoneFault, inside, number_below, numbers_in_zone};

/// The blocks that one of an inode's ten numbers leads to: the first of them, and the levels of indirect zones before
/// them.
#[derive(Clone, Copy)]
pub(crate) struct Branch {
    pub(crate) top: usize,
    pub(crate) first: u32,
    pub(crate) depth: u32,
}

/// The branch of a block.
#[tactic(auto, unfolding(lilo_model::specs::MinixWalk::branch_of))]
pub(crate) fn branch_of(kind: FsKind, block: u32) -> Branch
    ensures branch { branch_of (numbers_in_zone (kind_view kind)) block
        ≡ record { top = result.top; first = result.first; depth = result.depth } }
    ensures begins { result.first ≤ block }
    ensures ten { result.top < 10 }
    ensures reached { block < reach (kind_view kind) → result.top < tops (kind_view kind) }
    ensures deep { result.depth ≤ 3 }
{
    let per = numbers_in_zone(kind);
    let (top, first, depth) = if block < 7 {
        (block as usize, block, 0)
    } else if block < 7 + per {
        (7, 7, 1)
    } else if block < 7 + per + per * per {
        (8, 7 + per, 2)
    } else {
        (9, 7 + per + per * per, 3)
    };
    Branch { top, first, depth }
}

/// At which index of the indirect zone above it the number of a level is.
#[tactic(auto, using(minix_zones::proofs::PowerLemmas::power_some, minix_zones::proofs::PowerLemmas::power_few))]
pub(crate) fn index_above(kind: FsKind, block: u32, level: u32) -> u32
    requires { level ≤ 3 }
    ensures is { result ≡ index_above (kind_view kind) block level }
    ensures low { result < numbers_in_zone (kind_view kind) }
{
    let per = numbers_in_zone(kind);
    let branch = branch_of(kind, block);
    (block - branch.first) / per.pow(level) % per
}

/// The lowest zone that is there on the way to a block, so many levels above the block; past the highest level, and 0,
/// where none is.
#[derive(Clone, Copy)]
pub(crate) struct Lowest {
    pub(crate) level: u32,
    pub(crate) zone: u32,
}

/// The lowest zone that is there on the way of an inode to a block.
///
/// # Errors
///
/// `ZoneOutside` with the first number on the way that is neither 0 nor a data zone's, or `Device`.
pub(crate) fn lowest_on_way<D: Disks>(
    volume: &mut Volume<'_, D>,
    node: &Inode,
    block: u32,
) -> Result<Lowest, ZoneFault>
    ensures way { IsTold (past_of volume.old) → IfOk result (λ lowest. ReachesDownNow volume.old
        (inode_view node.now) block lowest.level lowest.zone) }
    ensures lowest { IfOk result (λ lowest. IsLowest volume.old.layout block lowest.level lowest.zone) }
    ensures refused { IsTold (past_of volume.old)
        → IfErr result (IsRefusedOnWay volume.old (inode_view node.now) block) }
    ensures cause { IfErr result (HasZoneCause (faults_of volume.old) (faults_of volume.new)) }
    ensures later { faults_of volume.old ≤ faults_of volume.new }
    ensures same { SameVolume volume.old volume.new }
{
    let kind = volume.layout().kind;
    let branch = branch_of(kind, block);
    let mut level = branch.depth;
    let mut above = 0;
    let mut number = inside(volume.layout(), node.zones[branch.top])?;
    while level > 0 && number != 0 {
        level -= 1;
        above = number;
        number = number_below(volume, above, index_above(kind, block, level))?;
    }
    Ok(lowest_of(level, above, number))
}

/// The lower of two numbers on a way that is there, the second being at this level.
fn lowest_of(level: u32, above: u32, number: u32) -> Lowest
    requires { level ≤ 3 }
    ensures hole { number ≡ 0 → (result.level ≡ level + 1) × (result.zone ≡ above) }
    ensures there { number ≢ 0 → (result.level ≡ level) × (result.zone ≡ number) }
{
    if number == 0 {
        Lowest {
            level: level + 1,
            zone: above,
        }
    } else {
        Lowest {
            level,
            zone: number,
        }
    }
}
