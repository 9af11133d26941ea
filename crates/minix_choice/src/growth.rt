// The zones by which a directory grows.
ghost use Rattle.std.specs.Prelude.{◌≡◌, ◌+◌, ◌-◌, ◌≤◌, ◌<◌, ◌==◌, if◌then◌else◌, slice_index, IfOk, IfErr, length};
ghost use Rattle.disk_trait.specs.Past.{Told};
ghost use Rattle.lilo_model.specs.MinixLayout.{numbers_in_zone, reach};
ghost use Rattle.lilo_model.specs.MinixParts.{parts_of, trail_of};
ghost use Rattle.lilo_model.specs.MinixEntries.{entries_per_block};
ghost use Rattle.minix_layout.specs.View.{kind_view, super_view, inode_view};
ghost use Rattle.minix_zones.specs.View.{Gives, HasZoneCause, IsInside};
ghost use Rattle.minix_zones.specs.Volume.{volume_view, past_of, faults_of, SameVolume};
ghost use Rattle.write_model.specs.Growth.{one_if, way_along, missing_on_way, first_beside, is_growth_of};
ghost use Rattle.write_model.specs.Growth.{promised_zone, promised_zones, count_fresh, completed};
ghost use Rattle.minix_choice.specs.Growth.{way_view};

use crate::taken::{Promise, Taken};
use disk_trait::Disks;
use minix_layout::{FsKind, Inode};
use minix_tree::entries_per_block;
use minix_zones::{Volume, ZoneFault, blocks_under, inside, number_below, numbers_in_zone, way_to};
use std::alloc::{AllocError, Global};

/// The number at the end of a way through indirect zones, and how many on it are 0.
#[derive(Clone, Copy)]
struct Way {
    zone: u32,
    missing: u32,
}

/// A number that was found, with how many before it are 0.
fn way_on(zone: u32, missing: u32) -> Way
    requires { missing ≤ 3 }
    ensures zone { result.zone ≡ zone }
    ensures missing { result.missing ≡ missing + one_if (zone == 0) }
{
    Way {
        zone,
        missing: missing + u32::from(zone == 0),
    }
}

/// The way through this many levels of indirect zones below a number, to a block that is counted from the first one
/// found by it.
#[tactic(auto, unfolding(write_model::specs::Growth::way_along), using(crate::proofs::GrowthLemmas::way_along_below))]
fn way_along<D: Disks>(
    volume: &mut Volume<'_, D>,
    zone: u32,
    depth: u32,
    index: u32,
) -> Result<Way, ZoneFault>
    requires { depth ≤ 3 }
    ensures way { Told (past_of volume.old) (λ now. Gives way_view result
        (way_along (super_view volume.old.layout) (parts_of (volume_view volume.old) now).zone zone
        (trail_of (numbers_in_zone (kind_view volume.old.layout.kind)) depth index))) }
    ensures inside { IfOk result (λ way. IsInside volume.old.layout way.zone) }
    ensures few { IfOk result (λ way. way.missing ≤ depth + 1) }
    ensures cause { IfErr result (HasZoneCause (faults_of volume.old) (faults_of volume.new)) }
    ensures later { faults_of volume.old ≤ faults_of volume.new }
    ensures same { SameVolume volume.old volume.new }
{
    if depth == 0 {
        let number = inside(volume.layout(), zone)?;
        return Ok(way_on(number, 0));
    }
    let per = numbers_in_zone(volume.layout().kind);
    let above = way_along(volume, zone, depth - 1, index / per)?;
    let number = number_below(volume, above.zone, index % per)?;
    Ok(way_on(number, above.missing))
}

/// How many zones are missing on the way to a block, that of the block included.
#[tactic(auto, unfolding(write_model::specs::Growth::missing_on_way))]
pub(crate) fn missing_on_way<D: Disks>(
    volume: &mut Volume<'_, D>,
    node: &Inode,
    block: u32,
) -> Result<u32, ZoneFault>
    ensures missing { Told (past_of volume.old) (λ now. Gives (λ missing. missing) result
        (missing_on_way (super_view volume.old.layout) (parts_of (volume_view volume.old) now)
        (inode_view node.now) block)) }
    ensures few { IfOk result (λ missing. missing ≤ 4) }
    ensures cause { IfErr result (HasZoneCause (faults_of volume.old) (faults_of volume.new)) }
    ensures later { faults_of volume.old ≤ faults_of volume.new }
    ensures same { SameVolume volume.old volume.new }
{
    let to = way_to(volume.layout().kind, block);
    let way = way_along(volume, node.zones[to.top], to.depth, to.index)?;
    Ok(way.missing)
}

/// The first block that is found through the zone so many levels above a block.
fn first_beside(kind: FsKind, block: u32, level: u32) -> u32
    requires { level ≤ 3 }
    ensures { result ≡ first_beside (numbers_in_zone (kind_view kind)) block level }
{
    block - way_to(kind, block).index % blocks_under(kind, level)
}

/// The zone so many levels above a block of a directory, where a promise has it.
pub(crate) fn growth_zone(
    kind: FsKind,
    directory: u32,
    block: u32,
    level: u32,
    promise: &Promise,
) -> Option<u32>
    requires { level ≤ 3 }
    ensures { result ≡ (if is_growth_of (kind_view kind) directory block level promise.now
        then Some (slice_index promise.now.growth level) else None) }
{
    let growth = promise.growth();
    let there = promise.place() / u32::from(entries_per_block(kind));
    if promise.directory() == directory
        && (level as usize) < growth.len()
        && first_beside(kind, there, level) == first_beside(kind, block, level)
    {
        Some(growth[level as usize])
    } else {
        None
    }
}

/// The zones of the lowest levels above a block of a directory, as many as are missing, where they were promised.
pub(crate) fn promised_zones(
    alloc: Global,
    taken: &Taken,
    kind: FsKind,
    directory: u32,
    block: u32,
    missing: u32,
) -> Result<Vec<Option<u32>>, AllocError>
    requires { missing ≤ 4 }
    ensures { IfOk result (λ zones. zones.items
        ≡ promised_zones (kind_view kind) taken.now.promises directory block missing) }
{
    let mut zones = Vec::new(alloc);
    for level in 0..missing {
        zones.push(taken.promised_zone(kind, directory, block, level))?;
    }
    Ok(zones)
}

/// How many weren't promised.
pub(crate) fn count_fresh(promised: &[Option<u32>]) -> usize
    ensures value { result ≡ count_fresh promised.now }
    ensures few { result ≤ length promised.now }
{
    promised.iter().filter(|zone| zone.is_none()).count()
}

/// Gives zones to those that weren't promised, in order.
pub(crate) fn completed(
    alloc: Global,
    promised: &[Option<u32>],
    zones: &[u32],
) -> Result<Vec<u32>, AllocError>
    ensures { IfOk result (λ growth. growth.items ≡ completed promised.now zones.now) }
{
    let mut growth = Vec::new(alloc);
    let mut next = 0;
    for promise in promised {
        let zone = match promise {
            Some(zone) => *zone,
            None => {
                next += 1;
                zones.get(next - 1).copied().unwrap_or(0)
            }
        };
        growth.push(zone)?;
    }
    Ok(growth)
}
