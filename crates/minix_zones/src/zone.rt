// The zone at an index of a file.
ghost use Rattle.std.specs.Prelude.{◌≡◌, ◌+◌, ◌*◌, ◌-◌, ◌^◌, ◌<◌, ◌≤◌, ℕ, replicate, slice_index, IfOk, IfErr, OnErr};
ghost use Rattle.disk_trait.specs.Past.{Told};
ghost use Rattle.lilo_model.specs.MinixLayout.{numbers_in_zone, reach};
ghost use Rattle.lilo_model.specs.MinixParts.{parts_of, number_in, number_below, follow_at, trail_of, inside};
ghost use Rattle.lilo_model.specs.MinixParts.{pointer_with, block_pointer, zone_at, block_at};
ghost use Rattle.lilo_model.specs.MinixWalk.{branch_of, begins};
ghost use Rattle.minix_layout.specs.View.{kind_view, super_view, inode_view};
ghost use Rattle.minix_zones.specs.View.{Gives, HasZoneCause, zone_number, IsZoneAt, IsInside};
ghost use Rattle.minix_layout.specs.declared.superblock.Super.{Super as SuperOf};
ghost use Rattle.minix_zones.specs.Volume.{volume_view, past_of, faults_of, SameVolume};

use crate::volume::Volume;
use crate::zone_fault::ZoneFault;
use disk_trait::Disks;
use minix_layout::{FsKind, Inode, Super};
use sector_parts::FieldRef;

/// What is at an index of a file.
#[derive(Clone, Copy, Debug, PartialEq, Eq)]
pub enum ZoneAt {
    /// No zone: the bytes are zeros.
    Hole,
    Zone(u32),
}

/// How many zones an inode can name.
pub fn reach(kind: FsKind) -> u32
    ensures { result ≡ reach (kind_view kind) }
{
    let per = numbers_in_zone(kind);
    if kind.is_v1() {
        7 + per + per * per
    } else {
        7 + per + per * per + per * per * per
    }
}

/// The numbers in an indirect zone.
pub fn numbers_in_zone(kind: FsKind) -> u32
    ensures { result ≡ numbers_in_zone (kind_view kind) }
{
    if kind.is_v1() { 512 } else { 256 }
}

/// The number at an index of an indirect zone's bytes.
#[tactic(auto, unfolding(lilo_model::specs::MinixParts::number_in))]
pub fn number_in(kind: FsKind, bytes: &[u8; 1024], index: u32) -> u32
    requires { index < numbers_in_zone (kind_view kind) }
    ensures { result ≡ number_in (kind_view kind) bytes.now index }
{
    let numbers = FieldRef { bytes };
    let index = index as usize;
    if kind.is_v1() {
        u32::from(numbers.u16_at(2 * index))
    } else {
        numbers.u32_at(4 * index)
    }
}

/// How many numbers are 0 in a row, from an index of an indirect zone's bytes on.
#[tactic(auto, using(crate::proofs::ZoneLemmas::zeros_more))]
pub(crate) fn zeros_from(kind: FsKind, bytes: &[u8; 1024], index: u32) -> u32
    requires { index < numbers_in_zone (kind_view kind) }
    ensures zeros { (k : ℕ) → k < result → number_in (kind_view kind) bytes.now (index + k) ≡ 0 }
    ensures within { index + result ≤ numbers_in_zone (kind_view kind) }
{
    let end = numbers_in_zone(kind);
    let mut at = index;
    while at < end && number_in(kind, bytes, at) == 0 {
        at += 1;
    }
    at - index
}

/// A number that may be followed: 0, or that of a data zone.
#[tactic(auto, unfolding(lilo_model::specs::MinixParts::inside))]
pub fn inside(layout: &Super, zone: u32) -> Result<u32, ZoneFault>
    ensures found { Gives (λ found. found) result (inside (super_view layout.now) zone) }
    ensures inside { IfOk result (IsInside layout.now) }
    ensures refused { IfErr result (λ fault. fault ≡ ZoneFault.ZoneOutside zone) }
{
    if zone == 0 || (layout.first <= zone && zone < layout.zones) {
        Ok(zone)
    } else {
        Err(ZoneFault::ZoneOutside(zone))
    }
}

/// The number at an index of an indirect zone, 0 where that zone is a hole.
#[tactic(auto, unfolding(lilo_model::specs::MinixParts::inside))]
pub fn number_below<D: Disks>(
    volume: &mut Volume<'_, D>,
    zone: u32,
    index: u32,
) -> Result<u32, ZoneFault>
    requires zone { IsInside volume.old.layout zone }
    requires index { index < numbers_in_zone (kind_view volume.old.layout.kind) }
    ensures number { Told (past_of volume.old) (λ now. Gives (λ found. found) result
        (inside (super_view volume.old.layout) (number_below (kind_view volume.old.layout.kind)
        (parts_of (volume_view volume.old) now).zone zone index))) }
    ensures inside { IfOk result (IsInside volume.old.layout) }
    ensures cause { IfErr result (HasZoneCause (faults_of volume.old) (faults_of volume.new)) }
    ensures later { faults_of volume.old ≤ faults_of volume.new }
    ensures same { SameVolume volume.old volume.new }
{
    if zone == 0 {
        return Ok(0);
    }
    let mut bytes = [0; 1024];
    volume.read_zone(zone, &mut bytes)?;
    let number = number_in(volume.layout().kind, &bytes, index);
    inside(volume.layout(), number)
}

/// The number that is this many levels of indirect zones below another one, on the way to a block that is
/// counted from the first one found by it.
#[tactic(auto, unfolding(lilo_model::specs::MinixParts::follow_at), using(crate::proofs::ZoneLemmas::follow_at_below))]
fn follow<D: Disks>(
    volume: &mut Volume<'_, D>,
    zone: u32,
    depth: u32,
    index: u32,
) -> Result<u32, ZoneFault>
    ensures number { Told (past_of volume.old) (λ now. Gives (λ found. found) result
        (follow_at (super_view volume.old.layout) (parts_of (volume_view volume.old) now).zone zone
        (trail_of (numbers_in_zone (kind_view volume.old.layout.kind)) depth index))) }
    ensures itself { depth ≡ 0 → Gives (λ found. found) result (inside (super_view volume.old.layout) zone) }
    ensures outside { depth ≡ 0 → IfErr result (λ fault. fault ≡ ZoneFault.ZoneOutside zone) }
    ensures inside { IfOk result (IsInside volume.old.layout) }
    ensures cause { IfErr result (HasZoneCause (faults_of volume.old) (faults_of volume.new)) }
    ensures later { faults_of volume.old ≤ faults_of volume.new }
    ensures same { SameVolume volume.old volume.new }
{
    if depth == 0 {
        return inside(volume.layout(), zone);
    }
    let per = numbers_in_zone(volume.layout().kind);
    let above = follow(volume, zone, depth - 1, index / per)?;
    number_below(volume, above, index % per)
}

/// Where the way to a block begins: at one of an inode's ten numbers. It leads through `depth` levels of
/// indirect zones, to a block that is counted from the first one found by that number.
#[derive(Clone, Copy)]
pub struct Way {
    pub top: usize,
    pub depth: u32,
    pub index: u32,
}

/// The way to the block with an index.
#[tactic(auto, unfolding(lilo_model::specs::MinixParts::pointer_by, lilo_model::specs::MinixWalk::branch_of))]
pub fn way_to(kind: FsKind, index: u32) -> Way
    ensures branch { branch_of (numbers_in_zone (kind_view kind)) index
        ≡ record { top = result.top; first = index - result.index; depth = result.depth } }
    ensures within { result.index ≤ index }
    ensures way { pointer_with (numbers_in_zone (kind_view kind)) result.top result.depth result.index
        ≡ block_pointer (kind_view kind) index }
    ensures ten { result.top < 10 }
    ensures deep { result.depth ≤ 3 }
    ensures direct { index < 7 → (result.depth ≡ 0) × (result.top ≡ index) }
{
    let per = numbers_in_zone(kind);
    let (top, depth, first) = if index < 7 {
        (index as usize, 0, index)
    } else if index < 7 + per {
        (7, 1, 7)
    } else if index < 7 + per + per * per {
        (8, 2, 7 + per)
    } else {
        (9, 3, 7 + per + per * per)
    };
    Way {
        top,
        depth,
        index: index - first,
    }
}

/// What is at an index of a file, counted in blocks of 1024 bytes from 0.
///
/// # Errors
///
/// `ZoneOutside` with the first number on the way that is neither 0 nor a data zone's, or `Device`.
#[tactic(auto, unfolding(lilo_model::specs::MinixParts::zone_at))]
pub fn zone_at<D: Disks>(
    volume: &mut Volume<'_, D>,
    inode: &Inode,
    index: u32,
) -> Result<ZoneAt, ZoneFault>
    requires { index < reach (kind_view volume.old.layout.kind) }

    // What is answered.
    ensures zone { Told (past_of volume.old) (λ now. Gives zone_number result
        (zone_at (super_view volume.old.layout) (parts_of (volume_view volume.old) now)
        (inode_view inode.now) index)) }
    ensures data { IfOk result (IsZoneAt volume.old.layout) }

    // A number of the inode's own is judged without reading.
    ensures direct { index < 7 → Gives zone_number result
        (inside (super_view volume.old.layout) (slice_index inode.now.zones index)) }
    ensures outside { index < 7 →
        IfErr result (λ fault. fault ≡ ZoneFault.ZoneOutside (slice_index inode.now.zones index)) }

    // When it is refused.
    ensures cause { IfErr result (HasZoneCause (faults_of volume.old) (faults_of volume.new)) }
    ensures later { faults_of volume.old ≤ faults_of volume.new }
    ensures same { SameVolume volume.old volume.new }
{
    let way = way_to(volume.layout().kind, index);
    let zone = follow(volume, inode.zones[way.top], way.depth, way.index)?;
    Ok(zone_or_hole(zone))
}

/// What a number that may be followed stands for.
pub(crate) fn zone_or_hole(zone: u32) -> ZoneAt
    ensures number { zone_number result ≡ zone }
    ensures data { (layout : SuperOf) → IsInside layout zone → IsZoneAt layout result }
{
    match zone {
        0 => ZoneAt::Hole,
        _ => ZoneAt::Zone(zone),
    }
}

/// The bytes of the block with an index: those of its zone, or zeros for a hole. A refusal leaves `into` as it
/// was.
///
/// # Errors
///
/// As `zone_at`.
#[tactic(auto, unfolding(lilo_model::specs::MinixParts::block_at))]
pub fn read_at<D: Disks>(
    volume: &mut Volume<'_, D>,
    inode: &Inode,
    index: u32,
    into: &mut [u8; 1024],
) -> Result<(), ZoneFault>
    requires { index < reach (kind_view volume.old.layout.kind) }

    // What is read.
    ensures bytes { Told (past_of volume.old) (λ now. Gives (λ _. into.new) result
        (block_at (super_view volume.old.layout) (parts_of (volume_view volume.old) now)
        (inode_view inode.now) index)) }
    ensures refused { OnErr result (into.new ≡ into.old) }

    // When it is refused.
    ensures cause { IfErr result (HasZoneCause (faults_of volume.old) (faults_of volume.new)) }
    ensures later { faults_of volume.old ≤ faults_of volume.new }
    ensures same { SameVolume volume.old volume.new }
{
    match zone_at(volume, inode, index)? {
        ZoneAt::Hole => {
            put_hole(into);
            Ok(())
        }
        ZoneAt::Zone(zone) => volume.read_zone(zone, into),
    }
}

/// Writes the bytes of a hole.
pub(crate) fn put_hole(into: &mut [u8; 1024])
    ensures { into.new ≡ replicate 1024 0 }
{
    *into = [0; 1024];
}

/// The blocks that are found through a number this many levels above them.
#[tactic(auto, using(crate::proofs::PowerLemmas::power_some, crate::proofs::PowerLemmas::power_few))]
pub fn blocks_under(kind: FsKind, level: u32) -> u32
    requires { level ≤ 3 }
    ensures power { result ≡ numbers_in_zone (kind_view kind) ^ level }
    ensures some { 0 < result }
    ensures few { result ≤ 134217728 }
{
    numbers_in_zone(kind).pow(level)
}

/// Whether a block is the first that is found through a number this many levels above it.
#[tactic(auto, unfolding(lilo_model::specs::MinixWalk::begins), using(crate::proofs::BranchLemmas::begins_itself))]
pub(crate) fn begins(kind: FsKind, index: u32, level: u32) -> bool
    requires { level ≤ 3 }
    ensures { result ≡ begins (numbers_in_zone (kind_view kind)) index level }
{
    if level == 0 {
        return true;
    }
    let way = way_to(kind, index);
    level <= way.depth && way.index % blocks_under(kind, level) == 0
}
