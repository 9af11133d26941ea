// The numbers in a file's inode and in its indirect zones.
ghost use Rattle.std.specs.Prelude.{◌≡◌, ◌≤◌, ◌<◌, ◌^◌, slice_index};
ghost use Rattle.lilo_model.specs.Bytes.{with_part};
ghost use Rattle.lilo_model.specs.MinixLayout.{numbers_in_zone, number_size};
ghost use Rattle.minix_layout.specs.View.{kind_view, inode_view};
ghost use Rattle.minix_change_laws.specs.Part.{number_bytes, offset_of_number};
ghost use Rattle.minix_choice_laws.specs.Sources.{zone_from, below_source};
ghost use Rattle.minix_fill.specs.Numbers.{zones_view, AreNumbers, HasNumbers, tops_of};

use minix_layout::{FsKind, Inode};
use sector_parts::FieldMut;

/// The zones of a file, as they were chosen.
#[derive(Clone, Copy)]
pub struct FileZones<'z> {
    /// For each block its zone, 0 for a hole.
    pub blocks: &'z [u32],
    /// For each indirect zone, in the order of a walk, its zone, 0 where it isn't made.
    pub indirect: &'z [u32],
}

// The numbers in an indirect zone.
fn numbers_in_zone(kind: FsKind) -> usize
    ensures value { result ≡ numbers_in_zone (kind_view kind) }
    ensures some { 0 < result }
    ensures few { result ≤ 512 }
{
    if kind.is_v1() { 512 } else { 256 }
}

// One of some numbers, 0 past the last.
fn number_at(numbers: &[u32], at: usize) -> u32
    ensures { result ≡ slice_index numbers.now at }
{
    numbers.get(at).copied().unwrap_or(0)
}

// The number at an index of the indirect zone at a place, where an indirect zone has so many.
#[tactic(auto, unfolding(minix_choice_laws::specs::Sources::below_source), using(crate::proofs::NumberLemmas::product_few))]
fn number_below(per: usize, zones: &FileZones<'_>, place: usize, index: usize) -> u32
    requires few { per ≤ 512 }
    requires place { place < 2 ^ 32 }
    requires index { index < per }
    ensures { result ≡ zone_from (zones_view zones.now) (below_source per place index) }
{
    if place == 0 {
        return number_at(zones.blocks, 7 + index);
    }
    if place == 1 {
        return number_at(zones.indirect, 2 + index);
    }
    if place < 2 + per {
        return number_at(zones.blocks, 7 + per + (place - 2) * per + index);
    }
    if place == 2 + per {
        return number_at(zones.indirect, 3 + per + index * (1 + per));
    }
    let behind = place - (3 + per);
    let outer = behind / (1 + per);
    let inner = behind % (1 + per);
    if inner == 0 {
        return number_at(zones.indirect, 4 + per + outer * (1 + per) + index);
    }
    let row = outer * per + (inner - 1);
    number_at(zones.blocks, 7 + per + per * per + row * per + index)
}

// Writes a number into the bytes of an indirect zone.
fn put_number(kind: FsKind, index: usize, number: u32, into: &mut [u8; 1024])
    requires index { index < numbers_in_zone (kind_view kind) }
    requires small { number < 256 ^ number_size (kind_view kind) }
    ensures { into.new ≡ with_part into.old (offset_of_number (kind_view kind) index)
        (number_bytes (kind_view kind) number) }
{
    let mut field = FieldMut { bytes: into };
    if kind.is_v1() {
        field.put_u16(2 * index, number as u16);
    } else {
        field.put_u32(4 * index, number);
    }
}

/// Writes the numbers of the indirect zone at a place.
pub(crate) fn put_numbers(kind: FsKind, zones: &FileZones<'_>, place: usize, into: &mut [u8; 1024])
    requires place { place < 2 ^ 32 }
    requires small { AreNumbers (kind_view kind) (zones_view zones.now) }
    ensures { HasNumbers (kind_view kind) (zones_view zones.now) place into.new }
{
    let per = numbers_in_zone(kind);
    for index in 0..per {
        let number = number_below(per, zones, place, index);
        put_number(kind, index, number, into);
    }
}

/// An inode with the numbers of a file's zones.
pub(crate) fn with_zones(inode: &Inode, kind: FsKind, zones: &FileZones<'_>) -> Inode
    ensures { inode_view result
        ≡ record (inode_view inode.now) { zones = tops_of (kind_view kind) (zones_view zones.now) } }
{
    let Inode {
        mode,
        links,
        uid,
        gid,
        size,
        times,
        zones: _,
    } = *inode;
    let blocks = zones.blocks;
    let indirect = zones.indirect;
    Inode {
        mode,
        links,
        uid,
        gid,
        size,
        times,
        zones: [
            number_at(blocks, 0),
            number_at(blocks, 1),
            number_at(blocks, 2),
            number_at(blocks, 3),
            number_at(blocks, 4),
            number_at(blocks, 5),
            number_at(blocks, 6),
            number_at(indirect, 0),
            number_at(indirect, 1),
            number_at(indirect, 2 + numbers_in_zone(kind)),
        ],
    }
}
