// Section sectors of runs.
ghost use Rattle.std.specs.Prelude.{◌≡◌, ◌*◌, ◌≤◌, All, List, IfSome, Ok, map, take, drop};
ghost use Rattle.lilo_model.specs.Slots as slots;
ghost use Rattle.lilo_model.specs.Section.{section_bytes};
ghost use Rattle.lilo_model.specs.Plan.{filled_places};
ghost use Rattle.sector_address.specs.View.{mode_view, geometry_view, slot_view};
ghost use Rattle.map_section.specs.View.{lent_view};
ghost use Rattle.slot_lists.specs.Made.{place_view, IsWritable};
ghost use Rattle.slot_lists.specs.Runs.{IsRun, places_in};
ghost use Rattle.run_sections.specs.Made.{slots_made, slots_left, IsNext};

use arrayvec::ArrayVec;
use disk_trait::Geometry;
use map_section::write_section;
use sector_address::{Mode, Slot};
use sector_parts::Sector;
use slot_lists::{DiskSector, RunList, SlotCursor};

/// How the slots of a map name sectors: in which mode, on disks of which geometry, and whether one slot names as many
/// neighbours as it can.
#[derive(Clone, Copy, Debug, PartialEq, Eq)]
pub struct Naming {
    pub mode: Mode,
    pub geometry: Geometry,
    pub compact: bool,
}

/// Fills the section sector with an index of the section that lists the sectors of runs, where each has a slot; `zero`
/// is the zero sector, that of holes, and `link` leads to the next section sector, if there is one.
pub fn write_section_at(
    naming: Naming,
    runs: &RunList,
    zero: DiskSector,
    index: u32,
    link: Option<&Slot>,
    into: &mut Sector,
)
    requires runs { All IsRun runs.now }
    requires zero { zero.disk ≤ 3 }
    requires link { IfSome link (λ link. IsWritable link.now) }
    ensures { (slots : List slots.Slot)
        → slots_made (mode_view naming.mode) (geometry_view naming.geometry) naming.compact
        (filled_places (place_view zero) (places_in runs.now)) ≡ Ok slots
        → into.new ≡ section_bytes (take 63 (drop (63 * index) slots)) (lent_view link.entry) }
{
    let mut cursor = SlotCursor::new(naming.mode, naming.geometry, naming.compact);
    let before = 63 * u64::from(index);
    pass(naming.compact, &mut cursor, runs, zero, before);
    let slots = next_slots(&mut cursor, runs, zero);
    write_section(slots.as_slice(), link, into);
}

// The next slot, where there is one.
fn next_in(cursor: &mut SlotCursor, runs: &RunList, zero: DiskSector) -> Option<Slot>
    requires runs { All IsRun runs.now }
    requires zero { zero.disk ≤ 3 }
    ensures next { (slots : List slots.Slot) → slots_left cursor.old runs.now (place_view zero) ≡ Ok slots
        → IsNext result slots (slots_left cursor.new runs.now (place_view zero)) }
    ensures writable { IfSome result IsWritable }
{
    match cursor.next(runs, zero.disk, zero.sector) {
        Ok(found) => found,
        Err(_) => None,
    }
}

// Goes past so many slots that aren't needed: past as many sectors, where each has a slot of its own.
fn pass(compact: bool, cursor: &mut SlotCursor, runs: &RunList, zero: DiskSector, count: u64)
    requires runs { All IsRun runs.now }
    requires zero { zero.disk ≤ 3 }
    requires compact { cursor.old.compact ≡ compact }
    ensures { (slots : List slots.Slot) → slots_left cursor.old runs.now (place_view zero) ≡ Ok slots
        → slots_left cursor.new runs.now (place_view zero) ≡ Ok (drop count slots) }
{
    if compact {
        pass_slots(cursor, runs, zero, count);
    } else {
        cursor.skip(runs, count);
    }
}

// Makes so many slots that aren't needed.
fn pass_slots(cursor: &mut SlotCursor, runs: &RunList, zero: DiskSector, count: u64)
    requires runs { All IsRun runs.now }
    requires zero { zero.disk ≤ 3 }
    ensures { (slots : List slots.Slot) → slots_left cursor.old runs.now (place_view zero) ≡ Ok slots
        → slots_left cursor.new runs.now (place_view zero) ≡ Ok (drop count slots) }
{
    let mut passed = 0;
    while passed < count {
        match next_in(cursor, runs, zero) {
            Some(_) => passed += 1,
            None => return,
        }
    }
}

// The next slots, as many as a section sector has.
fn next_slots(cursor: &mut SlotCursor, runs: &RunList, zero: DiskSector) -> ArrayVec<Slot, 63>
    requires runs { All IsRun runs.now }
    requires zero { zero.disk ≤ 3 }
    ensures slots { (slots : List slots.Slot) → slots_left cursor.old runs.now (place_view zero) ≡ Ok slots
        → map slot_view result.items ≡ take 63 slots }
    ensures writable { All IsWritable result.items }
{
    let mut slots = ArrayVec::new();
    while slots.len() < 63 {
        match next_in(cursor, runs, zero) {
            Some(slot) => slots.push(slot),
            None => return slots,
        }
    }
    slots
}
