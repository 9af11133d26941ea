// How many slots runs take.
ghost use Rattle.std.specs.Prelude.{◌≡◌, ◌+◌, ◌^◌, ◌<◌, ◌≤◌, ◌∷◌, ◌++◌, All, Err, IfErr, IfSome, List, OnOk, Some};
ghost use Rattle.std.specs.Prelude.{length};
ghost use Rattle.lilo_model.specs.Checks.{seen};
ghost use Rattle.std.specs.Option.{option_map};
ghost use Rattle.sector_address.specs.View.{mode_view, geometry_view, slot_view, address_fault_view};
ghost use Rattle.slot_lists.specs.Made.{IsWritable};
ghost use Rattle.slot_lists.specs.Runs.{IsRun, run_count, run_places, stretch_places, places_in};
ghost use Rattle.run_sections.specs.Counted.{joined_slot, slots_counted, count_left};

use crate::section::Naming;
use sector_address::{AddressFault, Slot};
use slot_lists::{Run, RunList, could_be_one};

// The last slot, unless a hole came after it, and how many were begun.
#[derive(Drop)]
struct Counted {
    held: Option<Slot>,
    count: u32,
}

/// How many slots the section of runs takes before the zero sector has its place: each sector of a hole takes one that
/// is joined to none. The first sector that no slot can name is refused.
pub fn count_slots(naming: Naming, runs: &RunList) -> Result<u32, AddressFault>
    requires runs { All IsRun runs.now }
    requires room { length (places_in runs.now) < 2 ^ 32 }
    ensures { seen (λ count. count) address_fault_view result
        ≡ slots_counted (mode_view naming.mode) (geometry_view naming.geometry) naming.compact (places_in runs.now) }
{
    count_in(naming, runs.items())
}

// The same of some runs.
fn count_in(naming: Naming, runs: &[Run]) -> Result<u32, AddressFault>
    requires runs { All IsRun runs.now }
    requires room { length (places_in runs.now) < 2 ^ 32 }
    ensures { seen (λ count. count) address_fault_view result
        ≡ slots_counted (mode_view naming.mode) (geometry_view naming.geometry) naming.compact (places_in runs.now) }
{
    let mut counted = Counted {
        held: None,
        count: 0,
    };
    for run in runs {
        match add_run(naming, run, &mut counted) {
            Ok(()) => {}
            Err(fault) => return Err(fault),
        }
    }
    Ok(counted.count)
}

// Counts the slots of a run after those of others.
fn add_run(naming: Naming, run: &Run, counted: &mut Counted) -> Result<(), AddressFault>
    requires run { IsRun run.now }
    requires room { counted.old.count + run_count run.now < 2 ^ 32 }
    requires held { IfSome counted.old.held IsWritable }
    ensures counted { OnOk result ((rest : List _)
        → count_left naming counted.old (run_places run.now ++ rest) ≡ count_left naming counted.new rest) }
    ensures refused { IfErr result (λ fault. (rest : List _)
        → count_left naming counted.old (run_places run.now ++ rest) ≡ Err (address_fault_view fault)) }
    ensures held { IfSome counted.new.held IsWritable }
    ensures room { counted.new.count ≤ counted.old.count + run_count run.now }
{
    match *run {
        Run::Stretch { disk, start, count } => add_stretch(naming, disk, start, count, counted),
        Run::Hole { count } => {
            if count > 0 {
                counted.held = None;
                counted.count += count;
            }
            Ok(())
        }
    }
}

// The same of sectors of a disk.
fn add_stretch(
    naming: Naming,
    disk: u8,
    start: u64,
    count: u32,
    counted: &mut Counted,
) -> Result<(), AddressFault>
    requires disk { disk ≤ 3 }
    requires sectors { start + count ≤ 2 ^ 64 }
    requires room { counted.old.count + count < 2 ^ 32 }
    requires held { IfSome counted.old.held IsWritable }
    ensures counted { OnOk result ((rest : List _)
        → count_left naming counted.old (stretch_places disk start count ++ rest)
        ≡ count_left naming counted.new rest) }
    ensures refused { IfErr result (λ fault. (rest : List _)
        → count_left naming counted.old (stretch_places disk start count ++ rest) ≡ Err (address_fault_view fault)) }
    ensures held { IfSome counted.new.held IsWritable }
    ensures room { counted.new.count ≤ counted.old.count + count }
{
    for offset in 0..count {
        match add_sector(naming, disk, start + u64::from(offset), counted) {
            Ok(()) => {}
            Err(fault) => return Err(fault),
        }
    }
    Ok(())
}

// The same of a sector.
fn add_sector(
    naming: Naming,
    disk: u8,
    sector: u64,
    counted: &mut Counted,
) -> Result<(), AddressFault>
    requires disk { disk ≤ 3 }
    requires room { counted.old.count + 1 < 2 ^ 32 }
    requires held { IfSome counted.old.held IsWritable }
    ensures counted { OnOk result ((rest : List _)
        → count_left naming counted.old (Some (record { disk = disk; sector = sector }) ∷ rest)
        ≡ count_left naming counted.new rest) }
    ensures refused { IfErr result (λ fault. (rest : List _)
        → count_left naming counted.old (Some (record { disk = disk; sector = sector }) ∷ rest)
        ≡ Err (address_fault_view fault)) }
    ensures held { IfSome counted.new.held IsWritable }
    ensures room { counted.new.count ≤ counted.old.count + 1 }
{
    let next = Slot::make(naming.mode, naming.geometry, disk, sector, 1)?;
    match joined_slot(naming, counted.held, next) {
        Some(both) => counted.held = Some(both),
        None => {
            counted.held = Some(next);
            counted.count += 1;
        }
    }
    Ok(())
}

// The slot of one that is held and the next, where one slot could name both.
fn joined_slot(naming: Naming, held: Option<Slot>, next: Slot) -> Option<Slot>
    requires held { IfSome held IsWritable }
    requires next { IsWritable next }
    ensures joined { option_map slot_view result
        ≡ joined_slot (geometry_view naming.geometry) naming.compact (option_map slot_view held) (slot_view next) }
    ensures writable { IfSome result IsWritable }
{
    match held {
        Some(slot) => both_slots(naming, slot, next),
        None => None,
    }
}

/// The slot of two, where slots are to be joined and one could name both; the geometry is that of the first's disk.
pub fn both_slots(naming: Naming, slot: Slot, next: Slot) -> Option<Slot>
    requires slot { IsWritable slot }
    requires next { IsWritable next }
    ensures joined { option_map slot_view result
        ≡ joined_slot (geometry_view naming.geometry) naming.compact (Some (slot_view slot)) (slot_view next) }
    ensures writable { IfSome result IsWritable }
{
    if !naming.compact || !could_be_one(naming.geometry, &slot, &next) {
        return None;
    }
    let mut both = slot;
    both.count += next.count;
    Some(both)
}
