// Slots of runs, made one after the other.
ghost use Rattle.std.specs.Prelude.{◌≡◌, ◌+◌, ◌^◌, ◌<◌, ◌≤◌, All, List, IsSome, IfOk, IfSome, drop};
ghost use Rattle.std.specs.Option.{option_map};
ghost use Rattle.lilo_model.specs.Checks.{seen};
ghost use Rattle.lilo_model.specs.Disks as disks;
ghost use Rattle.lilo_model.specs.Plan.{filled_places};
ghost use Rattle.sector_address.specs.View.{geometry_view, mode_view, slot_view, address_fault_view};
ghost use Rattle.slot_lists.specs.Made.{place_view, IsWritable};
ghost use Rattle.slot_lists.specs.Runs.{IsRun, places_in};
ghost use Rattle.slot_lists.specs.Cursor.{left_of, first_place, first_slot, grown, next_slot, SameKind};

use crate::runs::{Run, RunList, count_of, sector_in};
use crate::slots::{DiskSector, could_be_one};
use disk_trait::Geometry;
use sector_address::{AddressFault, Mode, Slot};

/// The slots of runs, made when they are asked for: one for each sector, or joined as far as one slot can name its
/// neighbours.
#[derive(Drop)]
pub struct SlotCursor {
    mode: Mode,
    geometry: Geometry,
    compact: bool,
    run: usize,
    offset: u32,
}

impl SlotCursor {
    /// A cursor before the first slot.
    pub fn new(mode: Mode, geometry: Geometry, compact: bool) -> SlotCursor
        ensures mode { result.mode ≡ mode }
        ensures geometry { result.geometry ≡ geometry }
        ensures compact { result.compact ≡ compact }
        ensures left { (runs : List _) (zero : disks.DiskSector)
            → left_of result runs zero ≡ filled_places zero (places_in runs) }
    {
        SlotCursor {
            mode,
            geometry,
            compact,
            run: 0,
            offset: 0,
        }
    }

    /// The next slot; `None` past the last one, and after a refusal. The first sector that no slot can name is
    /// refused.
    pub fn next(
        &mut self,
        runs: &RunList,
        zero_disk: u8,
        zero: u64,
    ) -> Result<Option<Slot>, AddressFault>
        requires runs { All IsRun runs.now }
        requires zero { zero_disk ≤ 3 }
        ensures answer { seen (option_map slot_view) address_fault_view result
            ≡ (next_slot self.old (left_of self.old runs.now (record { disk = zero_disk; sector = zero }))).answer }
        ensures left { left_of self.new runs.now (record { disk = zero_disk; sector = zero })
            ≡ (next_slot self.old (left_of self.old runs.now (record { disk = zero_disk; sector = zero }))).left }
        ensures writable { IfOk result (λ found. IfSome found IsWritable) }
        ensures same { SameKind self.old self.new }
    {
        self.next_in(
            runs.items(),
            DiskSector {
                disk: zero_disk,
                sector: zero,
            },
        )
    }

    /// Goes past the next sectors, so many, or all that are left, and makes no slots. It takes as many steps as runs
    /// are passed.
    pub fn skip(&mut self, runs: &RunList, count: u64)
        ensures left { (zero : disks.DiskSector)
            → left_of self.new runs.now zero ≡ drop count (left_of self.old runs.now zero) }
        ensures same { SameKind self.old self.new }
    {
        self.skip_in(runs.items(), count);
    }

    // The same of some runs.
    fn skip_in(&mut self, runs: &[Run], count: u64)
        ensures left { (zero : disks.DiskSector)
            → left_of self.new runs.now zero ≡ drop count (left_of self.old runs.now zero) }
        ensures same { SameKind self.old self.new }
    {
        let mut left = count;
        while self.run < runs.len() {
            let size = count_of(&runs[self.run]);
            if self.offset >= size {
                self.offset -= size;
                self.run += 1;
                continue;
            }
            let rest = size - self.offset;
            if left < u64::from(rest) {
                self.offset += left as u32;
                return;
            }
            left -= u64::from(rest);
            self.offset = 0;
            self.run += 1;
        }
    }

    // The next slot of some runs.
    fn next_in(&mut self, runs: &[Run], zero: DiskSector) -> Result<Option<Slot>, AddressFault>
        requires runs { All IsRun runs.now }
        requires zero { zero.disk ≤ 3 }
        ensures answer { seen (option_map slot_view) address_fault_view result
            ≡ (next_slot self.old (left_of self.old runs.now (place_view zero))).answer }
        ensures left { left_of self.new runs.now (place_view zero)
            ≡ (next_slot self.old (left_of self.old runs.now (place_view zero))).left }
        ensures writable { IfOk result (λ found. IfSome found IsWritable) }
        ensures same { SameKind self.old self.new }
    {
        let place = match self.place(runs, zero) {
            Some(place) => place,
            None => return Ok(None),
        };
        match Slot::make(self.mode, self.geometry, place.disk, place.sector, 1) {
            Ok(slot) => {
                self.offset += 1;
                if self.compact {
                    Ok(Some(self.grow(slot, runs, zero)))
                } else {
                    Ok(Some(slot))
                }
            }
            Err(fault) => {
                self.run = runs.len();
                self.offset = 0;
                Err(fault)
            }
        }
    }

    // A slot, and as many of the next sectors as it can name.
    fn grow(&mut self, slot: Slot, runs: &[Run], zero: DiskSector) -> Slot
        requires runs { All IsRun runs.now }
        requires zero { zero.disk ≤ 3 }
        requires writable { IsWritable slot }
        ensures slot { slot_view result
            ≡ (grown (mode_view self.old.mode) (geometry_view self.old.geometry) (slot_view slot)
            (left_of self.old runs.now (place_view zero))).slot }
        ensures left { left_of self.new runs.now (place_view zero)
            ≡ (grown (mode_view self.old.mode) (geometry_view self.old.geometry) (slot_view slot)
            (left_of self.old runs.now (place_view zero))).left }
        ensures writable { IsWritable result }
        ensures same { SameKind self.old self.new }
    {
        let mut held = slot;
        loop {
            let next = match self.peek(runs, zero) {
                Some(next) => next,
                None => return held,
            };
            if !could_be_one(self.geometry, &held, &next) {
                return held;
            }
            held.count += next.count;
            self.offset += 1;
        }
    }

    // The slot of the next sector alone, where it has one.
    fn peek(&mut self, runs: &[Run], zero: DiskSector) -> Option<Slot>
        requires runs { All IsRun runs.now }
        requires zero { zero.disk ≤ 3 }
        ensures slot { option_map slot_view result
            ≡ first_slot (mode_view self.old.mode) (geometry_view self.old.geometry)
            (left_of self.old runs.now (place_view zero)) }
        ensures writable { IfSome result IsWritable }
        ensures left { left_of self.new runs.now (place_view zero) ≡ left_of self.old runs.now (place_view zero) }
        ensures room { IsSome result → self.new.offset + 1 < 2 ^ 32 }
        ensures same { SameKind self.old self.new }
    {
        let place = match self.place(runs, zero) {
            Some(place) => place,
            None => return None,
        };
        match Slot::make(self.mode, self.geometry, place.disk, place.sector, 1) {
            Ok(slot) => Some(slot),
            Err(_) => None,
        }
    }

    // The next sector, in whose run the cursor then is.
    fn place(&mut self, runs: &[Run], zero: DiskSector) -> Option<DiskSector>
        requires runs { All IsRun runs.now }
        requires zero { zero.disk ≤ 3 }
        ensures place { option_map place_view result ≡ first_place (left_of self.old runs.now (place_view zero)) }
        ensures disk { IfSome result (λ place. place.disk ≤ 3) }
        ensures left { left_of self.new runs.now (place_view zero) ≡ left_of self.old runs.now (place_view zero) }
        ensures room { IsSome result → self.new.offset + 1 < 2 ^ 32 }
        ensures same { SameKind self.old self.new }
    {
        while self.run < runs.len() {
            let run = &runs[self.run];
            if let Some(place) = sector_in(run, self.offset, zero) {
                return Some(place);
            }
            self.offset -= count_of(run);
            self.run += 1;
        }
        None
    }
}
