// Disks in memory.
ghost use Rattle.std.specs.Prelude.{◌≡◌, ◌↔◌, ◌⊎◌, ◌<◌, ◌≤◌, ◌==◌, find, [], ℕ, length, map, unwrap_or, IfOk, IsSome};
ghost use Rattle.std.specs.Prelude.{OnOk, OnErr, IsErr, IsErrOf, IsTrue, All, slice_get};
ghost use Rattle.std.specs.Option.{option_map_or};
ghost use Rattle.disk_trait.specs.Absent.{absent_geometry};
ghost use Rattle.disk_trait.specs.declared.event.Event.TheVariants.{Write, Flush};
ghost use Rattle.disk_trait.specs.Cause.{HasCause, HasFlushCause};
ghost use Rattle.disk_trait.specs.MemDisks.{MemState, IsHeld, HasWholeSectors, WritesWholeSector, zero_disk};
ghost use Rattle.disk_trait.specs.MemDisks.{zero_sector, sizes_of, geometries_of, image_of, past_of, now_in, past_in};
ghost use Rattle.disk_trait.specs.MemDisks.{IsInRange, fresh_state, zero_state, planned, IsFull, counted, with_event};
ghost use Rattle.disk_trait.specs.MemDisks.{after_read, after_write, after_flush};
ghost use Rattle.disk_trait.specs.Count.{risen};
ghost use Rattle.disk_trait.specs.Past.{Image, Leaves, Told, appended, with_sector, now_after, first_events};
ghost use Rattle.disk_trait.specs.Left.{unflushed_count, left_image};

use crate::held_disk::HeldDisk;
use crate::left::{copy_disks, count_unflushed, make_left};
use crate::{DiskFault, Disks, Event, Failing, Geometry, MemDisk};
use sector_parts::Sector;
use std::alloc::{AllocError, Global};
use std::collections::VecDeque;
use std::marker::Model;

/// Up to four disks in memory, which report their past. Of their calls those that a list names fail.
#[derive(Drop)]
pub struct MemDisks {
    start: Vec<HeldDisk>,
    // The newest first.
    events: VecDeque<Event>,
    room: u32,
    failing: Vec<Failing>,
    calls: u64,
    faults: u64,
}

impl Model for MemDisks {
    ghost Value = { MemState };

    ghost view = { λ m. record {
      start = m.start.items;
      events = m.events.items;
      room = m.room;
      failing = m.failing.items;
      calls = m.calls;
      faults = m.faults;
    } };

    ghost invariant = { λ m. IsHeld m.start.items m.events m.room };
}

impl MemDisks {
    /// Disks of zero bytes, with room for `room` events, whose calls in `failing` fail.
    pub fn new(
        alloc: Global,
        disks: &[MemDisk],
        room: u32,
        failing: &[Failing],
    ) -> Result<MemDisks, AllocError>
        requires { length disks.now ≤ 4 }
        ensures state { IfOk result (λ made. made ≡ zero_state disks.now room failing.now) }

        // In terms of the trait: zero bytes everywhere, and what was asked for.
        ensures zeros { IfOk result (λ made. (disk sector : ℕ)
            → image_of made.start disk sector ≡ zero_sector) }
        ensures size { IfOk result (λ made. (disk : ℕ)
            → sizes_of made.start disk
            ≡ option_map_or (λ asked. asked.sectors) (slice_get disks.now disk) 0) }
        ensures count { IfOk result (λ made. length made.start ≡ length disks.now) }
        ensures geometry { IfOk result (λ made. (disk : ℕ)
            → geometries_of made.start disk
            ≡ option_map_or (λ asked. asked.geometry) (slice_get disks.now disk) absent_geometry) }
    {
        let start = zero_disks(alloc, disks)?;
        MemDisks::fresh(alloc, start, room, failing)
    }

    // Disks with no event yet.
    fn fresh(
        alloc: Global,
        start: Vec<HeldDisk>,
        room: u32,
        failing: &[Failing],
    ) -> Result<MemDisks, AllocError>
        requires few { length start.items ≤ 4 }
        requires whole { HasWholeSectors (image_of start.items) }
        ensures { IfOk result (λ made. made ≡ fresh_state start.items room failing.now) }
    {
        Ok(MemDisks {
            start,
            events: VecDeque::with_capacity(alloc, room as usize)?,
            room,
            failing: Vec::from_slice(alloc, failing)?,
            calls: 0,
            faults: 0,
        })
    }

    /// Changes the bytes that a sector has at first.
    pub fn set(&mut self, disk: u8, sector: u32, bytes: &Sector)
        requires no_events { self.old.events ≡ [] }
        requires in_range { sector < sizes_of self.old.start disk }
        ensures start { image_of self.new.start
            ≡ with_sector (image_of self.old.start) disk sector bytes.now }
        ensures others { self.new ≡ record self.old { start = self.new.start } }
        ensures size { sizes_of self.new.start ≡ sizes_of self.old.start }
        ensures count { length self.new.start ≡ length self.old.start }
        ensures geometry { geometries_of self.new.start ≡ geometries_of self.old.start }
    {
        self.start[usize::from(disk)].set(u64::from(sector), bytes);
    }

    /// How many events there were since the disks were made.
    pub fn events(&self) -> u32
        ensures count { result ≡ length self.now.events }

        // Whatever was done, each sector has 512 bytes, and so has what was written.
        ensures now_whole { HasWholeSectors (now_in self.now) }
        ensures start_whole { HasWholeSectors (image_of self.now.start) }
        ensures events_whole { All WritesWholeSector self.now.events }

        // No event writes to a sector that isn't there.
        ensures events_in_range { All (IsInRange (sizes_of self.now.start)) self.now.events }
    {
        self.events.len() as u32
    }

    /// How many of the first `prefix` events come after their last flush.
    pub fn unflushed(&self, prefix: u32) -> u32
        requires { prefix ≤ length self.now.events }
        ensures { result ≡ unflushed_count (first_events prefix self.now.events) }
    {
        count_unflushed(&self.events, prefix as usize) as u32
    }

    /// Disks that begin with what a stop leaves: the first `prefix` events were made, but of the writes after
    /// their last flush only those that `keep` says, counted in the order in which they were made.
    pub fn left(
        &self,
        alloc: Global,
        prefix: u32,
        keep: &[bool],
        room: u32,
        failing: &[Failing],
    ) -> Result<MemDisks, AllocError>
        requires within { prefix ≤ length self.now.events }
        requires each { length keep.now ≡ unflushed_count (first_events prefix self.now.events) }

        // At every number of a disk and sector: one that isn't there has zeros in both images.
        ensures image { IfOk result (λ made. image_of made.start
            ≡ left_image (past_in self.now) prefix keep.now) }
        ensures leaves { IfOk result (λ made. Leaves (past_in self.now) prefix (image_of made.start)) }

        // All else is new, and the disks are as many, as long and divided as before.
        ensures fresh { IfOk result (λ made. made ≡ fresh_state made.start room failing.now) }
        ensures size { IfOk result (λ made. sizes_of made.start ≡ sizes_of self.now.start) }
        ensures count { IfOk result (λ made. length made.start ≡ length self.now.start) }
        ensures geometry { IfOk result (λ made.
            geometries_of made.start ≡ geometries_of self.now.start) }
    {
        let mut start = copy_disks(alloc, &self.start)?;
        make_left(&mut start, &self.events, prefix as usize, keep);
        MemDisks::fresh(alloc, start, room, failing)
    }

    // The bytes that a sector has now.
    fn sector(&self, disk: u8, sector: u64) -> Sector
        requires { sector < sizes_of self.now.start disk }
        ensures { result ≡ now_in self.now disk sector }
    {
        match last_write(&self.events, disk, sector) {
            Some(bytes) => bytes,
            None => *self.start[usize::from(disk)].sector(sector),
        }
    }

    // Counts a call, and says whether it is to fail.
    fn count_call(&mut self) -> Option<Failing>
        ensures answer { result ≡ planned self.old }
        ensures counted { self.new ≡ counted self.old }
    {
        let answer = failing_at(&self.failing, self.calls);
        self.calls = self.calls.saturating_add(1);
        answer
    }

    // Counts a failure.
    fn failure(&mut self) -> DiskFault
        ensures answer { result ≡ DiskFault.Failed }
        ensures counted { self.new ≡ record self.old { faults = risen self.old.faults } }
    {
        self.faults = self.faults.saturating_add(1);
        DiskFault::Failed
    }

    fn is_full(&self) -> bool
        ensures { IsTrue result ↔ IsFull self.now }
    {
        self.room as usize <= self.events.len()
    }

    fn add(&mut self, event: Event)
        requires room { length self.old.events < self.old.room }
        requires whole { WritesWholeSector event }
        requires in_range { IsInRange (sizes_of self.old.start) event }
        ensures { self.new ≡ with_event event self.old }
    {
        self.events.push_front_reserved(event);
    }
}

impl Disks for MemDisks {
    ghost past = { past_of };

    ghost faults = { λ disks. disks.faults };

    ghost size_of = { λ disks. sizes_of disks.start };

    ghost count_of = { λ disks. length disks.start };

    ghost geometry_of = { λ disks. geometries_of disks.start };

    fn read(&mut self, disk: u8, sector: u64, into: &mut Sector) -> Result<(), DiskFault>
        ensures cause { HasCause (sizes_of self.old.start disk) sector
            self.old.faults self.new.faults result }
        ensures bytes { OnOk result (Told (past_of self.old) (λ now. into.new ≡ now disk sector)) }
        ensures refused { OnErr result (into.new ≡ into.old) }
        ensures past { past_of self.new ≡ past_of self.old }
        ensures size { sizes_of self.new.start ≡ sizes_of self.old.start }
        ensures count { length self.new.start ≡ length self.old.start }
        ensures geometry { geometries_of self.new.start ≡ geometries_of self.old.start }

        // A call in range fails where the list says so.
        ensures failed { IsErrOf result DiskFault.Failed
            ↔ ((sector < sizes_of self.old.start disk) × IsSome (planned self.old)) }
        ensures state { self.new ≡ after_read self.old result }
    {
        if self.size(disk) <= sector {
            return Err(DiskFault::OutOfRange);
        }
        if self.count_call().is_some() {
            return Err(self.failure());
        }
        *into = self.sector(disk, sector);
        Ok(())
    }

    fn write(&mut self, disk: u8, sector: u64, from: &Sector) -> Result<(), DiskFault>
        ensures cause { HasCause (sizes_of self.old.start disk) sector
            self.old.faults self.new.faults result }
        ensures ok { OnOk result
            (past_of self.new ≡ appended (Write disk sector from.now) (past_of self.old)) }
        ensures event { (past_of self.new ≡ appended (Write disk sector from.now) (past_of self.old))
            ⊎ (past_of self.new ≡ past_of self.old) }
        ensures out_of_range { IsErrOf result DiskFault.OutOfRange → past_of self.new ≡ past_of self.old }
        ensures size { sizes_of self.new.start ≡ sizes_of self.old.start }
        ensures count { length self.new.start ≡ length self.old.start }
        ensures geometry { geometries_of self.new.start ≡ geometries_of self.old.start }

        // A call in range fails where the list says so, or where its room is used up.
        ensures failed { IsErrOf result DiskFault.Failed
            ↔ ((sector < sizes_of self.old.start disk)
            × (IsSome (planned self.old) ⊎ IsFull self.old)) }
        ensures state { self.new ≡ after_write self.old disk sector from.now result }
    {
        if self.size(disk) <= sector {
            return Err(DiskFault::OutOfRange);
        }
        let event = Event::Write(disk, sector, *from);
        match self.count_call() {
            _ if self.is_full() => Err(self.failure()),
            None => {
                self.add(event);
                Ok(())
            }
            Some(failing) => {
                if failing.made {
                    self.add(event);
                }
                Err(self.failure())
            }
        }
    }

    fn flush(&mut self) -> Result<(), DiskFault>
        ensures cause { HasFlushCause self.old.faults self.new.faults result }
        ensures ok { OnOk result (past_of self.new ≡ appended Flush (past_of self.old)) }
        ensures failed { OnErr result (past_of self.new ≡ past_of self.old) }
        ensures size { sizes_of self.new.start ≡ sizes_of self.old.start }
        ensures count { length self.new.start ≡ length self.old.start }
        ensures geometry { geometries_of self.new.start ≡ geometries_of self.old.start }

        // A call fails where the list says so, or where its room is used up.
        ensures fails { IsErr result ↔ (IsSome (planned self.old) ⊎ IsFull self.old) }
        ensures state { self.new ≡ after_flush self.old result }
    {
        if self.count_call().is_some() || self.is_full() {
            return Err(self.failure());
        }
        self.add(Event::Flush);
        Ok(())
    }

    fn count(&self) -> u8 {
        self.start.len() as u8
    }

    fn size(&self, disk: u8) -> u64 {
        match self.start.get(usize::from(disk)) {
            Some(held) => held.size(),
            None => 0,
        }
    }

    fn geometry(&self, disk: u8) -> Geometry {
        match self.start.get(usize::from(disk)) {
            Some(held) => held.geometry(),
            None => Geometry::absent(),
        }
    }
}

fn zero_disks(alloc: Global, disks: &[MemDisk]) -> Result<Vec<HeldDisk>, AllocError>
    ensures { IfOk result (λ made. made.items ≡ map zero_disk disks.now) }
{
    let mut made = Vec::new(alloc);
    for disk in disks {
        made.push(HeldDisk::new(alloc, disk)?)?;
    }
    Ok(made)
}

// The bytes of the last of some events that writes to a sector. The newest event comes first.
fn last_write(events: &VecDeque<Event>, disk: u8, sector: u64) -> Option<Sector>
    ensures { (start : Image)
        → now_after start events.now.items disk sector ≡ unwrap_or result (start disk sector) }
{
    for event in events {
        if let Event::Write(written_disk, written_sector, bytes) = event
            && *written_disk == disk
            && *written_sector == sector
        {
            return Some(*bytes);
        }
    }
    None
}

// What a list of failing calls says of one call.
fn failing_at(failing: &[Failing], call: u64) -> Option<Failing>
    ensures { result ≡ find (λ listed. listed.call == call) failing.now }
{
    for listed in failing {
        if listed.call == call {
            return Some(*listed);
        }
    }
    None
}
