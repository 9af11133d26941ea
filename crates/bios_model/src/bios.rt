// The BIOS: disks that are read and written by slots, and keys.
ghost use Rattle.std.specs.Prelude.{◌≡◌, ◌<◌, ◌≤◌, ◌↔◌, length, map, All, Ok, IsOk, IsErr, IsErrOf, IfErr, IsTrue};
ghost use Rattle.disk_trait.specs.Calls.{SameOf};
ghost use Rattle.std.specs.Prelude.{OnOk, OnErr};
ghost use Rattle.lilo_model.specs.Faults.{Rose};
ghost use Rattle.lilo_model.specs.Checks.{with_fault};
ghost use Rattle.lilo_model.specs.Slots as slots;
ghost use Rattle.lilo_model.specs.Slots.{place_at};
ghost use Rattle.lilo_model.specs.Boot.{slot_bytes_at};
ghost use Rattle.sector_address.specs.View.{slot_view};
ghost use Rattle.sector_address.specs.Machine.{machine_of, OnDisks};
ghost use Rattle.bios_model.specs.Keys.{GivesKey, keys_in};
ghost use Rattle.bios_model.specs.Machine.{sector_bytes_at, HasSector, slots_bytes_at, first_places, Reads};
ghost use Rattle.bios_model.specs.Writes.{WritesFound};

use crate::key::Key;
use disk_trait::{DiskFault, Disks, write_and_flush};
use sector_address::Slot;
use sector_parts::Sector;
use stream_trait::{Next, Source};

/// What a boot loader asks for sectors and keys.
#[derive(Drop)]
pub struct Bios<'d, D: Disks, I: Source> {
    pub disks: &'d mut D,
    pub keys: &'d mut I,
}

/// Why the modelled PC refuses a call.
#[derive(Clone, Copy, Debug, PartialEq, Eq)]
pub enum BiosFault {
    /// The slot names no sector of a disk.
    NotFound,
    /// The disk failed.
    Timeout,
    /// The source of keys failed.
    KeysFault,
    /// The bytes don't fit into memory.
    OutsideRam,
}

impl<'d, D: Disks, I: Source> Bios<'d, D, I> {
    /// Reads the sector at `index` of a slot, counted from 0. `NotFound` is for a slot that names no sector
    /// of a disk, and `Timeout` for a disk that failed. Either leaves `into` as it was.
    pub fn read_slot(&mut self, slot: &Slot, index: u8, into: &mut Sector) -> Result<(), BiosFault>
        requires { index < slot.now.count }

        // What is read.
        ensures sector { OnOk result (OnDisks D.Disks self.old.disks.now (λ now machine.
            sector_bytes_at now machine (slot_view slot.now) index ≡ Ok into.new)) }
        ensures refused { OnErr result (into.new ≡ into.old) }

        // When it is refused.
        ensures not_found { IsErrOf result BiosFault.NotFound
            ↔ IsErr (place_at (machine_of D.Disks self.old.disks.now) (slot_view slot.now) index) }
        ensures uncounted { IsErrOf result BiosFault.NotFound
            → D.faults self.new.disks.now ≡ D.faults self.old.disks.now }
        ensures timeout { IsErrOf result BiosFault.Timeout
            → Rose (D.faults self.old.disks.now) (D.faults self.new.disks.now) }
        ensures no_keys { IsErrOf result BiosFault.KeysFault → ⊥ }
        ensures no_memory { IsErrOf result BiosFault.OutsideRam → ⊥ }
        ensures later { D.faults self.old.disks.now ≤ D.faults self.new.disks.now }

        // Nothing else happens.
        ensures same { SameOf D.Disks self.old.disks.now self.new.disks.now }
        ensures keys { self.new.keys.now ≡ self.old.keys.now }
        ensures same_disks_reference { self.new.disks.ghost_name ≡ self.old.disks.ghost_name }
        ensures same_keys_reference { self.new.keys.ghost_name ≡ self.old.keys.ghost_name }
    {
        read_slot(self.disks, slot, index, into)
    }

    /// Writes the first sector of a slot and makes it durable, with all writes before it. Refused as a read is; a write
    /// that failed was made or wasn't.
    pub fn write_sector(&mut self, slot: &Slot, from: &Sector) -> Result<(), BiosFault>
        requires { HasSector slot.now }

        // What is written.
        ensures writes { WritesFound D.Disks self.old.disks.now self.new.disks.now
            (place_at (machine_of D.Disks self.old.disks.now) (slot_view slot.now) 0) from.now result }

        // When it is refused.
        ensures not_found { IsErrOf result BiosFault.NotFound
            ↔ IsErr (place_at (machine_of D.Disks self.old.disks.now) (slot_view slot.now) 0) }
        ensures uncounted { IsErrOf result BiosFault.NotFound
            → D.faults self.new.disks.now ≡ D.faults self.old.disks.now }
        ensures timeout { IsErrOf result BiosFault.Timeout
            → Rose (D.faults self.old.disks.now) (D.faults self.new.disks.now) }
        ensures no_keys { IsErrOf result BiosFault.KeysFault → ⊥ }
        ensures no_memory { IsErrOf result BiosFault.OutsideRam → ⊥ }
        ensures later { D.faults self.old.disks.now ≤ D.faults self.new.disks.now }

        // No key is taken.
        ensures keys { self.new.keys.now ≡ self.old.keys.now }
        ensures same_disks_reference { self.new.disks.ghost_name ≡ self.old.disks.ghost_name }
        ensures same_keys_reference { self.new.keys.ghost_name ≡ self.old.keys.ghost_name }
    {
        write_sector(self.disks, slot, from)
    }

    /// Takes the next key. The byte 0x16 is a tick, a tenth of a second without a key; the end of the source is
    /// silence, from then on for good. `KeysFault` is for a source that failed: then no key is taken.
    pub fn key(&mut self) -> Result<Key, BiosFault>
        // What is heard.
        ensures key { GivesKey (keys_in I.Source self.old.keys.now) result (keys_in I.Source self.new.keys.now) }
        ensures fewer { (key : Key) → result ≡ Ok key → (key ≡ Key.Silence → ⊥)
            → I.can_give self.new.keys.now < I.can_give self.old.keys.now }
        ensures no_more { I.can_give self.new.keys.now ≤ I.can_give self.old.keys.now }

        // After its end a source is silent for good.
        ensures end { IsTrue (I.ended self.new.keys.now) ↔ (result ≡ Ok Key.Silence) }
        ensures stays { IsTrue (I.ended self.old.keys.now) → (result ≡ Ok Key.Silence)
            × (I.faults self.new.keys.now ≡ I.faults self.old.keys.now)
            × (I.left self.new.keys.now ≡ I.left self.old.keys.now) }

        // When it is refused.
        ensures fault { IsErrOf result BiosFault.KeysFault
            → Rose (I.faults self.old.keys.now) (I.faults self.new.keys.now) }
        ensures only { IfErr result (λ fault. fault ≡ BiosFault.KeysFault) }
        ensures later { I.faults self.old.keys.now ≤ I.faults self.new.keys.now }

        // Nothing else happens.
        ensures disks { self.new.disks.now ≡ self.old.disks.now }
        ensures same_disks_reference { self.new.disks.ghost_name ≡ self.old.disks.ghost_name }
        ensures same_keys_reference { self.new.keys.ghost_name ≡ self.old.keys.ghost_name }
    {
        match self.keys.next_byte() {
            Next::Got(0x16) => Ok(Key::Tick),
            Next::Got(byte) => Ok(Key::Byte(byte)),
            Next::End => Ok(Key::Silence),
            Next::Failed => Err(BiosFault::KeysFault),
        }
    }
}

/// Reads the sector at `index` of a slot, as [`Bios::read_slot`] does, where no keys are at hand.
#[tactic(auto, unfolding(lilo_model::specs::Slots::place_at))]
pub fn read_slot<D: Disks>(
    disks: &mut D,
    slot: &Slot,
    index: u8,
    into: &mut Sector,
) -> Result<(), BiosFault>
    requires { index < slot.now.count }

    // What is read.
    ensures sector { OnOk result (OnDisks D.Disks disks.old (λ now machine.
        sector_bytes_at now machine (slot_view slot.now) index ≡ Ok into.new)) }
    ensures refused { OnErr result (into.new ≡ into.old) }

    // When it is refused.
    ensures not_found { IsErrOf result BiosFault.NotFound
        ↔ IsErr (place_at (machine_of D.Disks disks.old) (slot_view slot.now) index) }
    ensures uncounted { IsErrOf result BiosFault.NotFound → D.faults disks.new ≡ D.faults disks.old }
    ensures timeout { IsErrOf result BiosFault.Timeout → Rose (D.faults disks.old) (D.faults disks.new) }
    ensures no_keys { IsErrOf result BiosFault.KeysFault → ⊥ }
    ensures no_memory { IsErrOf result BiosFault.OutsideRam → ⊥ }
    ensures later { D.faults disks.old ≤ D.faults disks.new }

    // Nothing else happens.
    ensures same { SameOf D.Disks disks.old disks.new }
{
    let Ok(sector) = slot.sector(disks.geometry(slot.disk), index) else {
        return Err(BiosFault::NotFound);
    };
    match disks.read(slot.disk, sector, into) {
        Ok(()) => Ok(()),
        Err(DiskFault::Failed) => Err(BiosFault::Timeout),
        Err(DiskFault::OutOfRange) => Err(BiosFault::NotFound),
    }
}

/// Writes the first sector of a slot, as [`Bios::write_sector`] does, where no keys are at hand.
pub fn write_sector<D: Disks>(disks: &mut D, slot: &Slot, from: &Sector) -> Result<(), BiosFault>
    requires { HasSector slot.now }

    // What is written.
    ensures writes { WritesFound D.Disks disks.old disks.new
        (place_at (machine_of D.Disks disks.old) (slot_view slot.now) 0) from.now result }

    // When it is refused.
    ensures not_found { IsErrOf result BiosFault.NotFound
        ↔ IsErr (place_at (machine_of D.Disks disks.old) (slot_view slot.now) 0) }
    ensures uncounted { IsErrOf result BiosFault.NotFound → D.faults disks.new ≡ D.faults disks.old }
    ensures timeout { IsErrOf result BiosFault.Timeout → Rose (D.faults disks.old) (D.faults disks.new) }
    ensures no_keys { IsErrOf result BiosFault.KeysFault → ⊥ }
    ensures no_memory { IsErrOf result BiosFault.OutsideRam → ⊥ }
    ensures later { D.faults disks.old ≤ D.faults disks.new }
{
    let Ok(sector) = slot.sector(disks.geometry(slot.disk), 0) else {
        return Err(BiosFault::NotFound);
    };
    if disks.size(slot.disk) <= sector {
        return Err(BiosFault::NotFound);
    }
    match write_and_flush(disks, slot.disk, sector, from) {
        Ok(()) => Ok(()),
        Err(_) => Err(BiosFault::Timeout),
    }
}

/// Reads the first sector of each slot, in order, up to the first that can't be read.
pub fn read_slots<D: Disks>(
    disks: &mut D,
    slots: &[Slot],
    into: &mut [Sector],
) -> Result<(), BiosFault>
    requires room { length slots.now ≡ length into.old }
    requires slots { All HasSector slots.now }

    // What is read.
    ensures sectors { OnDisks D.Disks disks.old (λ now machine.
        Reads result into.new (slots_bytes_at now machine (map slot_view slots.now))) }
    ensures found { OnOk result (IsOk (first_places (machine_of D.Disks disks.old) slots.now)) }

    // When it is refused.
    ensures not_found { IsErrOf result BiosFault.NotFound
        → IsErr (first_places (machine_of D.Disks disks.old) slots.now) }
    ensures timeout { IsErrOf result BiosFault.Timeout → Rose (D.faults disks.old) (D.faults disks.new) }
    ensures no_keys { IsErrOf result BiosFault.KeysFault → ⊥ }
    ensures no_memory { IsErrOf result BiosFault.OutsideRam → ⊥ }
    ensures later { D.faults disks.old ≤ D.faults disks.new }

    // Nothing else happens.
    ensures same { SameOf D.Disks disks.old disks.new }
{
    for place in 0..slots.len() {
        read_first(disks, &slots[place], &mut into[place])?;
    }
    Ok(())
}

// Reads the first sector of a slot.
#[tactic(auto, unfolding(lilo_model::specs::Boot::slot_bytes_at))]
fn read_first<D: Disks>(disks: &mut D, slot: &Slot, into: &mut Sector) -> Result<(), BiosFault>
    requires { HasSector slot.now }
    ensures sector { OnDisks D.Disks disks.old (λ now machine.
        Reads result into.new (with_fault (λ _. slots.NotFound) (slot_bytes_at now machine (slot_view slot.now)))) }
    ensures found { OnOk result (IsOk (place_at (machine_of D.Disks disks.old) (slot_view slot.now) 0)) }
    ensures not_found { IsErrOf result BiosFault.NotFound
        → IsErr (place_at (machine_of D.Disks disks.old) (slot_view slot.now) 0) }
    ensures timeout { IsErrOf result BiosFault.Timeout → Rose (D.faults disks.old) (D.faults disks.new) }
    ensures no_keys { IsErrOf result BiosFault.KeysFault → ⊥ }
    ensures no_memory { IsErrOf result BiosFault.OutsideRam → ⊥ }
    ensures later { D.faults disks.old ≤ D.faults disks.new }
    ensures same { SameOf D.Disks disks.old disks.new }
{
    read_slot(disks, slot, 0, into)
}
