// A file that is read sector by sector, along its section.
ghost use Rattle.std.specs.Prelude.{◌≡◌, ◌<◌, ◌≤◌, ◌-◌, None, min, IfOk, OnOk, OnErr, IsErrOf};
ghost use Rattle.lilo_model.specs.Disks.{Image, Machine};
ghost use Rattle.lilo_model.specs.Slots.{place_at};
ghost use Rattle.lilo_model.specs.Section.{sectors_for, file_content};
ghost use Rattle.lilo_model.specs.Reason.{section_reason};
ghost use Rattle.sector_address.specs.Machine.{OnDisks};
ghost use Rattle.bios_model.specs.Reads.{OnlyReads};
ghost use Rattle.sector_address.specs.View.{slot_view};
ghost use Rattle.map_section.specs.Reader.{IsAsking};
ghost use Rattle.map_section.specs.View.{section_fault_view};
ghost use Rattle.section_loader.specs.Reading.{reading_ahead, content_rest};
ghost use Rattle.section_loader.specs.View.{reason_view};
ghost use Rattle.section_loader.specs.File.{IsCounted, IsSpent, HasNext, rest_in, Counts, Turns, Names, OnFile};
ghost use Rattle.section_loader.specs.File.{Yields, KeepsRest, IsFed, FindsSector, ReadsAt, ReadsOne};

use crate::reason::{Halt, Reason};
use bios_model::{BiosFault, read_slot};
use disk_trait::Disks;
use map_section::{Ask, SectionFault, SectionReader};
use sector_address::Slot;
use sector_parts::Sector;

/// The bytes of a sector.
const SECTOR: u32 = 512;

/// A file that is read from its first sector on. Each of its sectors is read once, and each section sector too.
#[derive(Drop)]
pub struct FileReader {
    // The slot of the first section sector.
    pub(crate) first: Slot,
    // The bytes that are left.
    pub(crate) left: u32,
    pub(crate) section: SectionReader,
    // The slot at hand, and the index of its next sector; at first none is left of it.
    pub(crate) slot: Slot,
    pub(crate) index: u8,
}

impl FileReader {
    /// A file of `length` bytes, whose section has at most `chain` sectors from the one at a slot on.
    pub fn new(first: &Slot, length: u32, chain: u16) -> FileReader
        requires { first.now.count ≡ 1 }
        ensures counted { IsCounted result }
        ensures left { result.left ≡ length }
        ensures rest { (now : Image) (machine : Machine) → rest_in now machine result
            ≡ content_rest (file_content now machine (slot_view first.now) length chain) }
    {
        FileReader {
            first: *first,
            left: length,
            section: SectionReader::new(length.div_ceil(SECTOR), chain),
            slot: *first,
            index: first.count,
        }
    }

    /// Reads the next sector of the file, and reports how many of its bytes are the file's: 512, or fewer at the
    /// file's end, and 0 after it, where nothing is read.
    pub fn next<D: Disks>(&mut self, disks: &mut D, into: &mut Sector) -> Result<usize, Halt>
        requires { IsCounted self.old }
        ensures counted { OnOk result (IsCounted self.new) }
        ensures size { IfOk result (λ size. size ≡ min 512 self.old.left) }
        ensures left { IfOk result (λ size. self.new.left ≡ self.old.left - size) }
        ensures some { OnErr result (0 < self.old.left) }
        ensures bytes { OnFile D.Disks disks.old self.old self.new (λ old new. Yields result old into.new new) }
        ensures reads { OnlyReads D.Disks disks.old disks.new (IsErrOf result Halt.Device) }
    {
        if self.left == 0 {
            return Ok(0);
        }
        self.take_slot(disks)?;
        read_at(disks, &self.slot, self.index, into)?;
        self.index += 1;
        let size = self.left.min(SECTOR);
        self.left -= size;
        Ok(size as usize)
    }

    // Takes the next slot in hand where none of the sectors of the one at hand is left.
    fn take_slot<D: Disks>(&mut self, disks: &mut D) -> Result<(), Halt>
        requires counted { IsCounted self.old }
        requires some { 0 < self.old.left }
        ensures counted { OnOk result (IsCounted self.new) }
        ensures next { OnOk result (HasNext self.new) }
        ensures left { self.new.left ≡ self.old.left }
        ensures rest { OnFile D.Disks disks.old self.old self.new (λ old new. KeepsRest result old new) }
        ensures reads { OnlyReads D.Disks disks.old disks.new (IsErrOf result Halt.Device) }
    {
        if self.index < self.slot.count {
            return Ok(());
        }
        self.slot = self.next_slot(disks)?;
        self.index = 0;
        Ok(())
    }

    // The slot that comes next, after the section sectors that are before it.
    fn next_slot<D: Disks>(&mut self, disks: &mut D) -> Result<Slot, Halt>
        requires counted { IsCounted self.old }
        requires spent { IsSpent self.old }
        requires some { 0 < self.old.left }
        ensures slot { IfOk result (λ slot. 1 ≤ slot.count) }
        ensures left { self.new.left ≡ self.old.left }
        ensures first { self.new.first ≡ self.old.first }
        ensures needed { IfOk result (λ slot. self.new.section.needed ≡ self.old.section.needed - slot.count) }
        ensures named { OnDisks D.Disks disks.old (λ now machine.
            Names machine (sectors_for self.old.left) result
            (reading_ahead now machine (slot_view self.old.first) (sectors_for self.old.left) self.old.section)
            (λ wanted. reading_ahead now machine (slot_view self.old.first) wanted self.new.section)) }
        ensures reads { OnlyReads D.Disks disks.old disks.new (IsErrOf result Halt.Device) }
    {
        loop {
            if let Some(slot) = self.turn(disks)? {
                return Ok(slot);
            }
        }
    }

    // The slot that the section names next, or `None` where a section sector was read instead.
    fn turn<D: Disks>(&mut self, disks: &mut D) -> Result<Option<Slot>, Halt>
        requires counted { IsCounted self.old }
        requires spent { IsSpent self.old }
        requires some { 0 < self.old.left }
        ensures left { self.new.left ≡ self.old.left }
        ensures first { self.new.first ≡ self.old.first }
        ensures slot { self.new.slot ≡ self.old.slot }
        ensures index { self.new.index ≡ self.old.index }
        ensures counts { IfOk result (λ slot. Counts slot self.old.section self.new.section) }
        ensures turn { OnDisks D.Disks disks.old (λ now machine.
            Turns machine (sectors_for self.old.left) result
            (reading_ahead now machine (slot_view self.old.first) (sectors_for self.old.left) self.old.section)
            (λ wanted. reading_ahead now machine (slot_view self.old.first) wanted self.new.section)) }
        ensures reads { OnlyReads D.Disks disks.old disks.new (IsErrOf result Halt.Device) }
    {
        match self.section.next() {
            Ok(Ask::Slot(slot)) => Ok(Some(slot)),
            Ok(Ask::Sector(link)) => self.feed(disks, &link),
            Ok(Ask::First) => {
                let first = self.first;
                self.feed(disks, &first)
            }
            Ok(Ask::Done) => unreachable!(),
            Err(fault) => Err(Halt::Refused(reason_of(fault))),
        }
    }

    // Feeds the section's reader the section sector at a slot.
    fn feed<D: Disks>(&mut self, disks: &mut D, link: &Slot) -> Result<Option<Slot>, Halt>
        requires asking { IsAsking self.old.section }
        requires one { link.now.count ≡ 1 }
        ensures left { self.new.left ≡ self.old.left }
        ensures first { self.new.first ≡ self.old.first }
        ensures slot { self.new.slot ≡ self.old.slot }
        ensures index { self.new.index ≡ self.old.index }
        ensures fed { IfOk result (λ slot. (slot ≡ None) × IsFed self.old.section self.new.section) }
        ensures found { OnDisks D.Disks disks.old (λ now machine.
            FindsSector now result (place_at machine (slot_view link.now) 0) self.old.section self.new.section) }
        ensures reads { OnlyReads D.Disks disks.old disks.new (IsErrOf result Halt.Device) }
    {
        let mut sector = [0; 512];
        read_one(disks, link, &mut sector)?;
        self.section.feed(&sector);
        Ok(None)
    }
}

/// How a boot reports why a section is refused.
fn reason_of(fault: SectionFault) -> Reason
    ensures { reason_view result ≡ section_reason (section_fault_view fault) }
{
    match fault {
        SectionFault::BadSlot(place) => Reason::BadSlot(place),
        SectionFault::ChainTooLong(chain) => Reason::ChainTooLong(chain),
        SectionFault::ShortChain(sectors) => Reason::ShortChain(sectors),
    }
}

/// Reads the first sector that a slot names.
pub fn read_one<D: Disks>(disks: &mut D, slot: &Slot, into: &mut Sector) -> Result<(), Halt>
    requires { slot.now.count ≡ 1 }
    ensures sector { OnDisks D.Disks disks.old (λ now machine.
        ReadsOne now machine (slot_view slot.now) result into.new) }
    ensures reads { OnlyReads D.Disks disks.old disks.new (IsErrOf result Halt.Device) }
{
    read_at(disks, slot, 0, into)
}

/// Reads the sector that a slot names at an index.
fn read_at<D: Disks>(disks: &mut D, slot: &Slot, index: u8, into: &mut Sector) -> Result<(), Halt>
    requires { index < slot.now.count }
    ensures sector { OnDisks D.Disks disks.old (λ now machine.
        ReadsAt now machine (slot_view slot.now) index result into.new) }
    ensures reads { OnlyReads D.Disks disks.old disks.new (IsErrOf result Halt.Device) }
{
    match read_slot(disks, slot, index, into) {
        Ok(()) => Ok(()),
        Err(BiosFault::NotFound) => Err(Halt::Refused(Reason::NotFound)),
        Err(_) => Err(Halt::Device),
    }
}
