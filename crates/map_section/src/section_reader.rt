// A reader that follows a section.
ghost use Rattle.std.specs.Prelude.{◌≡◌, ◌+◌, ◌<◌, IfOk, replicate};
ghost use Rattle.lilo_model.specs.Checks.{seen};
ghost use Rattle.sector_address.specs.View.{slot_view};
ghost use Rattle.map_section.specs.Reader.{begun, next_of, fed, slots_turn, end_turn, behind_slot, refused};
ghost use Rattle.map_section.specs.Reader.{further_turn, IsAsking, IsLink, Offers, TakesTurn, CountsDown};
ghost use Rattle.map_section.specs.View.{ask_view, section_fault_view};

use crate::sectors::{SLOTS, link_in, slot_in};
use sector_address::Slot;
use sector_parts::Sector;
use std::marker::Model;

/// Why a section is refused.
#[derive(Clone, Copy, Debug, PartialEq, Eq)]
pub enum SectionFault {
    /// Eight bytes are no slot, or those of a link no slot of one sector. Places count from 0, 64 for each
    /// section sector.
    BadSlot(u32),
    /// More sectors are needed, and a link comes after this many section sectors, the most allowed.
    ChainTooLong(u16),
    /// More sectors are needed, and the chain ends after this many sectors.
    ShortChain(u32),
}

/// What comes next along a section.
#[derive(Clone, Copy, Debug, PartialEq, Eq)]
pub enum Ask {
    /// The next sectors are those of this slot, of which no more are wanted than are still needed.
    Slot(Slot),
    /// The section sector at this link is to be fed.
    Sector(Slot),
    /// The first section sector is to be fed.
    First,
    /// The list is complete.
    Done,
}

// Where a reader is.
#[derive(Clone, Copy)]
enum Stage {
    // A section sector is wanted: the first, or the one at a link.
    Wanted(Option<Slot>),
    // The slot of this index comes next.
    Slots(u8),
    Refused(SectionFault),
}

/// A reader that names the sectors of a file in order, slot by slot.
#[derive(Drop)]
pub struct SectionReader {
    given: u32,
    needed: u32,
    chain: u16,
    number: u16,
    stage: Stage,
    sector: Sector,
}

impl Model for SectionReader {
    ghost use Rattle.std.specs.Prelude.{◌+◌, ◌^◌, ◌<◌};
    ghost use Rattle.map_section.specs.Reader.{ReaderState};
    ghost use Rattle.map_section.specs.View.{stage_view, HoldsLink};

    ghost Value = { ReaderState };

    ghost view = { λ reader. record {
      given = reader.given;
      needed = reader.needed;
      chain = reader.chain;
      number = reader.number;
      stage = stage_view reader.stage;
      bytes = reader.sector;
    } };

    ghost invariant = { λ reader. (reader.given + reader.needed < 2 ^ 32) × HoldsLink reader.stage };
}

impl SectionReader {
    /// A reader of a list of `sectors` sectors in at most `chain` section sectors.
    pub fn new(sectors: u32, chain: u16) -> SectionReader
        ensures { result ≡ begun sectors chain (replicate 512 0) }
    {
        let stage = if chain == 0 {
            Stage::Refused(SectionFault::ChainTooLong(chain))
        } else {
            Stage::Wanted(None)
        };
        SectionReader {
            given: 0,
            needed: sectors,
            chain,
            number: 0,
            stage,
            sector: [0; 512],
        }
    }

    /// Gives it the section sector that it asked for.
    pub fn feed(&mut self, sector: &Sector)
        requires { IsAsking self.old }
        ensures { self.new ≡ fed self.old sector.now }
    {
        self.sector = *sector;
        self.stage = Stage::Slots(0);
    }

    /// What comes next. It asks for a section sector until it is fed one. A slot that names more sectors
    /// than are needed is given once, and the list is then complete. After a refusal or `Done` it answers
    /// the same again.
    pub fn next(&mut self) -> Result<Ask, SectionFault>
        ensures answer { seen ask_view section_fault_view result ≡ (next_of self.old).answer }
        ensures state { self.new ≡ (next_of self.old).state }
        ensures offer { IfOk result (λ ask. Offers (ask_view ask) self.new) }
        ensures turn { IfOk result (λ ask. TakesTurn (ask_view ask) self.old self.new) }
        ensures count { IfOk result (λ ask. CountsDown (ask_view ask) self.old self.new) }
    {
        if self.needed == 0 {
            return Ok(Ask::Done);
        }
        match self.stage {
            Stage::Wanted(None) => Ok(Ask::First),
            Stage::Wanted(Some(link)) => Ok(Ask::Sector(link)),
            Stage::Slots(index) => self.next_slot(index),
            Stage::Refused(fault) => Err(fault),
        }
    }

    // The slot of an index, or what comes after the last one.
    fn next_slot(&mut self, index: u8) -> Result<Ask, SectionFault>
        requires { 0 < self.old.needed }
        ensures answer { seen ask_view section_fault_view result ≡ (slots_turn self.old index).answer }
        ensures state { self.new ≡ (slots_turn self.old index).state }
        ensures offer { IfOk result (λ ask. Offers (ask_view ask) self.new) }
        ensures turn { IfOk result (λ ask. TakesTurn (ask_view ask) self.old self.new) }
        ensures count { IfOk result (λ ask. CountsDown (ask_view ask) self.old self.new) }
    {
        if index >= SLOTS {
            return self.next_link();
        }
        match slot_in(&self.sector, index) {
            Ok(Some(slot)) => Ok(self.name(index, slot)),
            Ok(None) => self.next_link(),
            Err(_) => {
                let place = u32::from(self.number) * 64 + u32::from(index);
                Err(self.refuse(SectionFault::BadSlot(place)))
            }
        }
    }

    // Names the slot of an index.
    fn name(&mut self, index: u8, slot: Slot) -> Ask
        requires { index < 255 }
        ensures answer { result ≡ Ask.Slot slot }
        ensures state { self.new ≡ behind_slot self.old index (slot_view slot) }
    {
        let taken = self.needed.min(u32::from(slot.count));
        self.given += taken;
        self.needed -= taken;
        self.stage = Stage::Slots(index + 1);
        Ask::Slot(slot)
    }

    // What the link of the section sector at hand leads to.
    fn next_link(&mut self) -> Result<Ask, SectionFault>
        requires { 0 < self.old.needed }
        ensures answer { seen ask_view section_fault_view result ≡ (end_turn self.old).answer }
        ensures state { self.new ≡ (end_turn self.old).state }
        ensures offer { IfOk result (λ ask. Offers (ask_view ask) self.new) }
        ensures turn { IfOk result (λ ask. TakesTurn (ask_view ask) self.old self.new) }
        ensures count { IfOk result (λ ask. CountsDown (ask_view ask) self.old self.new) }
    {
        match link_in(&self.sector, self.number) {
            Ok(Some(link)) => self.follow(link),
            Ok(None) => Err(self.refuse(SectionFault::ShortChain(self.given))),
            Err(fault) => Err(self.refuse(fault)),
        }
    }

    // Follows a link, if as many section sectors are allowed.
    fn follow(&mut self, link: Slot) -> Result<Ask, SectionFault>
        requires needed { 0 < self.old.needed }
        requires link { IsLink (slot_view link) }
        ensures answer { seen ask_view section_fault_view result
            ≡ (further_turn self.old (slot_view link)).answer }
        ensures state { self.new ≡ (further_turn self.old (slot_view link)).state }
        ensures offer { IfOk result (λ ask. Offers (ask_view ask) self.new) }
        ensures turn { IfOk result (λ ask. TakesTurn (ask_view ask) self.old self.new) }
        ensures count { IfOk result (λ ask. CountsDown (ask_view ask) self.old self.new) }
    {
        if u32::from(self.number) + 1 >= u32::from(self.chain) {
            return Err(self.refuse(SectionFault::ChainTooLong(self.chain)));
        }
        self.number += 1;
        self.stage = Stage::Wanted(Some(link));
        Ok(Ask::Sector(link))
    }

    // Refuses the section from now on.
    fn refuse(&mut self, fault: SectionFault) -> SectionFault
        ensures answer { result ≡ fault }
        ensures state { self.new ≡ (refused self.old (section_fault_view fault)).state }
    {
        self.stage = Stage::Refused(fault);
        fault
    }
}
