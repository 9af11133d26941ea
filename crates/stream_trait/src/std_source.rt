// A source over a reader of std.
use crate::source::{Next, Source, Taken};
use std::io::Read;
use std::marker::Model;

// How many bytes one read asks for.
const BUFFER: usize = 16_384;

// How many bytes a source can give in all, 2 ^ 40.
const CAN_GIVE: u64 = 1_099_511_627_776;

/// Gives the bytes of a reader, of which it reports nothing beforehand.
///
/// It reads up to 16,384 bytes at a time. It can give 1,099,511,627,776 bytes in all, and then answers
/// `Failed`, which is a fault. A read that fails is a fault too, also one that was interrupted. A
/// read that gives no byte ends the source for good. The count of faults stays at `u64::MAX`.
#[derive(Drop)]
pub struct StdSource<R: Read + Drop> {
    reader: R,
    buffer: [u8; BUFFER],
    // The bytes of the buffer from `at` to `filled` were read, and are not given yet.
    at: usize,
    filled: usize,
    can_give: u64,
    ended: bool,
    faults: u64,
}

impl<R: Read + Drop> Model for StdSource<R> {
    ghost use Rattle.std.specs.Prelude.{◌≡◌, ◌≤◌, IsTrue, slice_range};
    ghost use Rattle.std.specs.Io.KnownBytes.{prepend_known, IsAtEnd};
    ghost use Rattle.stream_trait.specs.StdSource.{StdSourceState};

    ghost Value = { StdSourceState };

    ghost view = { λ s. record {
      unread = prepend_known (slice_range s.buffer s.at s.filled) (R.remaining s.reader);
      can_give = s.can_give;
      ended = s.ended;
      faults = s.faults;
    } };

    ghost invariant = { λ s. (s.at ≤ s.filled) × (s.filled ≤ 16384)
        × (IsTrue s.ended → (s.at ≡ s.filled) × IsAtEnd (R.remaining s.reader)) };
}

impl<R: Read + Drop> StdSource<R> {
    ghost use Rattle.std.specs.Prelude.{◌≡◌, false};
    ghost use Rattle.stream_trait.specs.StdSource.{StdSourceState};

    /// A source of what the reader will give.
    pub fn new(reader: R) -> StdSource<R>
        ensures { result ≡ record { unread = R.remaining reader; can_give = 1099511627776; ended = false; faults = 0 } }
    {
        StdSource {
            reader,
            buffer: [0; BUFFER],
            at: 0,
            filled: 0,
            can_give: CAN_GIVE,
            ended: false,
            faults: 0,
        }
    }
}

impl<R: Read + Drop> Source for StdSource<R> {
    ghost use Rattle.std.specs.Prelude.{◌≡◌, ℕ, ◌<◌, ◌≤◌, ◌↔◌, length, None, IsTrue, IsFalse};
    ghost use Rattle.lilo_model.specs.Faults.{Rose};
    ghost use Rattle.stream_trait.specs.Source.{Gives, GivesMany};
    ghost use Rattle.stream_trait.specs.StdSource.{GivesKnown, GivesManyKnown, Counts, CountsMany};

    ghost left = { λ _. None };

    ghost can_give = { λ s. s.can_give };

    ghost ended = { λ s. s.ended };

    ghost faults = { λ s. s.faults };

    fn next_byte(&mut self) -> Next
        ensures later { self.old.faults ≤ self.new.faults }
        ensures failed { result ≡ Next.Failed → Rose self.old.faults self.new.faults }
        ensures fewer { (byte : ℕ) → result ≡ Next.Got byte → self.new.can_give < self.old.can_give }
        ensures no_more { self.new.can_give ≤ self.old.can_give }
        ensures end { IsTrue self.new.ended ↔ (result ≡ Next.End) }
        ensures stays { IsTrue self.old.ended → (result ≡ Next.End) × (self.new.faults ≡ self.old.faults) }

        // Where the reader reports its bytes, they come in their order.
        ensures known { GivesKnown self.old.unread result self.new.unread }

        ensures counts { Counts self.old result self.new }
        ensures spent { IsFalse self.old.ended → self.old.can_give ≡ 0 → result ≡ Next.Failed }
        ensures unchanged { IsTrue self.old.ended → self.new ≡ self.old }
    {
        let mut one = [0];
        match self.next_bytes(&mut one) {
            Taken::Got(_) => Next::Got(one[0]),
            Taken::End => Next::End,
            Taken::Failed => Next::Failed,
        }
    }

    fn next_bytes(&mut self, into: &mut [u8]) -> Taken
        requires room { 0 < length into.old }
        ensures later { self.old.faults ≤ self.new.faults }
        ensures failed { result ≡ Taken.Failed → Rose self.old.faults self.new.faults }
        ensures some { (count : ℕ) → result ≡ Taken.Got count → (0 < count) × (count ≤ length into.new) }
        ensures length { length into.new ≡ length into.old }
        ensures fewer { (count : ℕ) → result ≡ Taken.Got count → self.new.can_give < self.old.can_give }
        ensures no_more { self.new.can_give ≤ self.old.can_give }
        ensures end { IsTrue self.new.ended ↔ (result ≡ Taken.End) }
        ensures stays { IsTrue self.old.ended → (result ≡ Taken.End) × (self.new.faults ≡ self.old.faults) }

        // Where the reader reports its bytes, they come in their order.
        ensures known { GivesManyKnown self.old.unread result into.new self.new.unread }

        ensures counts { CountsMany self.old result self.new }
        ensures spent { IsFalse self.old.ended → self.old.can_give ≡ 0 → result ≡ Taken.Failed }
        ensures unchanged { IsTrue self.old.ended → self.new ≡ self.old }
    {
        if self.ended {
            return Taken::End;
        }
        if self.can_give == 0 {
            self.faults = self.faults.saturating_add(1);
            return Taken::Failed;
        }
        if self.at == self.filled {
            match self.reader.read(&mut self.buffer) {
                Ok(0) => {
                    self.ended = true;
                    return Taken::End;
                }
                Ok(count) => {
                    self.at = 0;
                    self.filled = count;
                }
                Err(_) => {
                    self.faults = self.faults.saturating_add(1);
                    return Taken::Failed;
                }
            }
        }
        let room = into.len().min(self.can_give as usize);
        let count = room.min(self.filled - self.at);
        into[..count].copy_from_slice(&self.buffer[self.at..self.at + count]);
        self.at += count;
        self.can_give -= count as u64;
        Taken::Got(count)
    }
}
