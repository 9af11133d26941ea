// A source in memory.
use crate::source::{Next, Source, Taken};
use std::alloc::{AllocError, Global};
use std::marker::Model;

/// Gives bytes from memory, and fails at chosen calls.
#[derive(Drop)]
pub struct MemSource {
    bytes: Vec<u8>,
    given: usize,
    ended: bool,
    calls: u64,
    failing: Vec<u64>,
    faults: u64,
}

impl Model for MemSource {
    ghost use Rattle.std.specs.Prelude.{◌≡◌, drop, [], IsTrue};
    ghost use Rattle.stream_trait.specs.MemSource.{MemSourceState};

    ghost Value = { MemSourceState };

    ghost view = { λ s. record {
      left = drop s.given s.bytes.items;
      ended = s.ended;
      calls = s.calls;
      failing = s.failing.items;
      faults = s.faults;
    } };

    ghost invariant = { λ s. IsTrue s.ended → drop s.given s.bytes.items ≡ [] };
}

impl MemSource {
    ghost use Rattle.std.specs.Prelude.{◌≡◌, false, IfOk};
    ghost use Rattle.stream_trait.specs.MemSource.{MemSourceState};

    /// A source of these bytes. The calls of `next_byte` and `next_bytes` are counted together from 0,
    /// and the one whose number is in `failing` fails, unless the source has already answered `End`:
    /// from then on no call is counted. The counts stay at `u64::MAX`.
    ///
    /// # Errors
    ///
    /// There is no memory for the copies.
    pub fn new(alloc: Global, bytes: &[u8], failing: &[u64]) -> Result<MemSource, AllocError>
        ensures { IfOk result (λ s. s
            ≡ record { left = bytes.now; ended = false; calls = 0; failing = failing.now; faults = 0 }) }
    {
        Ok(MemSource {
            bytes: bytes.to_vec(alloc)?,
            given: 0,
            ended: false,
            calls: 0,
            failing: failing.to_vec(alloc)?,
            faults: 0,
        })
    }
}

impl Source for MemSource {
    ghost use Rattle.std.specs.Prelude.{◌≡◌, ℕ, ◌<◌, ◌≤◌, ◌↔◌, length, true, false, Some, IsTrue, IsFalse};
    ghost use Rattle.lilo_model.specs.Faults.{Rose};
    ghost use Rattle.stream_trait.specs.Fault.{is_listed};
    ghost use Rattle.stream_trait.specs.Source.{Gives, GivesMany};
    ghost use Rattle.stream_trait.specs.MemSource.{source_after, source_after_many};

    ghost left = { λ s. Some s.left };

    ghost can_give = { λ s. length s.left };

    ghost ended = { λ s. s.ended };

    ghost faults = { λ s. s.faults };

    fn next_byte(&mut self) -> Next
        ensures later { self.old.faults ≤ self.new.faults }
        ensures failed { result ≡ Next.Failed → Rose self.old.faults self.new.faults }
        ensures gives { Gives (Some self.old.left) result (Some self.new.left) }
        ensures fewer { (byte : ℕ) → result ≡ Next.Got byte → length self.new.left < length self.old.left }
        ensures no_more { length self.new.left ≤ length self.old.left }
        ensures end { IsTrue self.new.ended ↔ (result ≡ Next.End) }
        ensures stays { IsTrue self.old.ended → (result ≡ Next.End) × (self.new.faults ≡ self.old.faults)
            × (Some self.new.left ≡ Some self.old.left) }

        // Exactly the calls in the list fail, and nothing changes after the end.
        ensures fails { IsFalse self.old.ended
            → (result ≡ Next.Failed) ↔ IsTrue (is_listed self.old.failing self.old.calls) }
        ensures after { IsFalse self.old.ended → self.new ≡ source_after self.old result }
        ensures unchanged { IsTrue self.old.ended → self.new ≡ self.old }
    {
        if self.ended {
            return Next::End;
        }
        let fails = self.failing.contains(&self.calls);
        self.calls = self.calls.saturating_add(1);
        if fails {
            self.faults = self.faults.saturating_add(1);
            return Next::Failed;
        }
        match self.bytes.get(self.given) {
            None => {
                self.ended = true;
                Next::End
            }
            Some(&byte) => {
                self.given += 1;
                Next::Got(byte)
            }
        }
    }

    // It gives one byte a call, as `next_byte` would, whatever there is room for.
    fn next_bytes(&mut self, into: &mut [u8]) -> Taken
        requires room { 0 < length into.old }
        ensures later { self.old.faults ≤ self.new.faults }
        ensures failed { result ≡ Taken.Failed → Rose self.old.faults self.new.faults }
        ensures some { (count : ℕ) → result ≡ Taken.Got count → (0 < count) × (count ≤ length into.new) }
        ensures length { length into.new ≡ length into.old }
        ensures gives { GivesMany (Some self.old.left) result into.new (Some self.new.left) }
        ensures fewer { (count : ℕ) → result ≡ Taken.Got count → length self.new.left < length self.old.left }
        ensures no_more { length self.new.left ≤ length self.old.left }
        ensures end { IsTrue self.new.ended ↔ (result ≡ Taken.End) }
        ensures stays { IsTrue self.old.ended → (result ≡ Taken.End) × (self.new.faults ≡ self.old.faults)
            × (Some self.new.left ≡ Some self.old.left) }

        ensures one { (count : ℕ) → result ≡ Taken.Got count → count ≡ 1 }
        ensures fails { IsFalse self.old.ended
            → (result ≡ Taken.Failed) ↔ IsTrue (is_listed self.old.failing self.old.calls) }
        ensures after { IsFalse self.old.ended → self.new ≡ source_after_many self.old result }
        ensures unchanged { IsTrue self.old.ended → self.new ≡ self.old }
    {
        match self.next_byte() {
            Next::Got(byte) => {
                into[0] = byte;
                Taken::Got(1)
            }
            Next::End => Taken::End,
            Next::Failed => Taken::Failed,
        }
    }
}
