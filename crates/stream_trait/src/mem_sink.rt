// A sink in memory.
use crate::sink::{Sink, SinkFailed};
use std::alloc::{AllocError, Global};
use std::marker::Model;

/// Takes texts into memory, and fails at chosen calls.
#[derive(Drop)]
pub struct MemSink {
    bytes: Vec<u8>,
    room: u32,
    calls: u64,
    failing: Vec<u64>,
    faults: u64,
}

impl Model for MemSink {
    ghost use Rattle.std.specs.Prelude.{◌≤◌, vec_len, vec_capacity};
    ghost use Rattle.stream_trait.specs.MemSink.{MemSinkState};

    ghost Value = { MemSinkState };

    ghost view = { λ s. record {
      taken = s.bytes.items;
      room = s.room;
      calls = s.calls;
      failing = s.failing.items;
      faults = s.faults;
    } };

    ghost invariant = { λ s. (vec_len s.bytes ≤ s.room) × (s.room ≤ vec_capacity s.bytes) };
}

impl MemSink {
    ghost use Rattle.std.specs.Prelude.{◌≡◌, [], IfOk};
    ghost use Rattle.stream_trait.specs.MemSink.{MemSinkState};

    /// An empty sink with room for so many bytes. The calls of `put` are counted from 0. One whose
    /// number is in `failing` fails, and so does one that would pass the room. One that fails
    /// takes no byte. The counts stay at `u64::MAX`.
    ///
    /// # Errors
    ///
    /// There is no memory for the room, or for the copy of `failing`.
    pub fn new(alloc: Global, room: u32, failing: &[u64]) -> Result<MemSink, AllocError>
        ensures { IfOk result (λ s.
            s ≡ record { taken = []; room = room; calls = 0; failing = failing.now; faults = 0 }) }
    {
        Ok(MemSink {
            bytes: Vec::with_capacity(alloc, room as usize)?,
            room,
            calls: 0,
            failing: failing.to_vec(alloc)?,
            faults: 0,
        })
    }

    /// The bytes that it has taken.
    pub fn bytes(&self) -> &[u8]
        ensures { result.now ≡ self.now.taken }
    {
        self.bytes.as_slice()
    }
}

impl Sink for MemSink {
    ghost use Rattle.std.specs.Prelude.{◌≡◌, ◌+◌, ◌<◌, ◌≤◌, ◌⊎◌, ◌↔◌, length, Some, IsTrue, IsErr, OnOk, OnErr};
    ghost use Rattle.lilo_model.specs.Faults.{Rose};
    ghost use Rattle.stream_trait.specs.Fault.{is_listed};
    ghost use Rattle.stream_trait.specs.Sink.{Takes, TakesFront};
    ghost use Rattle.stream_trait.specs.MemSink.{sink_after_taking, sink_after_failing};

    ghost taken = { λ s. Some s.taken };

    ghost faults = { λ s. s.faults };

    fn put(&mut self, bytes: &[u8]) -> Result<(), SinkFailed>
        ensures later { self.old.faults ≤ self.new.faults }
        ensures failed { OnErr result (Rose self.old.faults self.new.faults) }
        ensures ok { OnOk result (Takes (Some self.old.taken) bytes.now (Some self.new.taken)) }
        ensures uncounted { OnOk result (self.new.faults ≡ self.old.faults) }
        ensures front { OnErr result (TakesFront (Some self.old.taken) bytes.now (Some self.new.taken)) }

        // Exactly the calls in the list fail, and those that would pass the room.
        ensures fails { IsErr result ↔ (IsTrue (is_listed self.old.failing self.old.calls)
            ⊎ (self.old.room < length self.old.taken + length bytes.now)) }
        ensures took { OnOk result (self.new ≡ sink_after_taking self.old bytes.now) }
        ensures none { OnErr result (self.new ≡ sink_after_failing self.old) }
    {
        let fails = self.failing.contains(&self.calls);
        self.calls = self.calls.saturating_add(1);
        if fails || bytes.len() > self.room as usize - self.bytes.len() {
            self.faults = self.faults.saturating_add(1);
            return Err(SinkFailed);
        }
        self.bytes.extend_from_slice(bytes).unwrap();
        Ok(())
    }
}
