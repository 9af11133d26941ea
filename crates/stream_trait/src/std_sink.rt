// A sink over a writer of std.
ghost use Rattle.std.specs.Prelude.{OnOk};
ghost use Rattle.std.specs.Io.KnownBytes.{Appends};

use crate::sink::{Sink, SinkFailed};
use std::io::Write;
use std::marker::Model;

/// Writes texts to a writer, and flushes it after each. As a `Sink` it reports nothing of what it has
/// taken, since a writer may take more than it says.
///
/// A write or a flush that fails is a fault, also one that was interrupted, and so is a write that
/// takes nothing of a text that is not empty. The count of faults stays at `u64::MAX`.
#[derive(Drop)]
pub struct StdSink<W: Write + Drop> {
    writer: W,
    faults: u64,
}

impl<W: Write + Drop> Model for StdSink<W> {
    ghost use Rattle.stream_trait.specs.StdSink.{StdSinkState};

    ghost Value = { StdSinkState };

    ghost view = { λ s. record { written = W.contents s.writer; faults = s.faults } };
}

impl<W: Write + Drop> StdSink<W> {
    ghost use Rattle.std.specs.Prelude.{◌≡◌};

    /// A sink that writes to this writer.
    pub fn new(writer: W) -> StdSink<W>
        ensures { result ≡ record { written = W.contents writer; faults = 0 } }
    {
        StdSink { writer, faults: 0 }
    }
}

impl<W: Write + Drop> Sink for StdSink<W> {
    ghost use Rattle.std.specs.Prelude.{◌≡◌, ◌≤◌, None, OnOk, OnErr};
    ghost use Rattle.std.specs.Io.KnownBytes.{Appends};
    ghost use Rattle.lilo_model.specs.Faults.{Rose};
    ghost use Rattle.stream_trait.specs.Fault.{count_after};
    ghost use Rattle.stream_trait.specs.Sink.{Takes, TakesFront};

    ghost taken = { λ _. None };

    ghost faults = { λ s. s.faults };

    fn put(&mut self, bytes: &[u8]) -> Result<(), SinkFailed>
        ensures later { self.old.faults ≤ self.new.faults }
        ensures failed { OnErr result (Rose self.old.faults self.new.faults) }

        // Where the writer reports its bytes, they grow by the text. The count rises at a fault alone.
        ensures written { OnOk result (Appends self.old.written self.new.written bytes.now) }
        ensures none { OnOk result (self.new.faults ≡ self.old.faults) }
        ensures one { OnErr result (self.new.faults ≡ count_after self.old.faults) }
    {
        let written = write_whole(&mut self.writer, bytes);
        if written.is_err() {
            self.faults = self.faults.saturating_add(1);
        }
        written
    }
}

// Writes a text and flushes it. std's `write_all` goes on after an interruption, for as long as
// they come.
fn write_whole<W: Write>(writer: &mut W, bytes: &[u8]) -> Result<(), SinkFailed>
    ensures { OnOk result (Appends (W.contents writer.old) (W.contents writer.new) bytes.now) }
{
    let mut rest = bytes;
    while !rest.is_empty() {
        match writer.write(rest) {
            Ok(count) if count > 0 => rest = &rest[count..],
            _ => return Err(SinkFailed),
        }
    }
    writer.flush().map_err(|_| SinkFailed)
}
