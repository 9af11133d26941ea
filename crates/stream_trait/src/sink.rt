// Where texts go.
ghost use Rattle.std.specs.Prelude.{◌≡◌, ℕ, ◌≤◌, List, Option, OnOk, OnErr};
ghost use Rattle.lilo_model.specs.Faults.{Rose};
ghost use Rattle.stream_trait.specs.Sink.{Takes, TakesFront};

/// A fault kept a sink from taking all of a text.
#[derive(Debug, PartialEq, Eq, Drop)]
pub struct SinkFailed;

/// Takes texts.
pub trait Sink {
    /// The bytes that it has taken, where they are known.
    ghost taken: { Self → Option (List ℕ) };

    /// How many faults there were.
    ghost faults: { Self → ℕ };

    /// Takes a text, which it appends to what it has taken. After a fault it has taken a prefix of
    /// the text, maybe none of it or all.
    fn put(&mut self, bytes: &[u8]) -> Result<(), SinkFailed>
        ensures later { faults self.old ≤ faults self.new }
        ensures failed { OnErr result (Rose (faults self.old) (faults self.new)) }
        ensures ok { OnOk result (Takes (taken self.old) bytes.now (taken self.new)) }
        ensures uncounted { OnOk result (faults self.new ≡ faults self.old) }
        ensures front { OnErr result (TakesFront (taken self.old) bytes.now (taken self.new)) };
}
