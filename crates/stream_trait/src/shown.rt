// Texts that are shown on a sink that may fail.
ghost use Rattle.std.specs.Prelude.{◌≡◌, false};
ghost use Rattle.stream_trait.specs.Shows.{SinkState, Shows, sink_of, answer_of};

use crate::sink::Sink;

/// Where texts are shown. Until the sink fails, all of them are put in order; after that nothing is put.
#[derive(Drop)]
pub struct Shown<'o, O: Sink> {
    pub(crate) out: &'o mut O,
    pub(crate) failed: bool,
}

impl<'o, O: Sink> Shown<'o, O> {
    /// Shows texts on a sink that didn't fail yet.
    pub fn new(out: &'o mut O) -> Shown<'o, O>
        ensures fresh { result.failed ≡ false }
        ensures sink { result.out ≡ out.entry }
    {
        Shown { out, failed: false }
    }

    /// Shows a text, unless the sink has refused one.
    pub fn put(&mut self, bytes: &[u8])
        ensures shown { Shows (sink_of O.Sink self.old) bytes.now (sink_of O.Sink self.new) }
        ensures same_reference { self.new.out.ghost_name ≡ self.old.out.ghost_name }
    {
        if !self.failed {
            self.failed = self.out.put(bytes).is_err();
        }
    }

    /// Whether the sink has refused a text.
    pub fn failed(&self) -> bool
        ensures { result ≡ self.now.failed }
    {
        self.failed
    }
}

/// The exit status of a program whose sink may have refused a text: 12 in the place of 0.
pub fn answer(status: u8, sink_failed: bool) -> u8
    ensures { result ≡ answer_of status sink_failed }
{
    if status == 0 && sink_failed {
        12
    } else {
        status
    }
}
