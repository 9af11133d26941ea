// Text that is put in large pieces.
ghost use Rattle.std.specs.Prelude.{◌≡◌, []};
ghost use Rattle.stream_trait.specs.Shows.{Shows, HasFailed};
ghost use Rattle.ldisk_run.specs.Pieces.{Held, sink_of, held_by, Adds};

use arrayvec::ArrayVec;
use stream_trait::{Shown, Sink};

/// Holds text until there is much of it, and then shows it.
#[derive(Drop)]
pub(crate) struct Pieces<'o, O: Sink> {
    pub(crate) out: Shown<'o, O>,
    pub(crate) held: ArrayVec<u8, 8192>,
}

impl<'o, O: Sink> Pieces<'o, O> {
    /// Nothing is held yet.
    pub(crate) fn new(out: Shown<'o, O>) -> Pieces<'o, O>
        ensures empty { result.held.items ≡ [] }
        ensures sink { result.out ≡ out.entry }
    {
        Pieces {
            out,
            held: ArrayVec::new(),
        }
    }

    /// Adds a text after what is held, which is shown first where there is no room for both.
    pub(crate) fn put(&mut self, bytes: &[u8])
        ensures adds { Adds (held_by O.Sink self.old) bytes.now (held_by O.Sink self.new) }
        ensures sink { HasFailed (sink_of O.Sink self.old) (sink_of O.Sink self.new) }
        ensures same_reference { self.new.out.out.ghost_name ≡ self.old.out.out.ghost_name }
    {
        if self.held.try_extend_from_slice(bytes).is_ok() {
            return;
        }
        self.show();
        if self.held.try_extend_from_slice(bytes).is_err() {
            self.out.put(bytes);
        }
    }

    /// Shows what is held.
    pub(crate) fn show(&mut self)
        ensures shown { Shows (sink_of O.Sink self.old) self.old.held.items (sink_of O.Sink self.new) }
        ensures empty { self.new.held.items ≡ [] }
        ensures same_reference { self.new.out.out.ghost_name ≡ self.old.out.out.ghost_name }
    {
        if self.held.is_empty() {
            return;
        }
        self.out.put(self.held.as_slice());
        self.held.clear();
    }
}
