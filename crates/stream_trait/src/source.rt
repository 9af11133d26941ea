// Where bytes come from, one at a time or several.
ghost use Rattle.std.specs.Prelude.{◌≡◌, ℕ, ◌<◌, ◌≤◌, ◌↔◌, List, Bool, Option, length, true, IsTrue};
ghost use Rattle.lilo_model.specs.Faults.{Rose};

/// What a source answers.
#[derive(Clone, Copy, Debug, PartialEq, Eq)]
pub enum Next {
    /// The next byte.
    Got(u8),
    /// There is none, and there will be none.
    End,
    /// A fault kept the source from answering. The next call may succeed.
    Failed,
}

/// What a source answers where it is asked for several bytes.
#[derive(Clone, Copy, Debug, PartialEq, Eq)]
pub enum Taken {
    /// So many, at least one.
    Got(usize),
    /// There is none, and there will be none.
    End,
    /// A fault kept the source from answering. The next call may succeed.
    Failed,
}

/// Gives bytes, one at a time or several.
pub trait Source {
    ghost use Rattle.stream_trait.specs.Source.{Gives, GivesMany};

    /// The bytes that are left, where they are known.
    ghost left: { Self → Option (List ℕ) };

    /// How many bytes it can still give, at most.
    ghost can_give: { Self → ℕ };

    /// Whether the last call answered `End`.
    ghost ended: { Self → Bool };

    /// How many faults there were.
    ghost faults: { Self → ℕ };

    /// Takes the next byte. A call that answers `Failed` takes none, and the next call may succeed.
    /// After an `End` each call answers `End`.
    fn next_byte(&mut self) -> Next
        ensures later { faults self.old ≤ faults self.new }
        ensures failed { result ≡ Next.Failed → Rose (faults self.old) (faults self.new) }

        ensures gives { Gives (left self.old) result (left self.new) }
        ensures fewer { (byte : ℕ) → result ≡ Next.Got byte → can_give self.new < can_give self.old }
        ensures no_more { can_give self.new ≤ can_give self.old }

        ensures end { IsTrue (ended self.new) ↔ (result ≡ Next.End) }
        ensures stays { IsTrue (ended self.old) → (result ≡ Next.End) × (faults self.new ≡ faults self.old)
            × (left self.new ≡ left self.old) };

    /// Takes the next bytes into the beginning of `into`: at least one of those that come next, and at most
    /// as many as there is room for. It may take fewer than are left. A call that answers `Failed` takes
    /// none, and the next call may succeed. After an `End` each call answers `End`.
    fn next_bytes(&mut self, into: &mut [u8]) -> Taken
        requires room { 0 < length into.old }

        ensures later { faults self.old ≤ faults self.new }
        ensures failed { result ≡ Taken.Failed → Rose (faults self.old) (faults self.new) }

        ensures some { (count : ℕ) → result ≡ Taken.Got count → (0 < count) × (count ≤ length into.new) }
        ensures length { length into.new ≡ length into.old }
        ensures gives { GivesMany (left self.old) result into.new (left self.new) }
        ensures fewer { (count : ℕ) → result ≡ Taken.Got count → can_give self.new < can_give self.old }
        ensures no_more { can_give self.new ≤ can_give self.old }

        ensures end { IsTrue (ended self.new) ↔ (result ≡ Taken.End) }
        ensures stays { IsTrue (ended self.old) → (result ≡ Taken.End) × (faults self.new ≡ faults self.old)
            × (left self.new ≡ left self.old) };
}
