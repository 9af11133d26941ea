// Lists of numbers.
use std::marker::Model;

/// Numbers, in order. To a contract it is the list of them.
#[derive(Drop)]
pub struct NumberList {
    numbers: Vec<u32>,
}

impl Model for NumberList {
    ghost use Rattle.std.specs.Prelude.{ℕ, List};

    ghost Value = { List ℕ };

    ghost view = { λ list. list.numbers.items };
}

impl NumberList {
    ghost use Rattle.std.specs.Prelude.{◌≡◌};

    /// The list of these.
    pub fn new(items: Vec<u32>) -> NumberList
        ensures { result ≡ items.items }
    {
        NumberList { numbers: items }
    }

    /// Its numbers.
    pub fn items(&self) -> &[u32]
        ensures { result.now ≡ self.now }
    {
        self.numbers.as_slice()
    }
}
