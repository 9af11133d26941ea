// Sets of numbers.
use crate::bits::{has_bit, put_bit};
use std::alloc::{AllocError, Global};
use std::marker::Model;

/// A set of numbers below a bound, a bit for each. To a contract it is the bound and the list of its numbers, in
/// rising order.
#[derive(Drop)]
pub struct NumberSet {
    below: u32,
    bytes: Vec<u8>,
}

impl Model for NumberSet {
    ghost use Rattle.std.specs.Prelude.{◌≤◌, ◌*◌, length};
    ghost use Rattle.minix_steps.specs.Numbers.{Numbers, numbers_in};

    ghost Value = { Numbers };

    ghost view = { λ set. record { below = set.below; numbers = numbers_in set.bytes.items set.below } };

    ghost invariant = { λ set. set.below ≤ 8 * length set.bytes.items };
}

impl NumberSet {
    ghost use Rattle.std.specs.Prelude.{◌≡◌, ◌<◌, ◌↔◌, [], All, Contains, IfOk, IsTrue};
    ghost use Rattle.std.specs.List.Sorted.{IsStrictlyIncreasing};
    ghost use Rattle.minix_steps.specs.Numbers.{has_number, with_number};

    /// The empty set, for numbers below a bound.
    ///
    /// # Errors
    ///
    /// There is no memory for it.
    pub fn new(alloc: Global, below: u32) -> Result<NumberSet, AllocError>
        ensures { IfOk result (λ set. set ≡ record { below = below; numbers = [] }) }
    {
        let bytes = vec![in alloc; 0u8; (below as usize).div_ceil(8)]?;
        Ok(NumberSet { below, bytes })
    }

    /// The bound: each of its numbers is below it.
    pub fn below(&self) -> u32
        ensures value { result ≡ self.now.below }
        ensures inside { All (λ n. n < self.now.below) self.now.numbers }
        ensures rising { IsStrictlyIncreasing self.now.numbers }
    {
        self.below
    }

    /// Whether a number is in it.
    pub fn has(&self, n: u32) -> bool
        requires { n < self.now.below }
        ensures value { result ≡ has_number self.now.numbers n }
        ensures contains { IsTrue result ↔ Contains self.now.numbers n }
    {
        has_bit(&self.bytes, n as usize)
    }

    /// Adds a number, if it isn't in it.
    pub fn add(&mut self, n: u32)
        requires { n < self.old.below }
        ensures added { self.new ≡ record self.old { numbers = with_number self.old.numbers n } }
        ensures inside { All (λ n. n < self.new.below) self.new.numbers }
        ensures rising { IsStrictlyIncreasing self.new.numbers }
    {
        put_bit(&mut self.bytes, n as usize, true);
    }
}
