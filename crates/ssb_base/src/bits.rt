//! Sets of numbers, a bit for each.

ghost use Rattle.std.specs.Prelude.{◌≡◌, ◌<◌, ◌≤◌, ℕ, true, false, cond, nat_eq, IfOk};

use std::alloc::{AllocError, Global};

/// A set of numbers below a bound, a bit for each, 64 to a word.
#[derive(Drop)]
pub struct Bits {
    words: Vec<u64>,
}

impl Bits {
    ghost use Rattle.ssb_base.specs.Bits.{has, room};

    /// The empty set, with room for the numbers below a count.
    pub fn new(alloc: Global, count: usize) -> Result<Bits, AllocError>
        ensures empty { IfOk result (λ bits. (i : ℕ) → has bits i ≡ false) }
        ensures room { IfOk result (λ bits. count ≤ room bits) }
    {
        let words = Vec::from_elem(alloc, 0u64, count / 64 + 1)?;
        Ok(Bits { words })
    }

    /// Whether a number is in the set.
    #[inline(always)]
    pub fn has(&self, number: usize) -> bool
        requires { number < room self.now }
        ensures { result ≡ has self.now number }
    {
        (self.words[number / 64] >> (number % 64)) & 1 == 1
    }

    /// Adds a number to the set.
    pub fn insert(&mut self, number: usize)
        requires { number < room self.old }
        ensures set { (i : ℕ) → has self.new i ≡ cond (nat_eq number i) true (has self.old i) }
        ensures room { room self.new ≡ room self.old }
    {
        self.words[number / 64] |= 1 << (number % 64);
    }
}
