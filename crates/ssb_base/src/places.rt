//! Where the rows of a dimension stand, by key.

ghost use Rattle.std.specs.Prelude.{◌≡◌, ◌<◌, ◌≤◌, ◌-◌, ◌^◌, ℕ, true, not, cond, nat_eq, length, None, Some, is_some, IfOk};
ghost use Rattle.ssb_base.specs.Bits.{room};

use crate::bits::Bits;
use std::alloc::{AllocError, Global};
use std::collections::HashMap;

/// The place of each key among the rows. The keys of most dimensions lie close together, as they are counted from 1:
/// those from a first one on stand in an array, and others in a map.
#[derive(Drop)]
pub struct Places {
    first: u64,
    // Whether the key `first + i` has a place. Apart from the places, since a refresh asks for no more than this: at a
    // bit a key it stays in a processor's own cache.
    known: Bits,
    // The place of the key `first + i`, where it has one.
    near: Vec<u32>,
    far: HashMap<u64, usize>,
    ghost covered: { length near.items ≤ room known },
}

impl Places {
    ghost use Rattle.ssb_base.specs.Places as spec;
    ghost use Rattle.ssb_base.specs.Places.{place_in};

    /// No key has a place. The array takes so many keys from the first one on.
    pub fn new(alloc: Global, first: u64, count: usize) -> Result<Places, AllocError>
        ensures { IfOk result (λ places. (k : ℕ) → place_in places k ≡ None) }
    {
        Ok(Places {
            first,
            known: Bits::new(alloc, count)?,
            near: Vec::from_elem(alloc, 0u32, count)?,
            far: HashMap::new(alloc),
        })
    }

    // Where the array has the key, if it takes it.
    #[inline(always)]
    fn near_index(&self, key: u64) -> Option<usize>
        ensures { result ≡ spec.near_index self.now key }
    {
        if key < self.first {
            return None;
        }
        let behind = key - self.first;
        if behind < self.near.len() as u64 {
            Some(behind as usize)
        } else {
            None
        }
    }

    /// Whether a key has a place.
    #[inline]
    pub fn contains(&self, key: u64) -> bool
        ensures { result ≡ is_some (place_in self.now key) }
    {
        match self.near_index(key) {
            Some(i) => self.known.has(i),
            None => self.far.contains_key(&key),
        }
    }

    /// The place of a key, if it has one.
    #[inline]
    pub fn get(&self, key: u64) -> Option<usize>
        ensures { result ≡ place_in self.now key }
    {
        match self.near_index(key) {
            Some(i) if self.known.has(i) => Some(self.near[i] as usize),
            Some(_) => None,
            None => self.far.get(&key).copied(),
        }
    }

    /// Gives a key its place, and answers whether it had none. Where it had one, nothing is said of the places then.
    pub fn insert(&mut self, key: u64, place: usize) -> Result<bool, AllocError>
        requires { place < 2 ^ 32 }
        ensures fresh { IfOk result (λ fresh. fresh ≡ not (is_some (place_in self.old key))) }
        ensures updated { IfOk result (λ fresh. fresh ≡ true → (q : ℕ)
            → place_in self.new q ≡ cond (nat_eq key q) (Some place) (place_in self.old q)) }
    {
        match self.near_index(key) {
            Some(i) => {
                if self.known.has(i) {
                    return Ok(false);
                }
                self.known.insert(i);
                self.near[i] = place as u32;
                Ok(true)
            }
            None => Ok(self.far.insert(key, place)?.is_none()),
        }
    }
}
