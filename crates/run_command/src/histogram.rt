//! Times by number: a histogram of fixed size, so that keeping a time takes no memory.
//!
//! A time below 64 nanoseconds has a place of its own. Above, each power of two is cut into 32 equal parts, a place
//! each:
//!
//! ```text
//! 0 1 2 .. 63 | 64 66 68 .. 126 | 128 132 .. 252 | 256 264 ..
//!    by ones       by twos          by fours         by eights
//! ```
//!
//! So the greatest time of a place is at most 1/32 above the least, and any time of 64 bits has one of 1,920 places.
ghost use Rattle.std.specs.Prelude.{◌≡◌, ◌≤◌, ◌<◌, IfOk, IfErr, max};

use std::alloc::{AllocError, Global};

// The parts of a power of two are 2^5.
const PART_BITS: u32 = 5;

const PARTS: u64 = 1 << PART_BITS;

// The last place is that of a shift by 58, and of its highest 6 bits all ones: 58 * 32 + 63.
const PLACES: usize = 1920;

/// Numbers of nanoseconds: how often each place was met, all of them, and the greatest.
#[derive(Drop)]
pub(crate) struct Histogram {
    counts: Vec<u64>,
    count: u64,
    greatest: u64,
}

// How many low bits the place of a time forgets: all but the highest six.
fn shift_of(nanos: u64) -> u32
    ensures { result ≤ 58 }
{
    (63 - PART_BITS).saturating_sub(nanos.leading_zeros())
}

// The place of a time.
fn place_of(nanos: u64) -> usize {
    let shift = shift_of(nanos);
    (u64::from(shift) * PARTS).saturating_add(nanos >> shift) as usize
}

// The greatest time of a place.
fn end_of(place: usize) -> u64 {
    let place = place as u64;
    let shift = (place / PARTS).saturating_sub(1).min(58);
    let first = place.saturating_sub(shift * PARTS) << shift;
    first | ((1 << shift) - 1)
}

impl Histogram {
    /// No times.
    pub(crate) fn new(alloc: Global) -> Result<Histogram, AllocError>
        ensures { IfOk result (λ histogram. (histogram.count ≡ 0) × (histogram.greatest ≡ 0)) }
    {
        Ok(Histogram {
            counts: vec![in alloc; 0; PLACES]?,
            count: 0,
            greatest: 0,
        })
    }

    /// Counts a time.
    pub(crate) fn add(&mut self, nanos: u64)
        ensures greatest { self.new.greatest ≡ max self.old.greatest nanos }
    {
        if let Some(count) = self.counts.get_mut(place_of(nanos)) {
            *count = count.saturating_add(1);
        }
        self.count = self.count.saturating_add(1);
        self.greatest = self.greatest.max(nanos);
    }

    /// Counts the other's times too.
    pub(crate) fn merge(&mut self, other: &Histogram)
        ensures greatest { self.new.greatest ≡ max self.old.greatest other.now.greatest }
    {
        for (count, more) in self.counts.iter_mut().zip(other.counts.iter()) {
            *count = count.saturating_add(*more);
        }
        self.count = self.count.saturating_add(other.count);
        self.greatest = self.greatest.max(other.greatest);
    }

    /// How many times there are.
    pub(crate) fn count(&self) -> u64
        ensures { result ≡ self.now.count }
    {
        self.count
    }

    /// The greatest time.
    pub(crate) fn greatest(&self) -> u64
        ensures { result ≡ self.now.greatest }
    {
        self.greatest
    }

    /// A time that so many of a hundred don't pass: the greatest of the first place up to which there are as many, and
    /// never more than the greatest time.
    pub(crate) fn within(&self, percent: u64) -> u64
        ensures { result ≤ self.now.greatest }
    {
        let wanted = (u128::from(self.count) * u128::from(percent)).div_ceil(100);
        let mut met = 0u64;
        for (place, count) in self.counts.iter().enumerate() {
            met = met.saturating_add(*count);
            if u128::from(met) >= wanted {
                return end_of(place).min(self.greatest);
            }
        }
        self.greatest
    }
}
