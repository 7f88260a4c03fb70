//! Where the lines of an order lie.
ghost use Rattle.std.specs.Prelude.{◌≡◌, ◌<◌, ◌≤◌, ◌+◌, ◌^◌, ℕ, OnOk, OnErr, IfOk, length, nat_eq};
ghost use Rattle.std.specs.HashMap.{get, spare};
ghost use Rattle.fact_columns.specs.Spans.{Covers, HasNumber, Reaches, ReachesBy, place_of};

use ssb_schema::Items;
use std::alloc::{AllocError, Global};
use std::collections::HashMap;
use std::hash::RandomState;
use std::sync::Arc;

/// The numbers from the first up to, and without, the end. A loaded line has its number in the base; a line that was
/// added has the number of its place.
#[derive(Clone, Copy, Debug)]
pub struct Span {
    pub first: u32,
    pub end: u32,
}

/// The span of each order, by its key.
pub type SpansByKey = HashMap<u64, Span, RandomState>;

/// The span of each order, by its key, and the place of each loaded line, by its number.
pub struct Spans {
    pub by_key: SpansByKey,
    pub loaded: Arc<Items<u32>>,
}

impl Drop for Spans {
    fn drop(self) {
        let Spans {
            by_key: _,
            loaded: _,
        } = self;
    }
}

impl Spans {
    /// Takes memory for so many orders more.
    pub fn reserve(&mut self, count: usize) -> Result<(), AllocError>
        ensures room { OnOk result (count ≤ spare self.new.by_key) }
        ensures reaches { (order place : ℕ) → Reaches self.old order place → Reaches self.new order place }
        ensures loaded { self.new.loaded.value ≡ self.old.loaded.value }
    {
        self.by_key.reserve(count)
    }

    /// How many lines were loaded: their places are the first.
    pub fn loaded(&self) -> usize
        ensures { result ≡ length self.now.loaded.value }
    {
        let loaded: &Items<u32> = &self.loaded;
        loaded.len()
    }

    /// The place of the line of a number.
    #[inline(always)]
    pub fn place_of(&self, number: usize) -> usize
        ensures { result ≡ place_of self.now.loaded.value number }
    {
        let loaded: &Items<u32> = &self.loaded;
        match loaded.get(number) {
            Some(place) => *place as usize,
            None => number,
        }
    }

    /// The same spans.
    pub fn copy(&self) -> Result<Spans, AllocError>
        ensures reaches { IfOk result (λ copy. (order place : ℕ) → Reaches self.now order place
            → Reaches copy order place) }
        ensures loaded { IfOk result (λ copy. copy.loaded.value ≡ self.now.loaded.value) }
    {
        Ok(Spans {
            by_key: self.by_key.clone()?,
            loaded: Arc::try_clone(&self.loaded)?,
        })
    }
}

// The span that has the numbers of both.
fn hull(span: Span, other: Span) -> Span
    ensures one { (number : ℕ) → HasNumber span number → HasNumber result number }
    ensures two { (number : ℕ) → HasNumber other number → HasNumber result number }
{
    Span {
        first: span.first.min(other.first),
        end: span.end.max(other.end),
    }
}

/// Has the span of the order cover these numbers too. There is room for one order more. An order that is not there yet,
/// as in every commit that is accepted, is looked up once.
pub fn widen_by_key(by_key: &mut SpansByKey, key: u64, span: Span)
    requires room { 0 < spare by_key.old }
    ensures own { (number : ℕ) → HasNumber span number → Covers (get nat_eq by_key.new key) number }
    ensures grows { (order number : ℕ) → Covers (get nat_eq by_key.old order) number
        → Covers (get nat_eq by_key.new order) number }
    ensures room { spare by_key.old ≤ spare by_key.new + 1 }
{
    if let Ok(Some(earlier)) = by_key.insert(key, span) {
        if let Some(own) = by_key.get_mut(&key) {
            *own = hull(earlier, span);
        }
    }
}

/// Has the span of the order cover these places too, none of which is a loaded line's. There is room for one order
/// more.
pub fn widen(spans: &mut Spans, key: u64, span: Span)
    requires room { 0 < spare spans.old.by_key }
    requires behind { length spans.old.loaded.value ≤ span.first }
    ensures own { (place : ℕ) → span.first ≤ place → place < span.end → Reaches spans.new key place }
    ensures grows { (order place : ℕ) → Reaches spans.old order place → Reaches spans.new order place }
    ensures loaded { spans.new.loaded.value ≡ spans.old.loaded.value }
    ensures room { spare spans.old.by_key ≤ spare spans.new.by_key + 1 }
{
    widen_by_key(&mut spans.by_key, key, span);
}

/// Takes out the span of the order; an empty one where it has none.
pub fn take_span(spans: &mut Spans, key: u64) -> Span
    ensures covers { (place : ℕ) → Reaches spans.old key place → ReachesBy result spans.old.loaded.value place }
    ensures others { (order place : ℕ) → (order ≡ key → ⊥) → Reaches spans.old order place
        → Reaches spans.new order place }
    ensures loaded { spans.new.loaded.value ≡ spans.old.loaded.value }
    ensures room { spare spans.old.by_key ≤ spare spans.new.by_key }
{
    match spans.by_key.remove(&key) {
        Some(span) => span,
        None => Span { first: 0, end: 0 },
    }
}
