//! The loaded orders: an index of the loaded lines in the order of their keys, and each order's run in it.
ghost use Rattle.std.specs.Prelude.{◌≡◌, ◌≢◌, ◌<◌, ◌≤◌, ◌^◌, ℕ, All, length, nat_eq, slice_index, None, IfOk};
ghost use Rattle.std.specs.Prelude.{OnOk};
ghost use Rattle.std.specs.List.{range_with_len};
ghost use Rattle.std.specs.List.Sorted.{IsNonDecreasingBy};
ghost use Rattle.std.specs.HashMap.{get};
ghost use Rattle.ssb_schema.specs.Rows.{IsWithinLimits};
ghost use Rattle.row_store.specs.Lines.{lines_of};
ghost use Rattle.row_store.specs.Keyed.{Located, key_at, lines_at};

use crate::place::{OrderPlace, OrderPlaces, Source};
use ssb_schema::Line;
use std::alloc::{AllocError, Global};

// The order key of the line at a position.
fn key_at(lines: &[Line], position: u32) -> u64
    ensures { result ≡ key_at lines.now position }
{
    lines
        .get(position as usize)
        .map_or(0, |line| line.order_key())
}

// It does nothing: a line tells that its values are within their limits where its fact is read.
pub(crate) fn look_through(lines: &[Line])
    ensures { All IsWithinLimits lines.now }
{
    for line in lines {
        let _fact = line.fact();
    }
}

// The positions below a number.
fn positions(alloc: Global, count: u32) -> Result<Vec<u32>, AllocError>
    ensures { IfOk result (λ positions. positions.items ≡ range_with_len 0 count) }
{
    (0..count).collect(alloc)
}

// The positions of the lines in the order of their keys. Lines of one key keep their order.
pub(crate) fn index_of(alloc: Global, lines: &[Line]) -> Result<Vec<u32>, AllocError>
    requires { length lines.now < 2 ^ 32 }
    ensures within { IfOk result (λ index. All (λ i. i < length lines.now) index.items) }
    ensures sorted { IfOk result (λ index. IsNonDecreasingBy (key_at lines.now) index.items) }
    ensures same { IfOk result (λ index. (key : ℕ) → lines_of key (lines_at lines.now index.items) ≡ lines_of key
        lines.now) }
    ensures len { IfOk result (λ index. length index.items ≡ length lines.now) }
{
    let mut index = positions(alloc, lines.len() as u32)?;
    index.sort_by_key(|position| key_at(lines, *position))?;
    Ok(index)
}

// Where the run of one key that begins here ends.
fn run_end(lines: &[Line], index: &[u32], first: usize) -> usize
    requires { first < length index.now }
    ensures later { first < result }
    ensures within { result ≤ length index.now }
    ensures alike { (k : ℕ) → first ≤ k → k < result
        → key_at lines.now (slice_index index.now k) ≡ key_at lines.now (slice_index index.now first) }
    ensures ends { result < length index.now
        → key_at lines.now (slice_index index.now result) ≢ key_at lines.now (slice_index index.now first) }
{
    let key = key_at(lines, index[first]);
    let mut end = first + 1;
    while end < index.len() && key_at(lines, index[end]) == key {
        end += 1;
    }
    end
}

// Puts each run of the index into the orders by key, of which there are none yet.
pub(crate) fn place_runs(
    orders: &mut OrderPlaces,
    lines: &[Line],
    index: &[u32],
) -> Result<(), AllocError>
    requires few { length index.now < 2 ^ 32 }
    requires within { All (λ i. i < length lines.now) index.now }
    requires sorted { IsNonDecreasingBy (key_at lines.now) index.now }
    requires orders { (key : ℕ) → length (lines_of key (lines_at lines.now index.now)) ≤ 7 }
    requires empty { (key : ℕ) → get nat_eq orders.old key ≡ None }
    ensures { OnOk result (Located (record { loaded = lines.now; index = index.now }) (get nat_eq orders.new)
        (lines_at lines.now index.now)) }
{
    let mut first = 0;
    while first < index.len() {
        let end = run_end(lines, index, first);
        let key = key_at(lines, index[first]);
        let place = OrderPlace {
            lines: (end - first) as u32,
            source: Source::Loaded(first as u32),
        };
        orders.insert(key, place)?;
        first = end;
    }
    Ok(())
}
