//! The live lines in their places, found by the key of their order.
ghost use Rattle.std.specs.Prelude.{◌≡◌, ◌+◌, ◌<◌, ◌≤◌, ◌^◌, true, length};
ghost use Rattle.fact_columns.specs.Spans.{AreFree, Spanned};
ghost use Rattle.fact_columns.specs.Applied.{CanAdd, Added, Withdrawn, CanApply, Applied, CanApplyAll, AppliedAll};

use crate::action::added;
use crate::fact_table::FactTable;
use crate::hints::Hints;
use crate::place::Place;
use crate::placing::{are_free, free_order, put_all};
use crate::span::{Span, Spans, take_span, widen};
use crate::watch::Watch;
use ssb_schema::Action;

// Puts the lines of an order into places from the first on, and has its span cover them.
fn put_order<W: Watch>(
    table: &mut FactTable,
    spans: &mut Spans,
    watch: &mut W,
    first: usize,
    key: u64,
    lines: &[Place],
)
    requires can { CanAdd table.old spans.old key lines.now }
    requires within { first ≤ length table.old.places }
    requires behind { length spans.old.loaded.value ≤ first }
    requires small { first + length lines.now < 2 ^ 32 }
    requires free { AreFree table.old.places first (length lines.now) }
    ensures { Added W.follows watch.old watch.new table.old table.new spans.old spans.new lines.now }
{
    put_all(table, watch, first, lines);
    widen(
        spans,
        key,
        Span {
            first: first as u32,
            end: (first + lines.len()) as u32,
        },
    );
}

// Frees the places of an order. It answers where they may be, and how many lines went.
fn take_order<W: Watch>(
    table: &mut FactTable,
    spans: &mut Spans,
    watch: &mut W,
    key: u64,
) -> (Span, usize)
    requires { Spanned spans.old table.old.places }
    ensures { Withdrawn W.follows watch.old watch.new table.old table.new spans.old spans.new key result.1 }
{
    let span = take_span(spans, key);
    let freed = free_order(table, spans, watch, key, span);
    (span, freed)
}

// Whether so many lines may be put at a place.
fn is_wanted(table: &FactTable, first: usize, loaded: usize, count: usize) -> bool
    requires small { first < 2 ^ 32 }
    ensures within { result ≡ true → first ≤ length table.now.places }
    ensures behind { result ≡ true → loaded ≤ first }
    ensures free { result ≡ true → AreFree table.now.places first count }
{
    count <= 7 && loaded <= first && are_free(table, first, count)
}

// Where so many lines may be put: at a hint whose places are free, else behind the last place. No line is put among the
// loaded ones, so that those which questions look at together stay together.
fn wanted(table: &FactTable, hints: &mut Hints, loaded: usize, count: usize) -> usize
    requires behind { loaded ≤ length table.now.places }
    requires small { length table.now.places + count < 2 ^ 32 }
    ensures within { result ≤ length table.now.places }
    ensures behind { loaded ≤ result }
    ensures free { AreFree table.now.places result count }
{
    match hints.take(count) {
        Some(first) if is_wanted(table, first as usize, loaded, count) => first as usize,
        _ => table.len(),
    }
}

// Puts an order where there is room for it.
fn add<W: Watch>(
    table: &mut FactTable,
    spans: &mut Spans,
    hints: &mut Hints,
    watch: &mut W,
    key: u64,
    lines: &[Place],
)
    requires { CanAdd table.old spans.old key lines.now }
    ensures { Added W.follows watch.old watch.new table.old table.new spans.old spans.new lines.now }
{
    let first = wanted(table, hints, spans.loaded(), lines.len());
    put_order(table, spans, watch, first, key, lines);
}

// Takes an order out, and answers how many lines it had.
fn withdraw<W: Watch>(
    table: &mut FactTable,
    spans: &mut Spans,
    hints: &mut Hints,
    watch: &mut W,
    key: u64,
) -> usize
    requires { Spanned spans.old table.old.places }
    ensures { Withdrawn W.follows watch.old watch.new table.old table.new spans.old spans.new key result }
{
    let (span, freed) = take_order(table, spans, watch, key);
    // Places of loaded lines are never taken again, and where an order was added twice its span is not all free.
    if span.first as usize >= spans.loaded()
        && span.end.saturating_sub(span.first) as usize == freed
    {
        hints.offer(span);
    }
    freed
}

// Does what the action says; these are the lines that it adds, in codes. It answers how many lines went.
fn apply_action<W: Watch>(
    table: &mut FactTable,
    spans: &mut Spans,
    hints: &mut Hints,
    watch: &mut W,
    action: &Action,
    lines: &[Place],
) -> usize
    requires { CanApply table.old spans.old action.now lines.now }
    ensures { Applied W.follows watch.old watch.new table.old table.new spans.old spans.new action.now lines.now
        result }
{
    match action {
        Action::Add(order) => {
            add(table, spans, hints, watch, order.key(), lines);
            0
        }
        Action::Amend(order) | Action::Put(order) => {
            let freed = withdraw(table, spans, hints, watch, order.key());
            add(table, spans, hints, watch, order.key(), lines);
            freed
        }
        Action::Withdraw(key) => withdraw(table, spans, hints, watch, *key),
    }
}

/// Does what the actions say; these are the lines that they add, in codes. It answers how many lines went.
pub fn apply_actions<W: Watch>(
    table: &mut FactTable,
    spans: &mut Spans,
    hints: &mut Hints,
    watch: &mut W,
    actions: &[Action],
    fresh: &[Place],
) -> usize
    requires { CanApplyAll table.old spans.old actions.now fresh.now }
    ensures { AppliedAll W.follows watch.old watch.new table.old table.new spans.old spans.new actions.now fresh.now result }
{
    let mut rest = fresh;
    let mut freed = 0;
    for action in actions {
        let (lines, later) = rest.split_at(added(action).len());
        freed += apply_action(table, spans, hints, watch, action, lines);
        rest = later;
    }
    freed
}
