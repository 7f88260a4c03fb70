//! The lines of one order.
ghost use Rattle.std.specs.Prelude.{◌≡◌, ◌<◌, ◌≤◌, All, length, slice_get};
ghost use Rattle.std.specs.Option.{option_copied};
ghost use Rattle.row_store.specs.Keyed.{lines_at};

use ssb_schema::Line;
use std::marker::Model;

/// Where the lines of an order are held.
#[derive(Clone, Copy)]
enum HeldLines<'a> {
    /// At these positions of the loaded lines.
    Loaded(&'a [Line], &'a [u32]),
    /// As the lines of an action.
    Added(&'a [Line]),
}

/// The live lines of one order, in place. Contracts see them as a list.
#[derive(Drop)]
pub struct OrderLines<'a> {
    held: HeldLines<'a>,
}

impl<'a> Model for OrderLines<'a> {
    ghost use Rattle.std.specs.Prelude.{List};
    ghost use Rattle.ssb_schema.specs.declared.line.LineFields.{LineFields};
    ghost use Rattle.row_store.specs.OrderLines.{lines_held, IsHeld};

    ghost Value = { List LineFields };

    ghost view = { λ order. lines_held order.held };

    ghost invariant = { λ order. IsHeld order.held };
}

// The line at a place.
fn line_at(lines: &[Line], place: usize) -> Option<&Line>
    ensures { option_copied result ≡ slice_get lines.now place }
{
    lines.get(place)
}

// The line at a place of the list of positions.
fn loaded_line<'a>(lines: &'a [Line], positions: &[u32], place: usize) -> Option<&'a Line>
    requires { All (λ i. i < length lines.now) positions.now }
    ensures { option_copied result ≡ slice_get (lines_at lines.now positions.now) place }
{
    if place >= positions.len() {
        return None;
    }
    line_at(lines, positions[place] as usize)
}

impl<'a> OrderLines<'a> {
    pub(crate) fn loaded(lines: &'a [Line], positions: &'a [u32]) -> OrderLines<'a>
        requires within { All (λ i. i < length lines.now) positions.now }
        requires some { 1 ≤ length positions.now }
        requires few { length positions.now ≤ 7 }
        ensures { result ≡ lines_at lines.now positions.now }
    {
        OrderLines {
            held: HeldLines::Loaded(lines, positions),
        }
    }

    pub(crate) fn added(lines: &'a [Line]) -> OrderLines<'a>
        requires some { 1 ≤ length lines.now }
        requires few { length lines.now ≤ 7 }
        ensures { result ≡ lines.now }
    {
        OrderLines {
            held: HeldLines::Added(lines),
        }
    }

    /// How many lines the order has: 1 to 7.
    pub fn len(&self) -> usize
        ensures count { result ≡ length self.now }
        ensures range { (1 ≤ result) × (result ≤ 7) }
    {
        match self.held {
            HeldLines::Loaded(_, positions) => positions.len(),
            HeldLines::Added(lines) => lines.len(),
        }
    }

    /// The line at this place of the order, if there is one.
    pub fn get(&self, place: usize) -> Option<&Line>
        ensures { option_copied result ≡ slice_get self.now place }
    {
        match self.held {
            HeldLines::Loaded(lines, positions) => loaded_line(lines, positions, place),
            HeldLines::Added(lines) => line_at(lines, place),
        }
    }
}
