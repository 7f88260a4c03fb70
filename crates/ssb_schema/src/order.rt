//! Orders: one to seven lines of one key.

ghost use Rattle.std.specs.Prelude.{◌≡◌, IfOk, IfErr, None, [], nat_eq};
ghost use Rattle.std.specs.List.{list_all, list_any};
ghost use Rattle.ssb_schema.specs.Orders.{order_key, order_fault, repeated_number, IsOrder};
ghost use Rattle.ssb_schema.specs.FirstFault.{rows_fault};
ghost use Rattle.ssb_schema.specs.Refusals.{fault_of};

use crate::fault::{Refused, SchemaFault};
use crate::line::Line;
use std::marker::Model;

/// The most lines of an order.
pub const MOST_ORDER_LINES: usize = 7;

/// The lines of one order: one to seven, of one order key, with distinct line numbers. Contracts see the list of lines.
pub struct Order {
    lines: Vec<Line>,
}

impl Drop for Order {
    fn drop(self) {
        let Order { lines: _ } = self;
    }
}

impl Model for Order {
    ghost use Rattle.std.specs.Prelude.{◌≡◌, List, None};
    ghost use Rattle.ssb_schema.specs.declared.line.LineFields.{LineFields};
    ghost use Rattle.ssb_schema.specs.Orders.{order_fault};

    ghost Value = { List LineFields };

    ghost view = { λ order. order.lines.items };

    ghost invariant = { λ order. order_fault order.lines.items ≡ None };
}

// Whether some line has the number.
fn has_number(lines: &[Line], number: u8) -> bool
    ensures { result ≡ list_any (λ line. nat_eq line.line_number number) lines.now }
{
    lines.iter().any(|line| line.line_number() == number)
}

// Whether each line is of the order.
fn are_of(lines: &[Line], key: u64) -> bool
    ensures { result ≡ list_all (λ line. nat_eq line.order_key key) lines.now }
{
    lines.iter().all(|line| line.order_key() == key)
}

// The first line whose number an earlier line has.
fn first_repeated(lines: &[Line]) -> Option<SchemaFault>
    ensures { result ≡ rows_fault repeated_number [] lines.now }
{
    for (i, line) in lines.iter().enumerate() {
        let number = line.line_number();
        if has_number(&lines[..i], number) {
            return Some(SchemaFault::LineRepeated(number));
        }
    }
    None
}

// The first fault of an order of these lines.
fn fault(lines: &[Line]) -> Option<SchemaFault>
    ensures { result ≡ order_fault lines.now }
{
    let Some(first) = lines.first() else {
        return Some(SchemaFault::NoLines);
    };
    if lines.len() > MOST_ORDER_LINES {
        return Some(SchemaFault::TooManyLines);
    }
    let key = first.order_key();
    if !are_of(lines, key) {
        return Some(SchemaFault::KeysDiffer);
    }
    first_repeated(lines)
}

impl Order {
    /// An order of these lines, or its first fault with the lines: none, more than seven, several order keys, a
    /// repeated line number.
    pub fn new(lines: Vec<Line>) -> Result<Order, Refused<Vec<Line>>>
        ensures fault { fault_of result ≡ order_fault lines.items }
        ensures lines { IfOk result (λ order. order ≡ lines.items) }
        ensures back { IfErr result (λ refused. refused.back ≡ lines) }
    {
        match fault(&lines) {
            Some(fault) => Err(Refused { fault, back: lines }),
            None => Ok(Order { lines }),
        }
    }

    /// The schema finds no fault in any order. The law alone: it does nothing.
    pub fn soundness(&self)
        ensures { order_fault self.now ≡ None }
    {
        let _lines = &self.lines;
    }

    /// The order key of the lines.
    pub fn key(&self) -> u64
        ensures { result ≡ order_key self.now }
    {
        self.lines[0].order_key()
    }

    /// The lines.
    pub fn lines(&self) -> &[Line]
        ensures lines { result.now ≡ self.now }
        ensures order { IsOrder self.now }
    {
        self.lines.as_slice()
    }
}
