//! What is wrong with a refresh that was refused.

use crate::lines::write_line;
use crate::rows::key_column;
use ssb_schema::{Action, Column, Line, Order, Refresh, Table};
use std::io::Write;
use std::{fmt, io};

/// Help about a refusal.
#[derive(Clone, Copy)]
pub enum RefusalHelp {
    /// The number of the action that is refused, its word, and the key of its order.
    Action(usize, &'static str, u64),
    /// The number of an action before it on the same order, and its word.
    Earlier(usize, &'static str),
    /// The key of an order to add, which is live.
    Present(u64),
    /// The number of a line of the order, and the key that it has in this column.
    Line(u8, Column, u64),
    /// The table that lacks a row of some line's key.
    NoRow(Table),
    /// How many lines the order has, for which there is no room.
    LinesFull(usize),
    /// The key of an order to withdraw, which is not live.
    Absent(u64),
    /// The key of an order to amend, which is not live.
    AmendAbsent(u64),
}

impl fmt::Display for RefusalHelp {
    fn fmt<W: fmt::Write>(&self, f: &mut fmt::Formatter<W>) -> fmt::Result {
        match self {
            RefusalHelp::Action(number, word, key) => {
                write!(f, "action {number} is {word} of order {key}")
            }
            RefusalHelp::Earlier(number, word) => {
                write!(f, "action {number} before it is {word} of the same order")
            }
            RefusalHelp::Present(key) => write!(
                f,
                "order {key} is live already; amend or put it, or withdraw it first"
            ),
            RefusalHelp::Line(number, column, key) => write!(f, "line {number} has {column} {key}"),
            RefusalHelp::NoRow(table) => write!(
                f,
                "{table} has no row of at least one of these keys; its rows are those of the load"
            ),
            RefusalHelp::LinesFull(count) => write!(
                f,
                "there is no room for its {count} lines; withdraw orders first"
            ),
            RefusalHelp::Absent(key) => write!(
                f,
                "order {key} is not live; there is nothing to withdraw"
            ),
            RefusalHelp::AmendAbsent(key) => write!(f, "order {key} is not live; add or put it"),
        }
    }
}

// The word that begins an action.
fn word_of(action: &Action) -> &'static str {
    match action {
        Action::Add(_) => "add",
        Action::Amend(_) => "amend",
        Action::Put(_) => "put",
        Action::Withdraw(_) => "withdraw",
    }
}

// The key of an action's order.
fn key_of(action: &Action) -> u64 {
    match action {
        Action::Add(order) => order.key(),
        Action::Amend(order) => order.key(),
        Action::Put(order) => order.key(),
        Action::Withdraw(key) => *key,
    }
}

// The key that a line has of a row of this dimension.
fn key_in(line: &Line, dimension: Table) -> u64 {
    match dimension {
        Table::Customer => line.customer_key(),
        Table::Supplier => line.supplier_key(),
        Table::Part => line.part_key(),
        Table::Date => line.order_date(),
        Table::Lineorder => line.order_key(),
    }
}

// Says which earlier action decided whether an order is live, if one did, and what follows.
fn help_with_order<E: Write>(
    earlier: &[Action],
    key: u64,
    help: &RefusalHelp,
    err: &mut E,
) -> io::Result<()> {
    let same = earlier.iter().rposition(|action| key_of(action) == key);
    if let Some(place) = same {
        write_line(
            err,
            &RefusalHelp::Earlier(place.saturating_add(1), word_of(&earlier[place])),
        )?;
    }
    write_line(err, help)
}

// Says which keys the lines of an order have, where this dimension lacks a row of one.
fn help_with_keys<E: Write>(order: &Order, dimension: Table, err: &mut E) -> io::Result<()> {
    for line in order.lines() {
        write_line(
            err,
            &RefusalHelp::Line(
                line.line_number(),
                key_column(dimension),
                key_in(line, dimension),
            ),
        )?;
    }
    write_line(err, &RefusalHelp::NoRow(dimension))
}

// Says what is wrong with the lines of an order, by the number of the cause.
fn help_with_lines<E: Write>(order: &Order, cause: &str, err: &mut E) -> io::Result<()> {
    match cause {
        "42" => help_with_keys(order, Table::Customer, err),
        "43" => help_with_keys(order, Table::Supplier, err),
        "44" => help_with_keys(order, Table::Part, err),
        "45" => help_with_keys(order, Table::Date, err),
        "46" => write_line(err, &RefusalHelp::LinesFull(order.lines().len())),
        _ => Ok(()),
    }
}

/// Writes what is wrong with a refresh that a live session refused, by the number of the action, from 1, and that of
/// the cause: one line or more, each begun with `  help: `. Of a full log, whose action is 0, it says nothing.
pub fn write_refusal_help<E: Write>(
    refresh: &Refresh,
    number: usize,
    cause: &str,
    err: &mut E,
) -> io::Result<()> {
    let Some((action, earlier)) = refresh
        .actions()
        .get(..number)
        .and_then(|actions| actions.split_last())
    else {
        return Ok(());
    };
    let key = key_of(action);
    write_line(err, &RefusalHelp::Action(number, word_of(action), key))?;
    match (cause, action) {
        ("41", _) => help_with_order(earlier, key, &RefusalHelp::Present(key), err),
        ("47", _) => help_with_order(earlier, key, &RefusalHelp::Absent(key), err),
        ("48", _) => help_with_order(earlier, key, &RefusalHelp::AmendAbsent(key), err),
        (_, Action::Add(order)) => help_with_lines(order, cause, err),
        (_, Action::Amend(order)) => help_with_lines(order, cause, err),
        (_, Action::Put(order)) => help_with_lines(order, cause, err),
        (_, Action::Withdraw(_)) => Ok(()),
    }
}
