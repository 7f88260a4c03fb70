//! The conditions of a statement, each of one operand, and what several of one operand leave.

use crate::piece::{Comparison, Operand, SqlPiece};
use crate::piece_fault::PieceFault;
use ssb_questions::clause::kind_in;
use ssb_questions::{ConstantKind, Spelled, Value};
use ssb_schema::{Kind, Text, text_fault};
use std::alloc::{AllocError, Global};

/// What one condition asks of its operand.
#[derive(Drop)]
pub(crate) enum Demand {
    /// It has one of these values.
    OneOf(Vec<Value>),
    /// It lies between these ends, both included; an end that is not there is no end.
    Within(Option<Value>, Option<Value>),
    /// It has another value.
    Except(Value),
}

/// A condition, said from the piece of this number on.
#[derive(Drop)]
pub(crate) struct Condition {
    pub operand: Operand,
    pub asked: Demand,
    pub piece: usize,
}

// What may be looked for in an operand.
fn kind_of(operand: Operand) -> ConstantKind {
    match operand {
        Operand::Dimension(column) => kind_in(column),
        Operand::Quantity | Operand::Discount => ConstantKind::Number,
    }
}

/// The greatest number that may be looked for in an operand.
pub(crate) fn most_of(operand: Operand) -> u64 {
    match operand {
        Operand::Dimension(column) => match column.kind() {
            Some(Kind::Number { most, .. }) => most,
            Some(Kind::Text) | None => 0,
        },
        Operand::Quantity | Operand::Discount => 4_294_967_295,
    }
}

/// Whether both are the same operand.
pub(crate) fn same_operand(a: Operand, b: Operand) -> bool {
    match (a, b) {
        (Operand::Dimension(a), Operand::Dimension(b)) => a == b,
        (Operand::Quantity, Operand::Quantity) => true,
        (Operand::Discount, Operand::Discount) => true,
        _ => false,
    }
}

// The text that stands between quotes.
fn unquoted(alloc: Global, text: &str) -> Result<Text, AllocError> {
    Ok(Text::new(text.replace(alloc, "''", "'")?))
}

// Whether a star question can have the text before its `..` and behind it.
fn is_spelled(text: &str) -> bool {
    !text.contains("..") && !text.ends_with('.')
}

// The value of an operand that a piece has.
fn value_of(
    alloc: Global,
    operand: Operand,
    spelled: Spelled<'_>,
    piece: usize,
) -> Result<Value, PieceFault> {
    match (kind_of(operand), spelled) {
        (ConstantKind::Number, Spelled::Number(number)) if number <= most_of(operand) => {
            Ok(Value::Number(number))
        }
        (ConstantKind::Text(column), Spelled::Text(text)) => {
            let text = unquoted(alloc, text)?;
            if text_fault(column, text.as_str()).is_none() && is_spelled(text.as_str()) {
                Ok(Value::Text(text))
            } else {
                Err(PieceFault::BadValue(piece))
            }
        }
        _ => Err(PieceFault::BadValue(piece)),
    }
}

// All numbers below one.
fn below(number: u64) -> Demand {
    match number.checked_sub(1) {
        Some(last) => Demand::Within(None, Some(Value::Number(last))),
        None => nothing(),
    }
}

// All numbers above one, where there are some up to the greatest.
fn above(number: u64, most: u64) -> Demand {
    if number < most {
        Demand::Within(Some(Value::Number(number + 1)), None)
    } else {
        nothing()
    }
}

// All that stand so to a value. Of texts there is neither without the value itself.
fn beside(
    alloc: Global,
    operand: Operand,
    comparison: Comparison,
    value: Value,
    piece: usize,
) -> Result<Demand, PieceFault> {
    match (comparison, &value) {
        (Comparison::Equal, _) => one_of(alloc, value),
        (Comparison::NotEqual, _) => Ok(Demand::Except(value)),
        (Comparison::LessOrEqual, _) => Ok(Demand::Within(None, Some(value))),
        (Comparison::GreaterOrEqual, _) => Ok(Demand::Within(Some(value), None)),
        (Comparison::Less, Value::Number(number)) => Ok(below(*number)),
        (Comparison::Greater, Value::Number(number)) => Ok(above(*number, most_of(operand))),
        (_, Value::Text(_)) => Err(PieceFault::BadValue(piece)),
    }
}

// No number lies there.
fn nothing() -> Demand {
    Demand::Within(Some(Value::Number(1)), Some(Value::Number(0)))
}

// One value alone.
fn one_of(alloc: Global, value: Value) -> Result<Demand, PieceFault> {
    let mut values = Vec::new(alloc);
    values.push(value)?;
    Ok(Demand::OneOf(values))
}

// What a piece asks, where it begins a condition, and of which operand.
fn asked_by(
    alloc: Global,
    said: &SqlPiece<'_>,
    piece: usize,
) -> Result<Option<(Operand, Demand)>, PieceFault> {
    match said {
        SqlPiece::Is(operand, value) => {
            let value = value_of(alloc, *operand, *value, piece)?;
            Ok(Some((*operand, one_of(alloc, value)?)))
        }
        SqlPiece::Stands(operand, comparison, value) => {
            let value = value_of(alloc, *operand, *value, piece)?;
            let asked = beside(alloc, *operand, *comparison, value, piece)?;
            Ok(Some((*operand, asked)))
        }
        SqlPiece::Between(operand, from, to) => {
            let from = value_of(alloc, *operand, *from, piece)?;
            let to = value_of(alloc, *operand, *to, piece)?;
            Ok(Some((*operand, Demand::Within(Some(from), Some(to)))))
        }
        _ => Ok(None),
    }
}

// Adds a value to the last condition, which is of the same operand and asks for values.
fn add_value(
    conditions: &mut Vec<Condition>,
    operand: Operand,
    value: Value,
    piece: usize,
) -> Result<(), PieceFault> {
    let Some(last) = conditions.last_mut() else {
        return Err(PieceFault::NotSupported(piece));
    };
    if !same_operand(last.operand, operand) {
        return Err(PieceFault::NotSupported(piece));
    }
    match &mut last.asked {
        Demand::OneOf(values) => {
            values.push(value)?;
            Ok(())
        }
        Demand::Within(_, _) | Demand::Except(_) => Err(PieceFault::NotSupported(piece)),
    }
}

/// The conditions that the pieces say, in their order.
pub(crate) fn conditions(
    alloc: Global,
    pieces: &[SqlPiece<'_>],
) -> Result<Vec<Condition>, PieceFault> {
    let mut found = Vec::new(alloc);
    for (piece, said) in pieces.iter().enumerate() {
        if let SqlPiece::OrIs(operand, value) = said {
            let value = value_of(alloc, *operand, *value, piece)?;
            add_value(&mut found, *operand, value, piece)?;
        } else if let Some((operand, asked)) = asked_by(alloc, said, piece)? {
            found.push(Condition {
                operand,
                asked,
                piece,
            })?;
        }
    }
    Ok(found)
}
