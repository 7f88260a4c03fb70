//! What all conditions of one operand leave together, as clauses of a star question.

use crate::conditions::{Condition, Demand, most_of, same_operand};
use crate::piece::Operand;
use crate::piece_fault::PieceFault;
use ssb_questions::Value;
use ssb_questions::clauses::MOST_VALUES;
use ssb_schema::Text;
use std::alloc::{AllocError, Global};

/// The values that an operand may have.
#[derive(Drop)]
pub(crate) enum Kept {
    /// Any.
    All,
    /// One of these, which are distinct.
    Values(Vec<Value>),
    /// All between these, both included.
    Range(Value, Value),
}

/// What is left of an operand.
#[derive(Drop)]
pub(crate) struct Narrowed {
    pub kept: Kept,
    /// It has none of these, which are distinct.
    pub left_out: Vec<Value>,
}

// Whether a condition lets a value pass.
fn lets_pass(asked: &Demand, value: &Value) -> bool {
    match asked {
        Demand::OneOf(values) => values.iter().any(|own| own == value),
        Demand::Within(from, to) => {
            from.as_ref().is_none_or(|from| from <= value)
                && to.as_ref().is_none_or(|to| value <= to)
        }
        Demand::Except(other) => other != value,
    }
}

// Whether the other conditions of an operand than that of a piece let a value pass.
fn others_let_pass(
    conditions: &[Condition],
    operand: Operand,
    piece: usize,
    value: &Value,
) -> bool {
    conditions.iter().all(|own| {
        own.piece == piece || !same_operand(own.operand, operand) || lets_pass(&own.asked, value)
    })
}

// The values of the first condition of an operand that has some, with its piece.
fn first_values(conditions: &[Condition], operand: Operand) -> Option<(&[Value], usize)> {
    for condition in conditions {
        if let Demand::OneOf(values) = &condition.asked {
            if same_operand(condition.operand, operand) {
                return Some((values.as_slice(), condition.piece));
            }
        }
    }
    None
}

// Those of the values of the condition of a piece that all others let pass, each once.
fn values_left(
    alloc: Global,
    conditions: &[Condition],
    operand: Operand,
    piece: usize,
    values: &[Value],
) -> Result<Vec<Value>, PieceFault> {
    let mut left = Vec::new(alloc);
    for value in values {
        let passes = others_let_pass(conditions, operand, piece, value);
        if passes && !left.iter().any(|own| own == value) {
            if left.len() >= MOST_VALUES {
                return Err(PieceFault::TooMany(piece));
            }
            left.push(value.clone()?)?;
        }
    }
    Ok(left)
}

// A range that nothing is in, of the kind of a value.
fn nothing_like(alloc: Global, value: &Value) -> Result<Kept, AllocError> {
    match value {
        Value::Number(_) => Ok(Kept::Range(Value::Number(1), Value::Number(0))),
        Value::Text(_) => Ok(Kept::Range(
            Value::Text(Text::from_str(alloc, "1")?),
            Value::Text(Text::from_str(alloc, "0")?),
        )),
    }
}

// The ends of the conditions of an operand that have one, the greatest first one and the least last one.
#[derive(Clone, Copy)]
struct RangeEnds<'c> {
    from: Option<&'c Value>,
    to: Option<&'c Value>,
    piece: usize,
}

fn greater<'c>(a: Option<&'c Value>, b: Option<&'c Value>) -> Option<&'c Value> {
    match (a, b) {
        (Some(a), Some(b)) => Some(if a < b { b } else { a }),
        (a, None) => a,
        (None, b) => b,
    }
}

fn lesser<'c>(a: Option<&'c Value>, b: Option<&'c Value>) -> Option<&'c Value> {
    match (a, b) {
        (Some(a), Some(b)) => Some(if b < a { b } else { a }),
        (a, None) => a,
        (None, b) => b,
    }
}

fn ends_of<'c>(conditions: &'c [Condition], operand: Operand) -> RangeEnds<'c> {
    let mut ends = RangeEnds {
        from: None,
        to: None,
        piece: 0,
    };
    for condition in conditions {
        if let Demand::Within(from, to) = &condition.asked {
            if same_operand(condition.operand, operand) {
                ends = RangeEnds {
                    from: greater(ends.from, from.as_ref()),
                    to: lesser(ends.to, to.as_ref()),
                    piece: condition.piece,
                };
            }
        }
    }
    ends
}

// The range between the ends; of numbers one that is not there is the least or the greatest.
fn range_of(operand: Operand, ends: RangeEnds<'_>) -> Result<Kept, PieceFault> {
    match (ends.from, ends.to) {
        (Some(from), Some(to)) => Ok(Kept::Range(from.clone()?, to.clone()?)),
        (Some(Value::Number(from)), None) => {
            let most = most_of(operand);
            Ok(Kept::Range(Value::Number(*from), Value::Number(most)))
        }
        (None, Some(Value::Number(to))) => Ok(Kept::Range(Value::Number(0), Value::Number(*to))),
        _ => Err(PieceFault::BadValue(ends.piece)),
    }
}

// The value that a condition leaves out of an operand, with its piece.
fn exception_in(condition: &Condition, operand: Operand) -> Option<(&Value, usize)> {
    match &condition.asked {
        Demand::Except(value) if same_operand(condition.operand, operand) => {
            Some((value, condition.piece))
        }
        _ => None,
    }
}

// Whether a condition leaves a number out of an operand.
fn is_left_out(conditions: &[Condition], operand: Operand, number: u64) -> bool {
    conditions
        .iter()
        .any(|condition| matches!(exception_in(condition, operand),
            Some((Value::Number(own), _)) if *own == number))
}

// The least and the greatest number between the ends; where an end is not there, those that the operand can have.
fn bounds_of(operand: Operand, ends: RangeEnds<'_>) -> (u64, u64) {
    let (least, greatest) = match operand {
        Operand::Quantity => (1, 50),
        Operand::Discount => (0, 10),
        Operand::Dimension(_) => (0, most_of(operand)),
    };
    let from = match ends.from {
        Some(Value::Number(from)) => *from,
        _ => least,
    };
    let to = match ends.to {
        Some(Value::Number(to)) => *to,
        _ => greatest,
    };
    (from, to)
}

// The numbers between bounds, less those at the bounds that conditions leave out. 1 to 0 has none.
fn shrunk(conditions: &[Condition], operand: Operand, bounds: (u64, u64)) -> (u64, u64) {
    let (mut from, mut to) = bounds;
    for _ in conditions {
        if from > to {
            return (1, 0);
        }
        if is_left_out(conditions, operand, from) {
            let Some(next) = from.checked_add(1) else {
                return (1, 0);
            };
            from = next;
        }
        if from <= to && is_left_out(conditions, operand, to) {
            let Some(next) = to.checked_sub(1) else {
                return (1, 0);
            };
            to = next;
        }
    }
    (from, to)
}

// The first condition that leaves out a value of a range.
fn first_left_out(
    conditions: &[Condition],
    operand: Operand,
    from: &Value,
    to: &Value,
) -> Option<usize> {
    conditions.iter().find_map(|condition| match exception_in(condition, operand) {
        Some((value, piece)) if from <= value && value <= to => Some(piece),
        _ => None,
    })
}

// What is left of a number of a line between the ends, of which a condition leaves out a value: one range, or it is
// refused, since there are no other tests of it.
fn range_without(conditions: &[Condition], operand: Operand) -> Result<Kept, PieceFault> {
    let (from, to) = shrunk(
        conditions,
        operand,
        bounds_of(operand, ends_of(conditions, operand)),
    );
    let from = Value::Number(from);
    let to = Value::Number(to);
    match first_left_out(conditions, operand, &from, &to) {
        Some(piece) => Err(PieceFault::NotSupported(piece)),
        None => Ok(Kept::Range(from, to)),
    }
}

// What conditions without values leave of a number of a line.
fn line_left(conditions: &[Condition], operand: Operand) -> Result<Kept, PieceFault> {
    if conditions
        .iter()
        .any(|condition| exception_in(condition, operand).is_some())
    {
        range_without(conditions, operand)
    } else {
        range_of(operand, ends_of(conditions, operand))
    }
}

// What conditions without values leave of a column, but for the values that some leave out.
fn column_left(conditions: &[Condition], operand: Operand) -> Result<Kept, PieceFault> {
    let ends = ends_of(conditions, operand);
    if ends.from.is_none() && ends.to.is_none() {
        Ok(Kept::All)
    } else {
        range_of(operand, ends)
    }
}

// The values that conditions leave out of an operand, each once.
fn left_out_of(
    alloc: Global,
    conditions: &[Condition],
    operand: Operand,
) -> Result<Vec<Value>, PieceFault> {
    let mut left_out = Vec::new(alloc);
    for condition in conditions {
        if let Some((value, piece)) = exception_in(condition, operand) {
            if !left_out.iter().any(|own| own == value) {
                if left_out.len() >= MOST_VALUES {
                    return Err(PieceFault::TooMany(piece));
                }
                left_out.push(value.clone()?)?;
            }
        }
    }
    Ok(left_out)
}

// What conditions leave of an operand, of which one asks for these values.
fn kept_of(
    alloc: Global,
    conditions: &[Condition],
    operand: Operand,
    asked: (&[Value], usize),
) -> Result<Kept, PieceFault> {
    let (values, piece) = asked;
    let left = values_left(alloc, conditions, operand, piece, values)?;
    match (left.as_slice(), values) {
        ([], [first, ..]) => Ok(nothing_like(alloc, first)?),
        _ => Ok(Kept::Values(left)),
    }
}

/// What all conditions of an operand leave of it, which has at least one.
pub(crate) fn narrow(
    alloc: Global,
    conditions: &[Condition],
    operand: Operand,
) -> Result<Narrowed, PieceFault> {
    if let Some(asked) = first_values(conditions, operand) {
        return Ok(Narrowed {
            kept: kept_of(alloc, conditions, operand, asked)?,
            left_out: Vec::new(alloc),
        });
    }
    match operand {
        Operand::Dimension(_) => Ok(Narrowed {
            kept: column_left(conditions, operand)?,
            left_out: left_out_of(alloc, conditions, operand)?,
        }),
        Operand::Quantity | Operand::Discount => Ok(Narrowed {
            kept: line_left(conditions, operand)?,
            left_out: Vec::new(alloc),
        }),
    }
}
