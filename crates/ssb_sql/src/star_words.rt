//! What is left of an operand, in the words of a star question.

use crate::narrowed::{Kept, Narrowed};
use crate::piece::Operand;
use crate::piece_fault::PieceFault;
use ssb_questions::Value;
use ssb_schema::Text;
use std::alloc::{AllocError, Global};

/// The name of an operand.
pub(crate) fn name_of(operand: Operand) -> &'static str {
    match operand {
        Operand::Dimension(column) => column.name(),
        Operand::Quantity => "LO_QUANTITY",
        Operand::Discount => "LO_DISCOUNT",
    }
}

fn text_of(alloc: Global, value: &Value) -> Result<String, AllocError> {
    match value {
        Value::Text(text) => String::from_str(alloc, text.as_str()),
        Value::Number(number) => number.to_string(alloc),
    }
}

fn word(alloc: Global, parts: &[&str]) -> Result<Value, AllocError> {
    Ok(Value::Text(Text::new(parts.concat(alloc)?)))
}

// A value with its mark: `=`, or `!=`.
fn value_word(alloc: Global, name: &str, mark: &str, value: &Value) -> Result<Value, AllocError> {
    let text = text_of(alloc, value)?;
    word(alloc, &[name, mark, text.as_str()])
}

fn range_word(alloc: Global, name: &str, from: &Value, to: &Value) -> Result<Value, AllocError> {
    let from = text_of(alloc, from)?;
    let to = text_of(alloc, to)?;
    word(alloc, &[name, "=", from.as_str(), "..", to.as_str()])
}

// The least and the greatest of numbers, where all between them are there, each once.
fn run_of(values: &[Value]) -> Option<(&Value, &Value)> {
    let least = values.iter().min()?;
    let greatest = values.iter().max()?;
    match (least, greatest) {
        (Value::Number(from), Value::Number(to))
            if to.saturating_sub(*from) as usize == values.len().saturating_sub(1) => {
            Some((least, greatest))
        }
        _ => None,
    }
}

// Adds the words of the values that an operand may have.
fn add_kept(
    alloc: Global,
    operand: Operand,
    kept: &Kept,
    piece: usize,
    words: &mut Vec<Value>,
) -> Result<(), PieceFault> {
    let name = name_of(operand);
    match (operand, kept) {
        (_, Kept::All) => {}
        (_, Kept::Range(from, to)) => words.push(range_word(alloc, name, from, to)?)?,
        (Operand::Dimension(_), Kept::Values(values)) => {
            for value in values {
                words.push(value_word(alloc, name, "=", value)?)?;
            }
        }
        (_, Kept::Values(values)) => match run_of(values.as_slice()) {
            Some((from, to)) => words.push(range_word(alloc, name, from, to)?)?,
            None => return Err(PieceFault::NotSupported(piece)),
        },
    }
    Ok(())
}

/// Adds the words of what is left of an operand, whose condition with values begins at this piece.
pub(crate) fn add_words(
    alloc: Global,
    operand: Operand,
    left: &Narrowed,
    piece: usize,
    words: &mut Vec<Value>,
) -> Result<(), PieceFault> {
    add_kept(alloc, operand, &left.kept, piece, words)?;
    for value in &left.left_out {
        words.push(value_word(alloc, name_of(operand), "!=", value)?)?;
    }
    Ok(())
}
