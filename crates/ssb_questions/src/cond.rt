//! Tests of one column, and the values that they look at.
ghost use Rattle.std.specs.Prelude.{◌≡◌, IfOk};
ghost use Rattle.ssb_questions.specs.Cond.{holds, column_value};

use crate::value::Value;
use ssb_schema::{Column, Items, Text};
use std::alloc::AllocError;

/// What a value is tested for; bounds are included, so a range whose first bound is greater holds of nothing.
#[derive(Debug, Drop)]
pub enum Cond {
    /// It is this text.
    TextIs(Text),
    /// It lies between these texts, both included.
    TextFromTo(Text, Text),
    /// It is one of these texts.
    TextOneOf(Items<Text>),
    /// It is this number.
    NumberIs(u64),
    /// It lies between these numbers, both included.
    NumberFromTo(u64, u64),
    /// It is one of these numbers.
    NumberOneOf(Items<u64>),
    /// It is none of these texts.
    TextNoneOf(Items<Text>),
    /// It is none of these numbers.
    NumberNoneOf(Items<u64>),
}

/// A test of a column of a dimension.
#[derive(Debug, Drop)]
pub struct Test {
    pub column: Column,
    pub cond: Cond,
}

/// A value where it stands in a row.
#[derive(Clone, Copy, Debug)]
pub enum ColumnValue<'a> {
    /// A text.
    Text(&'a Text),
    /// A number.
    Number(u64),
}

impl Cond {
    /// Whether the value passes; a number is none of any texts, else a test of texts holds of no number; so it is of
    /// numbers.
    pub fn holds(&self, value: ColumnValue<'_>) -> bool
        ensures { result ≡ holds self.now (column_value value.entry) }
    {
        match (self, value) {
            (Cond::TextIs(text), ColumnValue::Text(value)) => value == text,
            (Cond::TextFromTo(from, to), ColumnValue::Text(value)) => from <= value && value <= to,
            (Cond::TextOneOf(texts), ColumnValue::Text(value)) => texts.as_slice().contains(value),
            (Cond::NumberIs(number), ColumnValue::Number(value)) => value == *number,
            (Cond::NumberFromTo(from, to), ColumnValue::Number(value)) => {
                *from <= value && value <= *to
            }
            (Cond::NumberOneOf(numbers), ColumnValue::Number(value)) => {
                numbers.as_slice().contains(&value)
            }
            (Cond::TextNoneOf(texts), ColumnValue::Text(value)) => !texts
                .as_slice()
                .contains(value),
            (Cond::NumberNoneOf(numbers), ColumnValue::Number(value)) => {
                !numbers.as_slice().contains(&value)
            }
            (Cond::TextNoneOf(_), ColumnValue::Number(_))
            | (Cond::NumberNoneOf(_), ColumnValue::Text(_)) => true,
            _ => false,
        }
    }
}

impl ColumnValue<'_> {
    /// A copy of the value on its own.
    pub fn to_value(self) -> Result<Value, AllocError>
        ensures { IfOk result (λ value. value ≡ column_value self.entry) }
    {
        match self {
            ColumnValue::Text(text) => Ok(Value::Text(text.clone()?)),
            ColumnValue::Number(number) => Ok(Value::Number(number)),
        }
    }
}
