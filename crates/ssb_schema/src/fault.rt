//! Why values are refused.

use crate::column::Column;
use crate::table::Table;
use thiserror::Error;

/// Why the values of a row, an order, a refresh or a base are refused. Its text is its number, its name and its values.
#[derive(Clone, Copy, Debug, PartialEq, Eq, Error)]
pub enum SchemaFault {
    /// An order without lines.
    #[error("1 NoLines")]
    NoLines,
    /// An order of more than seven lines.
    #[error("2 TooManyLines")]
    TooManyLines,
    /// An order whose lines have several order keys.
    #[error("3 KeysDiffer")]
    KeysDiffer,
    /// An order whose lines repeat this line number.
    #[error("4 LineRepeated {0}")]
    LineRepeated(u8),
    /// A refresh without actions.
    #[error("5 NoActions")]
    NoActions,
    /// A refresh of more than 64 actions.
    #[error("6 TooManyActions")]
    TooManyActions,
    /// A row, numbered from 1, whose primary key an earlier row of its table has.
    #[error("7 KeyRepeated {0} {1}")]
    KeyRepeated(Table, usize),
    /// A line, numbered from 1, that names no row of a dimension.
    #[error("8 UnknownKey {0} {1}")]
    UnknownKey(usize, Table),
    /// A table of more rows than the limits allow.
    #[error("9 TooManyRows {0}")]
    TooManyRows(Table),
    /// A number outside its column's range, or a text that no table file can hold.
    #[error("10 OutOfRange {0}")]
    OutOfRange(Column),
    /// A text of more than 64 bytes.
    #[error("11 FieldTooLong {0}")]
    FieldTooLong(Column),
}

/// A refusal, which hands the values back.
#[derive(Debug, Drop)]
pub struct Refused<T> {
    /// Why they are refused.
    pub fault: SchemaFault,
    /// The values, as they were given.
    pub back: T,
}
