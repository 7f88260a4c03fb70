//! What a statement says, piece by piece.
use ssb_questions::{Measure, Spelled};
use ssb_schema::{Column, Table};

/// What a test looks at.
#[derive(Clone, Copy)]
pub enum Operand {
    Dimension(Column),
    Quantity,
    Discount,
}

/// How what is tested stands to a value.
#[derive(Clone, Copy, Debug, PartialEq, Eq)]
pub enum Comparison {
    Equal,
    NotEqual,
    Less,
    LessOrEqual,
    Greater,
    GreaterOrEqual,
}

/// What is computed of the lines of a group.
#[derive(Clone, Copy)]
pub enum Aggregate {
    /// Their sum; of `Measure::Lines`, which is COUNT, their number, 0 over none.
    Total(Measure),
    /// NULLIF of their number and 0: NULL over none.
    CountOrNull,
    /// Their sum by their number.
    Average(Measure),
}

/// A number that an aggregate is compared with.
#[derive(Clone, Copy, Debug, PartialEq, Eq)]
pub struct SignedNumber {
    pub is_negative: bool,
    pub size: u64,
}

/// One thing that a statement says.
#[derive(Clone, Copy)]
pub enum SqlPiece<'a> {
    /// The column is printed.
    Prints(Column),
    /// The aggregate is printed.
    Computes(Aggregate),
    /// What is printed before it has this name.
    Called(&'a str),
    /// The table is read.
    From(Table),
    /// The lines are joined with the dimension by its key.
    Joined(Table),
    /// A condition: it has this value.
    Is(Operand, Spelled<'a>),
    /// Or this value, for the condition before it.
    OrIs(Operand, Spelled<'a>),
    /// A condition: it stands so to the value.
    Stands(Operand, Comparison, Spelled<'a>),
    /// A condition: it lies between the values, both included.
    Between(Operand, Spelled<'a>, Spelled<'a>),
    /// The column is a group column.
    GroupsBy(Column),
    /// A group has a row where its aggregate stands so to the number.
    Keeps(Aggregate, Comparison, SignedNumber),
    /// Rows stand by the column.
    OrdersBy(Column),
    /// Rows stand by what has this name.
    OrdersByName(&'a str),
    /// Rows stand by what is printed at this place, from 1.
    OrdersByPlace(u64),
    /// Rows stand by the aggregate.
    OrdersByAggregate(Aggregate),
    /// From the greatest down, by what is before it.
    Descending,
    /// So many rows at most.
    Limit(u64),
}
