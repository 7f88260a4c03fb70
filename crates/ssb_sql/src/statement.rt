//! A statement: what a report of several aggregates asks.

use crate::piece::{Comparison, SignedNumber};
use ssb_questions::{Measure, Question};
use ssb_schema::{Column, Text};

/// The most columns that a statement prints.
pub const MOST_SHOWN: usize = 16;

/// What is printed of a group.
#[derive(Clone, Copy, Debug, PartialEq, Eq)]
pub enum Shown {
    /// The value of a group column, by its place from 0.
    Group(usize),
    /// The sum that the question at this place asks; NULL over no lines.
    Sum(usize),
    /// The number of lines that the question at this place asks; 0 over none.
    Count(usize),
    /// The sum that the question at the first place asks, by the number of lines that the question at the second asks;
    /// NULL over none.
    Average(usize, usize),
}

/// What a group must have for its row: something computed of its lines that stands so to a number. NULL stands to none.
#[derive(Clone, Copy, Debug, PartialEq, Eq)]
pub struct GroupTest {
    pub shown: Shown,
    pub comparison: Comparison,
    pub number: SignedNumber,
}

/// What rows stand by.
#[derive(Clone, Copy, Debug, PartialEq, Eq)]
pub struct SortKey {
    pub shown: Shown,
    /// From the greatest down.
    pub descending: bool,
}

/// A statement.
#[derive(Debug, Drop)]
pub struct Statement {
    /// What its questions sum, each once.
    pub measures: Vec<Measure>,
    /// Its questions: of each measure the lines that pass, by the group columns, in their order.
    pub questions: Vec<Question>,
    /// The group columns.
    pub groups: Vec<Column>,
    /// What is printed, column by column.
    pub shown: Vec<Shown>,
    /// The heads of what is printed, which are distinct.
    pub heads: Vec<Text>,
    /// What each group must have for its row.
    pub having: Vec<GroupTest>,
    /// What rows stand by, the first key first; rows that these do not tell apart stand by the group columns.
    pub order: Vec<SortKey>,
    /// How many rows are printed at most.
    pub limit: Option<u64>,
}
