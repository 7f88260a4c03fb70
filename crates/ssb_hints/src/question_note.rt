//! The lines of notes on questions that were answered.

use ssb_schema::Column;
use std::collections::BTreeSet;
use std::fmt;

// So many values of a column are told.
const MOST_TOLD: usize = 30;

/// A note on a question that was answered.
#[derive(Clone, Copy)]
pub enum QuestionNote<'a, 'v> {
    /// No row has this value in the column, whose values these are.
    NoRow(Column, &'a str, &'v BTreeSet<String>),
    /// The nearest value that there is.
    DidYouMean(&'a str),
    /// The ends of a range of this column, the first of which is the greater one.
    TurnedRound(&'a str, &'a str, &'a str),
    /// A range of this column, as `1993 to 1995`, in which none of these values lies.
    NoneBetween(Column, &'a str, &'v BTreeSet<String>),
    /// A column and how many values it has, and one whose values lie within one of it, and which has fewer.
    MoreThanWithin(Column, usize, Column, usize),
}

// The values of a column, where they are few; else how many there are.
fn write_values<W: fmt::Write>(
    f: &mut fmt::Formatter<W>,
    values: &BTreeSet<String>,
) -> fmt::Result {
    write!(f, "its {} values", values.len())?;
    if values.len() > MOST_TOLD {
        return Ok(());
    }
    for (i, value) in values.iter().enumerate() {
        f.write_str(if i == 0 { ":" } else { "," })?;
        write!(f, " {value}")?;
    }
    Ok(())
}

impl<'a, 'v> fmt::Display for QuestionNote<'a, 'v> {
    fn fmt<W: fmt::Write>(&self, f: &mut fmt::Formatter<W>) -> fmt::Result {
        match self {
            QuestionNote::NoRow(column, value, values) => {
                write!(f, "no {column} is {value}; ")?;
                write_values(f, values)
            }
            QuestionNote::DidYouMean(value) => write!(f, "did you mean {value}?"),
            QuestionNote::TurnedRound(column, from, to) => {
                write!(
                    f,
                    "no {column} lies from {from} to {to}; the ends are turned round"
                )
            }
            QuestionNote::NoneBetween(column, range, values) => {
                write!(f, "no {column} lies from {range}; ")?;
                write_values(f, values)
            }
            QuestionNote::MoreThanWithin(column, count, within, fewer) => {
                write!(
                    f,
                    "{column} has {count} values and {within} has {fewer}; look whether columns of {} changed places",
                    column.table
                )
            }
        }
    }
}
