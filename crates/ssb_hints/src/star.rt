//! What is wrong with the constants of `star`.

use crate::lines::write_line;
use crate::nearest::nearest;
use crate::questions::QuestionHelp;
use crate::star_habits::help_with_habit;
use ssb_questions::{Clause, clause_of};
use ssb_schema::{Column, query_columns};
use std::alloc::Global;
use std::io::Write;
use std::{fmt, io};

// The constants that a question of `star` has at most.
const MOST_CONSTANTS: usize = 64;

/// Help about the constants of `star`. Each is about one of them, but the last four.
#[derive(Clone, Copy)]
pub enum StarHelp<'a> {
    /// It stands where the measure does.
    NoMeasure(&'a str),
    /// It is no clause.
    NoClause(&'a str),
    /// A test whose value its column could not have.
    BadValue(&'a str),
    /// A measure, but not the first constant.
    SecondMeasure(&'a str),
    /// A group column behind a test.
    GroupAfterTest(&'a str),
    /// A group column for the second time.
    GroupTwice(&'a str),
    /// A fifth group column.
    FifthGroup(&'a str),
    /// A range and another test of its column, or a second test of a line's column.
    SecondTest(&'a str),
    /// A 17th value of its column.
    TooManyValues(&'a str),
    /// It stands behind the order.
    AfterOrder(&'a str),
    /// There are no constants.
    NoConstants,
    /// There are more than 64.
    TooMany,
    /// The columns to group by and to test, but those of a date.
    Columns,
    /// Those of a date.
    DateColumns,
}

// What star sums.
const MEASURES: &str =
    "LO_REVENUE, LO_REVENUE-LO_SUPPLYCOST, LO_EXTENDEDPRICE*LO_DISCOUNT, LO_QUANTITY, LO_EXTENDEDPRICE, LO_SUPPLYCOST \
                        or COUNT";

// What star groups by and tests.
const COLUMNS: &str =
    "C_CITY, C_NATION, C_REGION, C_MKTSEGMENT, S_CITY, S_NATION, S_REGION, P_MFGR, P_CATEGORY, P_BRAND1";

const DATE_COLUMNS: &str =
    "D_DATEKEY, D_DAYOFWEEK, D_MONTH, D_YEAR, D_YEARMONTHNUM, D_YEARMONTH, D_WEEKNUMINYEAR, D_SELLINGSEASON and \
                            D_HOLIDAYFL";

// What is tested by numbers.
const NUMBERS: &str =
    "D_DATEKEY, D_YEAR, D_YEARMONTHNUM, D_WEEKNUMINYEAR, LO_QUANTITY and LO_DISCOUNT";

impl<'a> StarHelp<'a> {
    // What is said behind the constant that it is about.
    fn said(&self) -> &'static str {
        match self {
            StarHelp::NoMeasure(_) => "is no measure; the first constant of star is",
            StarHelp::NoClause(_) =>
                "is no column and no test; a test is COLUMN=VALUE, COLUMN!=VALUE or COLUMN=FROM..TO",
            StarHelp::BadValue(_) =>
                "is a test with a value that its column cannot have; numbers are wanted for",
            StarHelp::SecondMeasure(_) => "is a second measure; star sums one",
            StarHelp::GroupAfterTest(_) =>
                "is a group column after a test; group columns come before all tests",
            StarHelp::GroupTwice(_) => "is a group column already",
            StarHelp::FifthGroup(_) => "is a fifth group column; star takes four",
            StarHelp::SecondTest(_) => {
                "is a second test; a range is the only test of its column, and so is that of LO_QUANTITY or LO_DISCOUNT"
            }
            StarHelp::TooManyValues(_) =>
                "is a 17th value of its column; star takes 16, or a range",
            StarHelp::AfterOrder(_) => "comes after ORDER=SUM, which is the last",
            StarHelp::NoConstants =>
                "star takes a measure, then group columns, then tests; the measure is",
            StarHelp::TooMany => "star takes at most 64 constants",
            StarHelp::Columns => "the columns are",
            StarHelp::DateColumns => "and of a date",
        }
    }
}

impl<'a> fmt::Display for StarHelp<'a> {
    fn fmt<W: fmt::Write>(&self, f: &mut fmt::Formatter<W>) -> fmt::Result {
        let said = self.said();
        match self {
            StarHelp::NoMeasure(word) => write!(f, "{word} {said} {MEASURES}"),
            StarHelp::BadValue(word) => write!(f, "{word} {said} {NUMBERS}"),
            StarHelp::NoClause(word)
            | StarHelp::SecondMeasure(word)
            | StarHelp::GroupAfterTest(word)
            | StarHelp::GroupTwice(word)
            | StarHelp::FifthGroup(word)
            | StarHelp::SecondTest(word)
            | StarHelp::TooManyValues(word)
            | StarHelp::AfterOrder(word) => write!(f, "{word} {said}"),
            StarHelp::NoConstants => write!(f, "{said} {MEASURES}"),
            StarHelp::TooMany => f.write_str(said),
            StarHelp::Columns => write!(f, "{said} {COLUMNS}"),
            StarHelp::DateColumns => write!(f, "{said} {DATE_COLUMNS}"),
        }
    }
}

// Whether a word is a test of a column that there is, whatever its value.
fn tests_a_column(word: &str) -> bool {
    match word.split_once('=') {
        Some((name, _)) => {
            let name = name.strip_suffix('!').unwrap_or(name);
            name == "LO_QUANTITY"
                || name == "LO_DISCOUNT"
                || query_columns().iter().any(|column| column.name() == name)
        }
        None => false,
    }
}

fn is_order(word: &str) -> bool {
    matches!(clause_of(word), Some(Clause::BySum))
}

// Whether a word is the measure or a group column.
fn is_head(word: &str) -> bool {
    matches!(clause_of(word), Some(Clause::Sums(_) | Clause::GroupsBy(_)))
}

// Whether a word is a range of the column.
fn is_range_of(word: &str, column: Column) -> bool {
    match clause_of(word) {
        Some(Clause::FromTo(own, _, _)) => own == column,
        _ => false,
    }
}

// Whether some constant is a range of the column.
fn has_range(constants: &[&str], column: Column) -> bool {
    constants.iter().any(|one| is_range_of(one, column))
}

// Why a group column may not stand behind these constants.
fn group_help<'a>(earlier: &[&str], word: &'a str) -> StarHelp<'a> {
    if earlier.iter().any(|one| *one == word) {
        StarHelp::GroupTwice(word)
    } else if !earlier.iter().all(|one| is_head(one)) {
        StarHelp::GroupAfterTest(word)
    } else {
        StarHelp::FifthGroup(word)
    }
}

// Why a word that is wrong at its place may not stand behind these constants, which are one or more.
fn help_behind<'a>(earlier: &[&str], word: &'a str) -> StarHelp<'a> {
    let Some(clause) = clause_of(word) else {
        return if tests_a_column(word) {
            StarHelp::BadValue(word)
        } else {
            StarHelp::NoClause(word)
        };
    };
    if earlier.iter().any(|one| is_order(one)) {
        return StarHelp::AfterOrder(word);
    }
    match clause {
        Clause::Sums(_) => StarHelp::SecondMeasure(word),
        Clause::GroupsBy(_) => group_help(earlier, word),
        Clause::Is(column, _) if !has_range(earlier, column) => StarHelp::TooManyValues(word),
        Clause::IsNot(_, _) => StarHelp::TooManyValues(word),
        _ => StarHelp::SecondTest(word),
    }
}

// What is wrong with the constant at a place.
fn help_at<'a>(words: &[&'a str], place: usize) -> StarHelp<'a> {
    match words.get(place).copied() {
        None => StarHelp::NoConstants,
        Some(_) if place >= MOST_CONSTANTS => StarHelp::TooMany,
        Some(word) if place == 0 => StarHelp::NoMeasure(word),
        Some(word) => help_behind(words.get(..place).unwrap_or(&[]), word),
    }
}

/// Says which columns there are.
pub(crate) fn write_columns<E: Write>(err: &mut E) -> io::Result<()> {
    write_line(err, &StarHelp::Columns)?;
    write_line(err, &StarHelp::DateColumns)
}

// Says which columns there are, and which one may be meant.
fn help_with_columns<E: Write>(alloc: Global, word: &str, err: &mut E) -> io::Result<()> {
    let name = match word.split_once('=') {
        Some((name, _)) => name,
        None => word,
    };
    let mut names = Vec::new(alloc);
    for column in query_columns() {
        names.push(column.name())?;
    }
    if let Some(near) = nearest(alloc, name, names.as_slice(), 2)? {
        write_line(err, &QuestionHelp::DidYouMean(near))?;
    }
    write_columns(err)
}

/// Says what is wrong with these constants of `star`, the one at this place from 1 first.
pub fn help_with_star<E: Write>(
    alloc: Global,
    words: &[&str],
    place: usize,
    err: &mut E,
) -> io::Result<()> {
    let at = place.saturating_sub(1);
    let help = help_at(words, at);
    write_line(err, &help)?;
    let before = words.get(at.saturating_sub(1)).copied().unwrap_or("");
    if let StarHelp::NoMeasure(word) | StarHelp::NoClause(word) | StarHelp::BadValue(word) = help {
        if help_with_habit(before, word, err)? {
            return Ok(());
        }
    }
    match help {
        StarHelp::NoClause(word) => help_with_columns(alloc, word, err),
        _ => Ok(()),
    }
}
