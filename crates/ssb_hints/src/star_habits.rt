//! Constants of `star` that are written as other systems take them.

use crate::lines::write_line;
use std::io::Write;
use std::{fmt, io};

/// Help about a constant that is written as another system takes it.
#[derive(Clone, Copy)]
pub enum StarHabit<'a> {
    /// Two constants, which are one value with a blank in it.
    Blank(&'a str, &'a str),
    /// A test that a column has not a value.
    NotEqual,
    /// A test by one end.
    OneEnd,
    /// A number of rows.
    Limit,
    /// Another order.
    Order,
    /// A sum that is written as a call.
    Call,
    /// An average.
    Average,
    /// A word before group columns.
    By,
    /// A column and the ends of a range, which a stroke parts.
    Stroke(&'a str, &'a str, &'a str),
}

impl<'a> fmt::Display for StarHabit<'a> {
    fn fmt<W: fmt::Write>(&self, f: &mut fmt::Formatter<W>) -> fmt::Result {
        match self {
            StarHabit::Blank(before, word) => {
                write!(
                    f,
                    "a value with a blank in it stands in quotes: '{before} {word}'"
                )
            }
            StarHabit::NotEqual => f.write_str(
                "a test for another value is COLUMN!=VALUE, in one word; a range, LO_QUANTITY and LO_DISCOUNT have none",
            ),
            StarHabit::OneEnd => f.write_str(
                "there is no < and no >; a range has both ends, and these are in it: COLUMN=FROM..TO",
            ),
            StarHabit::Limit => f.write_str(
                "star gives all rows; ORDER=SUM puts the largest first, and query --sql takes a LIMIT",
            ),
            StarHabit::Order => f.write_str(
                "the only order besides that of the group columns is ORDER=SUM, the largest first",
            ),
            StarHabit::Call => f.write_str(
                "a measure stands without SUM and without ( ); COUNT is the number of lines",
            ),
            StarHabit::Average => f.write_str(
                "there is no average, least or greatest; ask for the sum and for COUNT, and divide",
            ),
            StarHabit::By => f.write_str(
                "group columns stand behind the measure, without GROUP and BY",
            ),
            StarHabit::Stroke(column, from, to) => {
                write!(
                    f,
                    "a range is written with two points: {column}={from}..{to}"
                )
            }
        }
    }
}

fn is_alike(word: &str, other: &str) -> bool {
    word.eq_ignore_ascii_case(other)
}

// What stands in a word before a mark, in any case one of these.
fn begins_with(word: &str, mark: char, names: &[&str]) -> bool {
    match word.split_once(mark) {
        Some((name, _)) => names.iter().any(|own| is_alike(name, own)),
        None => false,
    }
}

// Whether a word tests a column of a customer, a supplier or a part: only their texts have blanks.
fn tests_text(word: &str) -> bool {
    match word.split_once('=') {
        Some((name, _)) => {
            name.starts_with("C_") || name.starts_with("S_") || name.starts_with("P_")
        }
        None => false,
    }
}

// The column and the ends of a range that is written with a stroke, as `D_YEAR=1993-1995`.
fn stroke_in<'a>(word: &'a str) -> Option<StarHabit<'a>> {
    let (column, value) = word.split_once('=')?;
    let (from, to) = value.split_once('-')?;
    let first = from.parse::<u32>().ok()?;
    let last = to.parse::<u32>().ok()?;
    if first > last {
        return None;
    }
    Some(StarHabit::Stroke(column, from, to))
}

// How another system would take a word that stands behind another.
fn habit_in<'a>(before: &'a str, word: &'a str) -> Option<StarHabit<'a>> {
    if is_alike(word, "!=") || word.contains("<>") || is_alike(word, "NOT") {
        return Some(StarHabit::NotEqual);
    }
    if word.contains('<') || word.contains('>') {
        return Some(StarHabit::OneEnd);
    }
    if is_alike(word, "LIMIT") || begins_with(word, '=', &["LIMIT", "TOP"]) {
        return Some(StarHabit::Limit);
    }
    if begins_with(word, '=', &["ORDER"]) || is_alike(word, "DESC") || is_alike(word, "ORDER") {
        return Some(StarHabit::Order);
    }
    if begins_with(word, '(', &["AVG", "MIN", "MAX"]) {
        return Some(StarHabit::Average);
    }
    if begins_with(word, '(', &["SUM", "COUNT"]) {
        return Some(StarHabit::Call);
    }
    if is_alike(word, "BY") || is_alike(word, "GROUP") {
        return Some(StarHabit::By);
    }
    if tests_text(before) && !word.contains('=') {
        return Some(StarHabit::Blank(before, word));
    }
    stroke_in(word)
}

/// Says how a constant of `star`, and the one before it, is written here, where another system would take it otherwise.
/// The result is whether it is one of these.
pub(crate) fn help_with_habit<E: Write>(before: &str, word: &str, err: &mut E) -> io::Result<bool> {
    match habit_in(before, word) {
        Some(habit) => {
            write_line(err, &habit)?;
            Ok(true)
        }
        None => Ok(false),
    }
}
