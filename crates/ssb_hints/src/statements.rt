//! What is wrong with a statement of SQL.

use crate::lines::write_line;
use crate::star::write_columns;
use ssb_sql::{SqlFault, TextPlace, statement_of, statements_of};
use std::alloc::Global;
use std::io::Write;
use std::{fmt, io};

/// Help about a statement: each has the part of it that is told of.
#[derive(Clone, Copy)]
pub enum StatementHelp<'a> {
    /// No part of any statement.
    BadToken(&'a str),
    /// A value that is left out of others that are not known.
    NotEqual,
    /// It may not stand where it does.
    Unexpected(&'a str),
    /// More has to come behind the last part.
    EndsEarly,
    /// A word or a column of another SQL.
    NotSupported(&'a str),
    /// What a statement may have.
    Words,
    /// What it may sum, and of what it may have the average.
    Sums,
    /// Nothing that is printed or read has the name.
    UnknownName(&'a str),
    /// Its table is not read, or not joined.
    NotJoined(&'a str),
    /// It is no group column.
    NotAGroup(&'a str),
    /// Its column cannot have the value.
    BadValue(&'a str),
    /// It is one too many.
    TooMany(&'a str),
    /// An earlier column has its head.
    SameHead(&'a str),
}

impl<'a> StatementHelp<'a> {
    // What is said of the part that it is about.
    fn said(&self) -> &'static str {
        match self {
            StatementHelp::BadToken(_) => {
                "there is no such word, text or number; texts stand between ', and numbers are whole, at most \
                 18446744073709551615, or 4294967295 behind LIMIT"
            }
            StatementHelp::NotEqual =>
                "<>, != and NOT IN of a number of a line stand where all numbers of one range are left; take these by BETWEEN",
            StatementHelp::Unexpected(_) => {
                "this may not stand there; the order is SELECT, FROM, WHERE, GROUP BY, HAVING, ORDER BY, LIMIT"
            }
            StatementHelp::EndsEarly =>
                "the statement ends too early; behind its last word something has to come",
            StatementHelp::NotSupported(_) =>
                "this is not in the SQL that is read here, or not there",
            StatementHelp::Words => {
                "a statement has SELECT, SUM, AVG, COUNT(*), FROM, JOIN, ON, WHERE, AND, OR of one column, [NOT] IN, BETWEEN, = \
                 <> < <= > >=, GROUP BY, HAVING, ORDER BY, LIMIT; else export writes the tables"
            }
            StatementHelp::Sums => {
                "sums and averages are of LO_REVENUE, LO_QUANTITY, LO_EXTENDEDPRICE, LO_SUPPLYCOST, LO_REVENUE - LO_SUPPLYCOST \
                 and LO_EXTENDEDPRICE * LO_DISCOUNT"
            }
            StatementHelp::UnknownName(_) => {
                "nothing there has this name; behind ORDER BY stands what is printed, its name or its place, before a \
                 point a table of FROM, behind it a column of that table"
            }
            StatementHelp::NotJoined(_) => {
                "its table is not read or not joined; joins are LO_CUSTKEY = C_CUSTKEY, LO_SUPPKEY = S_SUPPKEY, \
                 LO_PARTKEY = P_PARTKEY and LO_ORDERDATE = D_DATEKEY"
            }
            StatementHelp::NotAGroup(_) =>
                "it is printed or ordered by, and is no group column; add it to GROUP BY",
            StatementHelp::BadValue(_) => {
                "the column cannot have this value; numbers stand without ', texts between ' and in at most 64 bytes, \
                 and a range of texts has both ends"
            }
            StatementHelp::TooMany(_) => {
                "this is one too many; at most 4 columns of GROUP BY, 16 of SELECT, 16 values of a column, and a table, \
                 a join or a group column once"
            }
            StatementHelp::SameHead(_) =>
                "an earlier column has this head; give it another name behind AS",
        }
    }
}

impl<'a> fmt::Display for StatementHelp<'a> {
    fn fmt<W: fmt::Write>(&self, f: &mut fmt::Formatter<W>) -> fmt::Result {
        let said = self.said();
        match self {
            StatementHelp::NotEqual
            | StatementHelp::EndsEarly
            | StatementHelp::Words
            | StatementHelp::Sums => f.write_str(said),
            StatementHelp::BadToken(part)
            | StatementHelp::Unexpected(part)
            | StatementHelp::NotSupported(part)
            | StatementHelp::UnknownName(part)
            | StatementHelp::NotJoined(part)
            | StatementHelp::NotAGroup(part)
            | StatementHelp::BadValue(part)
            | StatementHelp::TooMany(part)
            | StatementHelp::SameHead(part) => write!(f, "at {part}: {said}"),
        }
    }
}

// The line of a place, before it and from it on.
fn parted_at(text: &str, place: TextPlace) -> Option<(&str, &str)> {
    let line = text.split('\n').nth(place.line.checked_sub(1)?)?;
    let before = place.column.checked_sub(1)?;
    match line.char_indices().nth(before) {
        Some((at, _)) => line.split_at_checked(at),
        None => Some((line, "")),
    }
}

// Whether a character goes on with a name or a number.
fn is_of_word(c: char) -> bool {
    c.is_ascii_alphanumeric() || c == '_' || c == '.'
}

// What stands first in a text: a quoted text, a word, or a mark.
fn first_part(text: &str) -> &str {
    let length = if text.starts_with('\'') {
        match text.char_indices().skip(1).find(|(_, c)| *c == '\'') {
            Some((at, _)) => at.saturating_add(1),
            None => text.len(),
        }
    } else {
        match text.char_indices().find(|(_, c)| !is_of_word(*c)) {
            Some((0, c)) => c.len_utf8(),
            Some((at, _)) => at,
            None => text.len(),
        }
    };
    text.get(..length).unwrap_or(text)
}

// What a place of a statement has.
fn part_at(text: &str, place: TextPlace) -> &str {
    match parted_at(text, place) {
        Some((_, rest)) => first_part(rest),
        None => "",
    }
}

// Whether a place has a value that is left out.
fn is_left_out(text: &str, place: TextPlace) -> bool {
    match parted_at(text, place) {
        Some((before, _)) => {
            let before = before.trim_end();
            before.ends_with("<>") || before.ends_with("!=")
        }
        None => false,
    }
}

fn help_with_unexpected<E: Write>(part: &str, err: &mut E) -> io::Result<()> {
    if part.is_empty() {
        write_line(err, &StatementHelp::EndsEarly)
    } else {
        write_line(err, &StatementHelp::Unexpected(part))
    }
}

// Says what statements have, where this place has what none has.
fn help_with_unsupported<E: Write>(text: &str, at: TextPlace, err: &mut E) -> io::Result<()> {
    if is_left_out(text, at) {
        return write_line(err, &StatementHelp::NotEqual);
    }
    write_line(err, &StatementHelp::NotSupported(part_at(text, at)))?;
    write_line(err, &StatementHelp::Words)?;
    write_line(err, &StatementHelp::Sums)?;
    write_columns(err)
}

// Says what is wrong with a statement that has this fault.
fn help_with_fault<E: Write>(text: &str, fault: SqlFault, err: &mut E) -> io::Result<()> {
    match fault {
        SqlFault::BadToken(at) => write_line(err, &StatementHelp::BadToken(part_at(text, at))),
        SqlFault::Unexpected(at) => help_with_unexpected(part_at(text, at), err),
        SqlFault::NotSupported(at) => help_with_unsupported(text, at, err),
        SqlFault::UnknownName(at) => write_line(
            err,
            &StatementHelp::UnknownName(part_at(text, at)),
        ),
        SqlFault::NotJoined(at) => write_line(err, &StatementHelp::NotJoined(part_at(text, at))),
        SqlFault::NotAGroup(at) => write_line(err, &StatementHelp::NotAGroup(part_at(text, at))),
        SqlFault::BadValue(at) => write_line(err, &StatementHelp::BadValue(part_at(text, at))),
        SqlFault::TooMany(at) => write_line(err, &StatementHelp::TooMany(part_at(text, at))),
        SqlFault::SameHead(at) => write_line(err, &StatementHelp::SameHead(part_at(text, at))),
        SqlFault::OutOfMemory => Ok(()),
    }
}

/// Says what is wrong with the text of a statement, which is read once more.
pub fn help_with_statement<E: Write>(alloc: Global, text: &str, err: &mut E) -> io::Result<()> {
    match statement_of(alloc, text) {
        Ok(_) => Ok(()),
        Err(fault) => help_with_fault(text, fault, err),
    }
}

/// Says what is wrong with a text of statements, which are read once more.
pub fn help_with_statements<E: Write>(alloc: Global, text: &str, err: &mut E) -> io::Result<()> {
    match statements_of(alloc, text) {
        Ok(_) => Ok(()),
        Err(fault) => help_with_fault(text, fault, err),
    }
}
