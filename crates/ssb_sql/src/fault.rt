//! What is wrong with a text of SQL, and where.

ghost use Rattle.std.specs.Prelude.{◌≡◌};
ghost use Rattle.ssb_sql.specs.FaultNames.{name_of, place_of};

use std::alloc::{AllocError, AllocFailed};
use std::fmt;

/// A place in a text: the line, and the character in it, both from 1.
#[derive(Clone, Copy, Debug, PartialEq, Eq)]
pub struct TextPlace {
    pub line: usize,
    pub column: usize,
}

impl TextPlace {
    // The same place in a text in which the own begins at this place.
    fn behind(self, start: TextPlace) -> TextPlace {
        let column = if self.line == 1 {
            start.column.saturating_add(self.column).saturating_sub(1)
        } else {
            self.column
        };
        TextPlace {
            line: start.line.saturating_add(self.line).saturating_sub(1),
            column,
        }
    }
}

/// Why a text is no statement, with the place of the first token that is wrong. Its text is its number, its name and
/// its place.
#[derive(Clone, Copy, Debug, PartialEq, Eq)]
pub enum SqlFault {
    /// Nothing that a statement has: a character, a text without its end, a number that is too great.
    BadToken(TextPlace),
    /// A token that may not stand there; behind the last, more had to come.
    Unexpected(TextPlace),
    /// A word of SQL, or a column, that no statement here has.
    NotSupported(TextPlace),
    /// No head and no column of the qualifying table has the name.
    UnknownName(TextPlace),
    /// The table is not read, not joined, or has no lines of orders.
    NotJoined(TextPlace),
    /// The column is no group column.
    NotAGroup(TextPlace),
    /// The column cannot have the value, or it cannot be compared so.
    BadValue(TextPlace),
    /// More than 4 group columns, 16 printed columns or 16 values of a column, or a table or a join twice.
    TooMany(TextPlace),
    /// Two printed columns have one head.
    SameHead(TextPlace),
    /// Memory ran out.
    OutOfMemory,
}

impl From<AllocError> for SqlFault {
    fn from(_: AllocError) -> SqlFault {
        SqlFault::OutOfMemory
    }
}

impl<T: Drop> From<AllocFailed<T>> for SqlFault {
    fn from(_: AllocFailed<T>) -> SqlFault {
        SqlFault::OutOfMemory
    }
}

impl SqlFault {
    /// Its number and its name.
    pub fn name(self) -> &'static str
        ensures { result.now ≡ name_of self }
    {
        match self {
            SqlFault::BadToken(_) => "51 BadToken",
            SqlFault::Unexpected(_) => "52 Unexpected",
            SqlFault::NotSupported(_) => "53 NotSupported",
            SqlFault::UnknownName(_) => "54 UnknownName",
            SqlFault::NotJoined(_) => "55 NotJoined",
            SqlFault::NotAGroup(_) => "56 NotAGroup",
            SqlFault::BadValue(_) => "57 BadValue",
            SqlFault::TooMany(_) => "58 TooMany",
            SqlFault::SameHead(_) => "59 SameHead",
            SqlFault::OutOfMemory => "out of memory",
        }
    }

    /// Where the text is wrong; `None` where memory ran out.
    pub fn place(self) -> Option<TextPlace>
        ensures { result ≡ place_of self }
    {
        match self {
            SqlFault::BadToken(place) => Some(place),
            SqlFault::Unexpected(place) => Some(place),
            SqlFault::NotSupported(place) => Some(place),
            SqlFault::UnknownName(place) => Some(place),
            SqlFault::NotJoined(place) => Some(place),
            SqlFault::NotAGroup(place) => Some(place),
            SqlFault::BadValue(place) => Some(place),
            SqlFault::TooMany(place) => Some(place),
            SqlFault::SameHead(place) => Some(place),
            SqlFault::OutOfMemory => None,
        }
    }

    /// The same fault in a text in which its own begins at this place.
    pub(crate) fn behind(self, start: TextPlace) -> SqlFault {
        match self {
            SqlFault::BadToken(place) => SqlFault::BadToken(place.behind(start)),
            SqlFault::Unexpected(place) => SqlFault::Unexpected(place.behind(start)),
            SqlFault::NotSupported(place) => SqlFault::NotSupported(place.behind(start)),
            SqlFault::UnknownName(place) => SqlFault::UnknownName(place.behind(start)),
            SqlFault::NotJoined(place) => SqlFault::NotJoined(place.behind(start)),
            SqlFault::NotAGroup(place) => SqlFault::NotAGroup(place.behind(start)),
            SqlFault::BadValue(place) => SqlFault::BadValue(place.behind(start)),
            SqlFault::TooMany(place) => SqlFault::TooMany(place.behind(start)),
            SqlFault::SameHead(place) => SqlFault::SameHead(place.behind(start)),
            SqlFault::OutOfMemory => SqlFault::OutOfMemory,
        }
    }
}

impl fmt::Display for SqlFault {
    fn fmt<W: fmt::Write>(&self, f: &mut fmt::Formatter<W>) -> fmt::Result {
        let name = self.name();
        match self.place() {
            Some(place) => write!(f, "{name} {} {}", place.line, place.column),
            None => f.write_str(name),
        }
    }
}

/// The place behind the first so many bytes of a text.
pub(crate) fn place_at(text: &str, bytes: usize) -> TextPlace {
    let before = text.get(..bytes).unwrap_or(text);
    let line = before.split('\n').count();
    let column = before
        .split('\n')
        .last()
        .map_or(0, |last| last.chars().count());
    TextPlace {
        line,
        column: column.saturating_add(1),
    }
}
