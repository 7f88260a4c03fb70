//! The lines of help about a script.

use ssb_schema::Column;
use std::fmt;

/// Help about a script, a trace or a request.
#[derive(Clone, Copy)]
pub enum ScriptHelp<'a> {
    /// The path, the number of a record, and the record.
    Record(&'a str, u64, &'a str),
    /// The words that records begin with.
    Words,
    /// The names of formats are wanted.
    Format,
    /// What is looked up by a word alone.
    LookUp,
    /// The name of a column is wanted.
    Values,
    /// A word that stands alone.
    Alone(&'a str),
    /// A word that takes a key.
    Key(&'a str),
    /// How many fields a line has behind its word.
    LineCount(usize),
    /// The column of a line that is no number, and what it has.
    LineNumber(Column, &'a str),
    /// The column of a line whose number is out of range: what it has, and its least and greatest number.
    LineRange(Column, &'a str, u64, u64),
    /// The column of a line whose text is too long, and how many bytes it has.
    LineText(Column, usize),
    /// The word may be in a wrong place.
    Place(&'a str),
    /// The record where what does not end began, and the word that ends it.
    NoEnd(&'a str, u64, &'a str),
    /// Nothing stands in a block.
    EmptyBlock,
    /// A block has a 17th question.
    TooManyQuestions,
    /// A refresh has a 65th action.
    TooManyActions,
    /// An order has no lines.
    NoLines,
    /// An order has an eighth line.
    TooManyLines,
    /// The lines of an order have several keys.
    KeysDiffer,
    /// Two lines of an order have this number.
    LineRepeated(u8),
    /// There are more records than are read.
    TooLong,
    /// A request has more bytes than are read.
    RequestTooLong,
    /// The server takes no refreshes.
    ReadOnly,
    /// What a `sql` record takes, and where.
    Statement,
    /// Only questions may stand.
    OnlyQuestions,
    /// A question that is to stand has too many groups.
    TooManyGroups,
}

// What help says that has no values.
fn said(help: &ScriptHelp<'_>) -> &'static str {
    match help {
        ScriptHelp::Words => {
            "a record begins with query, sql, order, ask, answer, begin, add, amend, put, line, withdraw, commit or abort, \
             live also with format, columns, values or status, in small letters without spaces"
        }
        ScriptHelp::Format =>
            "format stands alone, in a live session; it takes report, table, csv, json, markdown or bars",
        ScriptHelp::LookUp =>
            "columns and status stand alone, in a live session, and take no fields",
        ScriptHelp::Values => {
            "values stands alone, in a live session; it takes the name of a column that questions read, which columns lists"
        }
        ScriptHelp::Statement => {
            "sql takes the text of a statement, and stands alone, in no block; the questions of a statement are answered \
             together"
        }
        ScriptHelp::EmptyBlock => {
            "nothing stands between the first and the last line of the block; take both away, or put an action or a \
             question between them"
        }
        ScriptHelp::TooManyQuestions =>
            "a block has at most 16 questions; put answer and ask before this one",
        ScriptHelp::TooManyActions =>
            "a refresh has at most 64 actions; put commit and begin before this one",
        ScriptHelp::NoLines =>
            "the order has no line; line records stand below its add, amend or put",
        ScriptHelp::TooManyLines =>
            "an order has at most 7 lines; put the others under another LO_ORDERKEY",
        ScriptHelp::KeysDiffer =>
            "the lines of an order have one LO_ORDERKEY; each other key has an add, amend or put of its own",
        ScriptHelp::TooLong => "a script has at most 1000000000 records; make two of it",
        ScriptHelp::RequestTooLong =>
            "a request has at most 1 MiB; end each refresh with commit, each block with answer",
        ScriptHelp::ReadOnly => {
            "the server could not write its journal when it started, and answers questions alone; make room on the \
             journal's disk, and start the server again"
        }
        ScriptHelp::OnlyQuestions =>
            "a file of standing questions has query and sql records alone, and 1 to 64 questions",
        ScriptHelp::TooManyGroups => {
            "it may have more than 65536 groups, of which no totals are kept; group it by fewer columns, test more, or \
             take it out: asked, it is answered all the same"
        }
        _ => "",
    }
}

impl<'a> fmt::Display for ScriptHelp<'a> {
    fn fmt<W: fmt::Write>(&self, f: &mut fmt::Formatter<W>) -> fmt::Result {
        match self {
            ScriptHelp::Record(path, number, record) => {
                write!(f, "{path} record {number} is {record}")
            }
            ScriptHelp::Alone(word) => write!(f, "{word} takes no fields"),
            ScriptHelp::Key(word) => write!(f, "{word} takes one field, the key of an order"),
            ScriptHelp::LineCount(count) => write!(
                f,
                "line takes the 17 fields of a row of lineorder, and was given {count}"
            ),
            ScriptHelp::LineNumber(column, value) => write!(
                f,
                "column {column} is {value}; a number of 1 to 20 digits is wanted"
            ),
            ScriptHelp::LineRange(column, value, least, most) => {
                write!(f, "column {column} is {value}; {least} to {most} is wanted")
            }
            ScriptHelp::LineText(column, bytes) => {
                write!(
                    f,
                    "column {column} has {bytes} bytes; at most 64 are wanted"
                )
            }
            ScriptHelp::Place(word) => write!(
                f,
                "{word} is in a wrong place; query, sql, order, ask and begin stand alone, add, amend, put and withdraw \
                 between begin and commit, line below add, amend or put"
            ),
            ScriptHelp::NoEnd(path, number, word) => {
                write!(
                    f,
                    "{path} record {number} begins what has no end; end it with {word} or abort"
                )
            }
            ScriptHelp::LineRepeated(number) => write!(
                f,
                "two lines of the order have LO_LINENUMBER {number}; number them from 1 to 7, each once"
            ),
            help => f.write_str(said(help)),
        }
    }
}
