//! What is wrong with a script.

use crate::lines::write_line;
use crate::nearest::nearest;
use crate::questions::{QuestionHelp, help_with_question};
use crate::records::{record_of, text_at, texts_from};
use crate::script_help::ScriptHelp;
use crate::statements::help_with_statement;
use csv::ByteRecord;
use ssb_schema::{Column, Kind, SchemaFault, Table, number};
use ssb_script::ScriptError;
use ssb_text::{has_columns, next_record, record_reader, trimmed_at};
use std::alloc::Global;
use std::io;
use std::io::{Read, Write};

// The words that records begin with.
const WORDS: [&str; 17] = [
    "query", "sql", "order", "begin", "add", "amend", "put", "line", "withdraw", "commit", "ask",
    "answer", "abort", "format", "columns", "values", "status",
];

// The column of a `line` record that is no number where one is wanted.
fn no_number(record: &ByteRecord) -> Option<Column> {
    let mut place = 0usize;
    for kind in Table::Lineorder.kinds() {
        place = place.saturating_add(1);
        if matches!(kind, Kind::Number { .. }) && number(trimmed_at(record, place)).is_none() {
            return Some(Column {
                table: Table::Lineorder,
                place,
            });
        }
    }
    None
}

fn help_with_line<E: Write>(
    alloc: Global,
    record: &ByteRecord,
    given: usize,
    err: &mut E,
) -> io::Result<()> {
    if !has_columns(record, 18) {
        return write_line(err, &ScriptHelp::LineCount(given));
    }
    match no_number(record) {
        Some(column) => {
            let value = text_at(alloc, record, column.place)?;
            write_line(err, &ScriptHelp::LineNumber(column, value.as_str()))
        }
        None => write_line(err, &ScriptHelp::Place("line")),
    }
}

// Says what is wrong with a record of a word that takes a key.
fn help_with_key<E: Write>(record: &ByteRecord, word: &str, err: &mut E) -> io::Result<()> {
    if has_columns(record, 2) && number(trimmed_at(record, 1)).is_some() {
        write_line(err, &ScriptHelp::Place(word))
    } else {
        write_line(err, &ScriptHelp::Key(word))
    }
}

fn help_with_word<E: Write>(alloc: Global, word: &str, err: &mut E) -> io::Result<()> {
    if let Some(near) = nearest(alloc, word, &WORDS, 2)? {
        write_line(err, &QuestionHelp::DidYouMean(near))?;
    }
    write_line(err, &ScriptHelp::Words)
}

// Whether a record of this word has no fields.
fn stands_alone(word: &str) -> bool {
    matches!(
        word,
        "begin" | "add" | "amend" | "put" | "commit" | "ask" | "answer" | "abort"
    )
}

/// Whether records begin with this word.
pub fn begins_record(word: &str) -> bool {
    WORDS.iter().any(|own| *own == word)
}

// Says what is wrong with the fields of a record, the word first.
fn help_with_fields<E: Write>(
    alloc: Global,
    record: &ByteRecord,
    fields: &[&str],
    err: &mut E,
) -> io::Result<()> {
    match fields {
        ["query", name, constants @ ..] => {
            if help_with_question(alloc, name, constants, err)? {
                return Ok(());
            }
            write_line(err, &ScriptHelp::Place("query"))
        }
        ["line", rest @ ..] => help_with_line(alloc, record, rest.len(), err),
        [word @ ("withdraw" | "order"), ..] => help_with_key(record, word, err),
        ["format", ..] => write_line(err, &ScriptHelp::Format),
        ["columns" | "status", ..] => write_line(err, &ScriptHelp::LookUp),
        ["values", ..] => write_line(err, &ScriptHelp::Values),
        ["sql", ..] => write_line(err, &ScriptHelp::Statement),
        [word] if stands_alone(word) => write_line(err, &ScriptHelp::Place(word)),
        [word, ..] if stands_alone(word) => write_line(err, &ScriptHelp::Alone(word)),
        [word, ..] => help_with_word(alloc, word, err),
        [] => Ok(()),
    }
}

// Says what is wrong with a record that a script does not take there: its question, its word, its fields or its place.
fn help_with_bad_line<E: Write>(alloc: Global, record: &ByteRecord, err: &mut E) -> io::Result<()> {
    let texts = texts_from(alloc, record, 0)?;
    let mut fields = Vec::new(alloc);
    for text in texts.iter() {
        fields.push(text.as_str())?;
    }
    help_with_fields(alloc, record, fields.as_slice(), err)
}

// Says which numbers a column takes, and what a `line` record has there.
fn help_with_range<E: Write>(
    alloc: Global,
    record: &ByteRecord,
    column: Column,
    err: &mut E,
) -> io::Result<()> {
    match column.kind() {
        Some(Kind::Number { least, most }) => {
            let value = text_at(alloc, record, column.place)?;
            write_line(
                err,
                &ScriptHelp::LineRange(column, value.as_str(), least, most),
            )
        }
        _ => Ok(()),
    }
}

// Says what the schema refuses: a `line` record, or what began with the record.
fn help_with_schema<E: Write>(
    alloc: Global,
    record: &ByteRecord,
    fault: SchemaFault,
    err: &mut E,
) -> io::Result<()> {
    match fault {
        SchemaFault::NoLines => write_line(err, &ScriptHelp::NoLines),
        SchemaFault::TooManyLines => write_line(err, &ScriptHelp::TooManyLines),
        SchemaFault::KeysDiffer => write_line(err, &ScriptHelp::KeysDiffer),
        SchemaFault::LineRepeated(number) => write_line(err, &ScriptHelp::LineRepeated(number)),
        SchemaFault::TooManyActions => write_line(err, &ScriptHelp::TooManyActions),
        SchemaFault::OutOfRange(column) => help_with_range(alloc, record, column, err),
        SchemaFault::FieldTooLong(column) => {
            let bytes = trimmed_at(record, column.place).len();
            write_line(err, &ScriptHelp::LineText(column, bytes))
        }
        _ => Ok(()),
    }
}

/// Says what is wrong with the statement of a `sql` record, which is read once more.
pub fn help_with_sql<E: Write>(alloc: Global, record: &ByteRecord, err: &mut E) -> io::Result<()> {
    let texts = texts_from(alloc, record, 1)?;
    let text = texts.as_slice().join(alloc, "|")?;
    help_with_statement(alloc, text.as_str(), err)
}

/// The number of the record that a fault is told of, from 1, where it is told of one.
pub fn record_told(fault: &ScriptError) -> Option<u64> {
    match fault {
        ScriptError::BadLine(number)
        | ScriptError::EmptyBlock(number)
        | ScriptError::Row(number, _)
        | ScriptError::TooManyQuestions(number)
        | ScriptError::Sql(number, _) => Some(*number),
        _ => None,
    }
}

/// Writes what is wrong with the record that a fault of a script, or of a request, is told of.
pub fn write_record_help<E: Write>(
    alloc: Global,
    record: &ByteRecord,
    fault: &ScriptError,
    err: &mut E,
) -> io::Result<()> {
    match fault {
        ScriptError::BadLine(_) => help_with_bad_line(alloc, record, err),
        ScriptError::EmptyBlock(_) => write_line(err, &ScriptHelp::EmptyBlock),
        ScriptError::Row(_, fault) => help_with_schema(alloc, record, *fault, err),
        ScriptError::TooManyQuestions(_) => write_line(err, &ScriptHelp::TooManyQuestions),
        ScriptError::Sql(_, _) => help_with_sql(alloc, record, err),
        _ => Ok(()),
    }
}

/// Shows the record of this number of a text that is called so, and gives it.
pub fn show_record<I: Read + Drop, E: Write>(
    alloc: Global,
    name: &str,
    source: I,
    number: u64,
    err: &mut E,
) -> io::Result<Option<ByteRecord>> {
    let Some(record) = record_of(alloc, source, number)? else {
        return Ok(None);
    };
    let texts = texts_from(alloc, &record, 0)?;
    let text = texts.as_slice().join(alloc, "|")?;
    write_line(err, &ScriptHelp::Record(name, number, text.as_str()))?;
    Ok(Some(record))
}

/// Shows the record of a fault of a text that is called so, and says what is wrong with it.
pub fn help_with_record<I: Read + Drop, E: Write>(
    alloc: Global,
    name: &str,
    source: I,
    fault: &ScriptError,
    err: &mut E,
) -> io::Result<()> {
    let Some(number) = record_told(fault) else {
        return Ok(());
    };
    match show_record(alloc, name, source, number, err)? {
        Some(record) => write_record_help(alloc, &record, fault, err),
        None => Ok(()),
    }
}

// The number of the last record that has but this word.
fn last_of<I: Read + Drop>(alloc: Global, source: I, word: &str) -> Option<u64> {
    let mut last = None;
    let mut reader = record_reader(alloc, source);
    let mut record = ByteRecord::new(alloc);
    for number in 1..u64::MAX {
        match next_record(&mut reader, &mut record) {
            Ok(true) => {}
            _ => break,
        }
        if trimmed_at(&record, 0) == word.as_bytes() {
            last = Some(number);
        }
    }
    last
}

// Says where what begins with a word, and does not end, begins.
fn help_with_end<I: Read + Drop, E: Write>(
    alloc: Global,
    name: &str,
    source: I,
    begin: &str,
    end: &str,
    err: &mut E,
) -> io::Result<()> {
    match last_of(alloc, source, begin) {
        Some(number) => write_line(err, &ScriptHelp::NoEnd(name, number, end)),
        None => Ok(()),
    }
}

/// Writes what is wrong with the text of a script, or of a request, that is called so, by a fault that is told of no
/// record.
pub fn write_script_help<I: Read + Drop, E: Write>(
    alloc: Global,
    name: &str,
    source: I,
    fault: &ScriptError,
    err: &mut E,
) -> io::Result<()> {
    match fault {
        ScriptError::NoCommit => help_with_end(alloc, name, source, "begin", "commit", err),
        ScriptError::NoAnswer => help_with_end(alloc, name, source, "ask", "answer", err),
        ScriptError::TooLong => write_line(err, &ScriptHelp::TooLong),
        _ => Ok(()),
    }
}
