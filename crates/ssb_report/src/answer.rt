//! The report of an answer.
ghost use Rattle.std.specs.Prelude.{◌≡◌, OnOk, OnErr, flat_map};
ghost use Rattle.std.specs.Io.KnownBytes.{Appends};
ghost use Rattle.ssb_text.specs.Piece.{after_bar, piece_text};
ghost use Rattle.ssb_text.specs.Written.{StopsShort, Writes};
ghost use Rattle.ssb_report.specs.AnswerText.{answer_text, head_text, row_text, rows_text, unserved_by, value_text};
ghost use Rattle.ssb_report.specs.AnswerText.{with_bar};

use ssb_answers::{Answer, ResultRow, Unserved};
use ssb_questions::{Query, Value};
use ssb_text::{Piece, WriteFault, write_pieces};
use std::io::Write;

/// The printed text of a group column's value.
pub(crate) fn piece_of(value: &Value) -> Piece<'_>
    ensures { piece_text result ≡ value_text value.now }
{
    match value {
        Value::Text(text) => Piece::Text(text.as_str()),
        Value::Number(number) => Piece::Number(*number),
    }
}

// The values, each with a `|` behind it.
fn write_before_sum<W: Write>(writer: &mut W, groups: &[Value]) -> Result<(), WriteFault>
    ensures { Writes (W.contents writer.old) (W.contents writer.new) result (flat_map with_bar groups.now) }
{
    for value in groups {
        write_pieces(writer, &[piece_of(value), Piece::Text("|")])?;
    }
    Ok(())
}

/// Writes values, each behind a bar. It takes no memory.
pub fn write_after_bars<W: Write>(writer: &mut W, groups: &[Value]) -> Result<(), WriteFault>
    ensures { Writes (W.contents writer.old) (W.contents writer.new) result
        (flat_map (after_bar value_text) groups.now) }
{
    for value in groups {
        write_pieces(writer, &[Piece::Text("|"), piece_of(value)])?;
    }
    Ok(())
}

/// Writes the line of a row of an answer to the query. It takes no memory.
pub fn write_row<W: Write>(writer: &mut W, query: Query, row: &ResultRow) -> Result<(), WriteFault>
    ensures { Writes (W.contents writer.old) (W.contents writer.new) result (row_text query row.now) }
{
    let groups = row.groups.as_slice();
    if query.sum_stands_first() {
        write_pieces(writer, &[Piece::Sum(row.sum)])?;
        write_after_bars(writer, groups)?;
        write_pieces(writer, &[Piece::Text("\n")])
    } else {
        write_before_sum(writer, groups)?;
        write_pieces(writer, &[Piece::Sum(row.sum), Piece::Text("\n")])
    }
}

// The line before the rows.
fn write_head<W: Write>(
    writer: &mut W,
    query: Query,
    at: u64,
    count: usize,
) -> Result<(), WriteFault>
    ensures { Writes (W.contents writer.old) (W.contents writer.new) result (head_text query at count) }
{
    let name = Piece::Text(query.name());
    let count = Piece::Number(count as u64);
    write_pieces(
        writer,
        &[
            name,
            Piece::Text(" at "),
            Piece::Number(at),
            Piece::Text(" rows "),
            count,
            Piece::Text("\n"),
        ],
    )
}

fn write_rows<W: Write>(writer: &mut W, query: Query, rows: &[ResultRow]) -> Result<(), WriteFault>
    ensures { Writes (W.contents writer.old) (W.contents writer.new) result (flat_map (row_text query) rows.now) }
{
    for row in rows {
        write_row(writer, query, row)?;
    }
    Ok(())
}

// The line before the rows, and a line for each.
fn write_head_and_rows<W: Write>(
    writer: &mut W,
    query: Query,
    at: u64,
    rows: &[ResultRow],
) -> Result<(), WriteFault>
    ensures { Writes (W.contents writer.old) (W.contents writer.new) result (rows_text query at rows.now) }
{
    write_head(writer, query, at, rows.len())?;
    write_rows(writer, query, rows)
}

/// Writes the line in place of the rows of what has this name. It takes no memory.
pub(crate) fn write_unserved<'a, W: Write>(
    writer: &mut W,
    name: &'a str,
    cause: Unserved,
) -> Result<(), WriteFault>
    ensures { Writes (W.contents writer.old) (W.contents writer.new) result (unserved_by name.now cause) }
{
    let name = Piece::Text(name);
    match cause {
        Unserved::OutOfMemory => write_pieces(
            writer,
            &[name, Piece::Text(" unserved: out of memory\n")],
        ),
        Unserved::Twin { told, found } => write_pieces(
            writer,
            &[
                name,
                Piece::Text(" unserved: twin "),
                Piece::Number(told),
                Piece::Text(" "),
                Piece::Number(found),
                Piece::Text("\n"),
            ],
        ),
    }
}

/// Writes the report of an answer: a line with the query's name, the number of commits and that of the
/// rows, and a line for each row; or the line of an unserved question. It takes no memory.
pub fn write_answer<W: Write>(writer: &mut W, answer: &Answer) -> Result<(), WriteFault>
    ensures report { OnOk result (Appends (W.contents writer.old) (W.contents writer.new) (answer_text answer.now)) }
    ensures fault { OnErr result (StopsShort (W.contents writer.old) (W.contents writer.new) (answer_text answer.now)) }
{
    match answer {
        Answer::Rows { question, at, rows } => {
            write_head_and_rows(writer, question.query(), *at, rows.as_slice())
        }
        Answer::Unserved { question, cause } => write_unserved(
            writer,
            question.query().name(),
            *cause,
        ),
    }
}

/// Writes the reports of answers, one after another.
pub fn write_answers<W: Write>(writer: &mut W, answers: &[Answer]) -> Result<(), WriteFault>
    ensures { Writes (W.contents writer.old) (W.contents writer.new) result (flat_map answer_text answers.now) }
{
    for answer in answers {
        write_answer(writer, answer)?;
    }
    Ok(())
}
