//! The records of answers.
ghost use Rattle.std.specs.Prelude.{◌++◌, flat_map};
ghost use Rattle.ssb_text.specs.Written.{Writes};
ghost use Rattle.ssb_report.specs.AnswerText.{value_text};
ghost use Rattle.ssb_text.specs.Piece.{after_bar};
ghost use Rattle.ssb_text.specs.Numbers.{line_feed};
ghost use Rattle.ssb_trace.specs.TraceText.{written_constants, count_text, head_text, told_row_text, told_text};

use ssb_answers::ResultRow;
use ssb_audit::Told;
use ssb_questions::{Query, Question};
use ssb_report::{write_after_bars, write_row};
use ssb_text::{Piece, WriteFault, write_pieces};
use std::io::Write;

// The constants of a question, each behind a bar, where they are not those that its query has where none are given.
fn write_constants<W: Write>(writer: &mut W, question: &Question) -> Result<(), WriteFault>
    ensures { Writes (W.contents writer.old) (W.contents writer.new) result
        (flat_map (after_bar value_text) (written_constants question.now)) }
{
    if question.is_standard() {
        return Ok(());
    }
    write_after_bars(writer, question.constants())
}

// The fields of an answer's first record that every answer has.
fn write_counts<W: Write>(writer: &mut W, told: &Told) -> Result<(), WriteFault>
    ensures { Writes (W.contents writer.old) (W.contents writer.new) result (count_text told.now) }
{
    write_pieces(
        writer,
        &[
            Piece::Text("answer|"),
            Piece::Number(u64::from(told.client)),
            Piece::Text("|"),
            Piece::Number(told.at),
            Piece::Text("|"),
            Piece::Text(told.question.query().name()),
            Piece::Text("|"),
            Piece::Number(told.rows.len() as u64),
        ],
    )
}

// These and the constants.
fn write_fields<W: Write>(writer: &mut W, told: &Told) -> Result<(), WriteFault>
    ensures { Writes (W.contents writer.old) (W.contents writer.new) result
        (count_text told.now ++ flat_map (after_bar value_text) (written_constants told.now.question)) }
{
    write_counts(writer, told)?;
    write_constants(writer, &told.question)
}

// The record of an answer.
fn write_head<W: Write>(writer: &mut W, told: &Told) -> Result<(), WriteFault>
    ensures { Writes (W.contents writer.old) (W.contents writer.new) result (head_text told.now) }
{
    write_fields(writer, told)?;
    write_pieces(writer, &[Piece::Text("\n")])
}

// The record of a row.
fn write_told_row<W: Write>(writer: &mut W, query: Query, row: &ResultRow) -> Result<(), WriteFault>
    ensures { Writes (W.contents writer.old) (W.contents writer.new) result (told_row_text query row.now) }
{
    write_pieces(writer, &[Piece::Text("row|")])?;
    write_row(writer, query, row)
}

fn write_told_rows<W: Write>(
    writer: &mut W,
    query: Query,
    rows: &[ResultRow],
) -> Result<(), WriteFault>
    ensures { Writes (W.contents writer.old) (W.contents writer.new) result (flat_map (told_row_text query) rows.now) }
{
    for row in rows {
        write_told_row(writer, query, row)?;
    }
    Ok(())
}

fn write_answer<W: Write>(writer: &mut W, told: &Told) -> Result<(), WriteFault>
    ensures { Writes (W.contents writer.old) (W.contents writer.new) result (told_text told.now) }
{
    write_head(writer, told)?;
    write_told_rows(writer, told.question.query(), told.rows.as_slice())
}

pub(crate) fn write_answers<W: Write>(writer: &mut W, answers: &[Told]) -> Result<(), WriteFault>
    ensures { Writes (W.contents writer.old) (W.contents writer.new) result (flat_map told_text answers.now) }
{
    for told in answers {
        write_answer(writer, told)?;
    }
    Ok(())
}
