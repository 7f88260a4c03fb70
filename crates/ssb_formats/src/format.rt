//! Answers, written in a format.

ghost use Rattle.std.specs.Prelude.{◌≡◌, ◌∷◌, ◌++◌, IfOk, MatchOption, MatchResult, OnOk, flat_map, is_err};
ghost use Rattle.std.specs.Io.KnownBytes.{Appends};
ghost use Rattle.ssb_formats.specs.Formats.{Shows, answers_parted, answers_shown, next_shown, opening, parting, shown};
ghost use Rattle.ssb_report.specs.AnswerText.{answer_text};
ghost use Rattle.ssb_text.specs.Written.{AppendsPart};

use crate::bars_text::bars_text;
use crate::csv_text::csv_text;
use crate::fault::FormatFault;
use crate::html_text::{html_text, unserved_html};
use crate::json_text::json_text;
use crate::markdown_text::markdown_text;
use crate::markup::Markup;
use crate::table_text::table_text;
use ssb_answers::Answer;
use ssb_questions::question::plan;
use ssb_report::write_answer;
use ssb_text::{WriteFault, write_bytes};
use std::alloc::{AllocError, Global};
use std::io::Write;

/// How answers are written.
#[derive(Clone, Copy, Debug, PartialEq, Eq)]
pub enum Format {
    /// The report.
    Report,
    /// Comma-separated values, below the names of the columns.
    Csv,
    /// An object a line.
    Json,
    /// A table of Markdown.
    Markdown,
    /// A table whose columns stand below one another.
    Table,
    /// Bars, beside the group columns and the sums.
    Bars {
        /// The columns of a terminal that a line may take.
        width: usize,
    },
    /// A page of HTML, with bars.
    Html,
}

impl Format {
    // What parts an answer from the next.
    pub(crate) fn parting(self) -> &'static str
        ensures { result.now ≡ parting self }
    {
        match self {
            Format::Report | Format::Json | Format::Html => "",
            Format::Csv | Format::Markdown | Format::Table | Format::Bars { .. } => "\n",
        }
    }
}

// The text of an answer; none where it is that of the report.
fn text_of(alloc: Global, format: Format, answer: &Answer) -> Result<Option<Vec<u8>>, AllocError>
    ensures { IfOk result (λ text. MatchOption text (shown format answer.now ≡ answer_text answer.now)
        (λ text. text.items ≡ shown format answer.now)) }
{
    match (format, answer) {
        (Format::Json, _) => Ok(Some(json_text(alloc, answer)?)),
        (Format::Csv, Answer::Rows { question, rows, .. }) => {
            let plan = plan(alloc, question)?;
            Ok(Some(csv_text(alloc, question.query(), &plan, rows.as_slice())?))
        }
        (Format::Markdown, Answer::Rows { question, rows, .. }) => {
            let plan = plan(alloc, question)?;
            Ok(Some(markdown_text(alloc, question.query(), &plan, rows.as_slice())?))
        }
        (Format::Table, Answer::Rows { question, at, rows }) => {
            let plan = plan(alloc, question)?;
            let text = table_text(alloc, question.query(), &plan, *at, rows.as_slice())?;
            Ok(Some(text))
        }
        (Format::Bars { width }, Answer::Rows { question, at, rows }) => {
            let plan = plan(alloc, question)?;
            let text = bars_text(alloc, width, question.query(), &plan, *at, rows.as_slice())?;
            Ok(Some(text))
        }
        (Format::Html, Answer::Rows { question, at, rows }) => {
            let plan = plan(alloc, question)?;
            let text = html_text(alloc, question.query(), &plan, *at, rows.as_slice())?;
            Ok(Some(text))
        }
        (Format::Html, Answer::Unserved { question, cause }) => {
            Ok(Some(unserved_html(alloc, question.query(), *cause)?))
        }
        _ => Ok(None),
    }
}

/// Adds what stands before all answers.
pub(crate) fn push_opening(text: &mut Vec<u8>, format: Format) -> Result<(), AllocError>
    ensures { OnOk result (text.new.items ≡ text.old.items ++ opening format) }
{
    match format {
        Format::Html => Markup::Page.push(text),
        _ => Ok(()),
    }
}

/// Adds the text of an answer.
pub(crate) fn push_shown(
    alloc: Global,
    text: &mut Vec<u8>,
    format: Format,
    answer: &Answer,
) -> Result<(), AllocError>
    ensures { OnOk result (text.new.items ≡ text.old.items ++ shown format answer.now) }
{
    match text_of(alloc, format, answer)? {
        Some(shown) => text.extend_from_slice(shown.as_slice()),
        None => match write_answer(text, answer) {
            Ok(()) => Ok(()),
            Err(_) => Err(AllocError),
        },
    }
}

/// What a failed write is called here.
pub(crate) fn outcome(written: Result<(), WriteFault>) -> Result<(), FormatFault>
    ensures { is_err result ≡ is_err written }
{
    match written {
        Ok(()) => Ok(()),
        Err(_) => Err(FormatFault::WriteFailed),
    }
}

/// Writes a text.
pub(crate) fn write_text<W: Write>(writer: &mut W, text: &[u8]) -> Result<(), FormatFault>
    ensures { Shows (W.contents writer.old) (W.contents writer.new) result text.now }
{
    outcome(write_bytes(writer, text))
}

fn write_shown<W: Write>(
    alloc: Global,
    writer: &mut W,
    format: Format,
    answer: &Answer,
) -> Result<(), FormatFault>
    ensures { Shows (W.contents writer.old) (W.contents writer.new) result (shown format answer.now) }
{
    match text_of(alloc, format, answer) {
        Ok(Some(text)) => write_text(writer, text.as_slice()),
        Ok(None) => outcome(write_answer(writer, answer)),
        Err(_) => Err(FormatFault::OutOfMemory),
    }
}

fn write_parting<W: Write>(writer: &mut W, format: Format) -> Result<(), FormatFault>
    ensures { Shows (W.contents writer.old) (W.contents writer.new) result (parting format) }
{
    write_text(writer, format.parting().as_bytes())
}

// An answer behind another.
fn write_next<W: Write>(
    alloc: Global,
    writer: &mut W,
    format: Format,
    answer: &Answer,
) -> Result<(), FormatFault>
    ensures { Shows (W.contents writer.old) (W.contents writer.new) result (next_shown format answer.now) }
{
    write_parting(writer, format)?;
    write_shown(alloc, writer, format, answer)
}

fn write_others<W: Write>(
    alloc: Global,
    writer: &mut W,
    format: Format,
    answers: &[Answer],
) -> Result<(), FormatFault>
    ensures { Shows (W.contents writer.old) (W.contents writer.new) result
        (flat_map (next_shown format) answers.now) }
{
    for answer in answers {
        write_next(alloc, writer, format, answer)?;
    }
    Ok(())
}

fn write_first_and_others<W: Write>(
    alloc: Global,
    writer: &mut W,
    format: Format,
    first: &Answer,
    others: &[Answer],
) -> Result<(), FormatFault>
    ensures { Shows (W.contents writer.old) (W.contents writer.new) result
        (answers_parted format (first.now ∷ others.now)) }
{
    write_shown(alloc, writer, format, first)?;
    write_others(alloc, writer, format, others)
}

// Writes what stands before all answers.
fn write_opening<W: Write>(alloc: Global, writer: &mut W, format: Format) -> Result<(), FormatFault>
    ensures { Shows (W.contents writer.old) (W.contents writer.new) result (opening format) }
{
    let mut text = Vec::new(alloc);
    match push_opening(&mut text, format) {
        Ok(()) => write_text(writer, text.as_slice()),
        Err(_) => Err(FormatFault::OutOfMemory),
    }
}

/// Writes answers in a format, one after another.
pub(crate) fn write_parted<W: Write>(
    alloc: Global,
    writer: &mut W,
    format: Format,
    answers: &[Answer],
) -> Result<(), FormatFault>
    ensures { Shows (W.contents writer.old) (W.contents writer.new) result (answers_parted format answers.now) }
{
    match answers {
        [] => Ok(()),
        [first, others @ ..] => write_first_and_others(alloc, writer, format, first, others),
    }
}

/// Writes answers in a format, one after another. The memory that it takes is that of the text of one answer; the
/// report takes none.
pub fn write_formatted<W: Write>(
    alloc: Global,
    writer: &mut W,
    format: Format,
    answers: &[Answer],
) -> Result<(), FormatFault>
    ensures text { MatchResult result
        (λ _. Appends (W.contents writer.old) (W.contents writer.new) (answers_shown format answers.now))
        (λ _. AppendsPart (W.contents writer.old) (W.contents writer.new) (answers_shown format answers.now)) }
{
    write_opening(alloc, writer, format)?;
    write_parted(alloc, writer, format, answers)
}
