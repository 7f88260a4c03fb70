//! Reports, each an answer or the rows of a statement.

ghost use Rattle.std.specs.Prelude.{◌≡◌, ◌++◌, IfOk, MatchResult, OnOk, flat_map};
ghost use Rattle.std.specs.Io.KnownBytes.{Appends};
ghost use Rattle.serde_json.specs.View.{members_view};
ghost use Rattle.ssb_formats.specs.Reports as spec;
ghost use Rattle.ssb_statements.specs.Listing.{rows_of};
ghost use Rattle.ssb_text.specs.Written.{AppendsPart};

use crate::fault::FormatFault;
use crate::format::{Format, push_opening, push_shown, write_text};
use crate::json_text::{object_line, put_title, titled_json};
use crate::statement_cells::StatementHeads;
use crate::statement_text::{statement_members, statement_text};
use serde_json::{Map, Value as Json};
use ssb_answers::Answer;
use ssb_schema::Text;
use ssb_statements::StatementRows;
use std::alloc::{AllocError, Global};
use std::io::Write;

/// What is reported.
#[derive(Drop)]
pub enum Reported<'a> {
    Answered(&'a Answer),
    Listed(StatementRows),
}

/// The rows of a statement in a format.
pub(crate) fn rows_text(
    alloc: Global,
    format: Format,
    rows: &StatementRows,
) -> Result<Vec<u8>, AllocError>
    ensures { IfOk result (λ text. text.items ≡ spec.rows_shown format (rows_of rows.now)) }
{
    let names = rows.heads.as_slice();
    let are_numbers = rows.are_numbers.as_slice();
    let heads = StatementHeads {
        heads: names,
        are_numbers,
    };
    let listed = rows.rows.as_slice();
    statement_text(alloc, format, heads, rows.at, listed)
}

// Adds the rows of a statement.
fn push_rows(
    alloc: Global,
    text: &mut Vec<u8>,
    format: Format,
    rows: &StatementRows,
) -> Result<(), AllocError>
    ensures { OnOk result (text.new.items ≡ text.old.items ++ spec.rows_shown format (rows_of rows.now)) }
{
    let shown = rows_text(alloc, format, rows)?;
    text.extend_from_slice(shown.as_slice())
}

/// Adds a report.
pub(crate) fn push_report(
    alloc: Global,
    text: &mut Vec<u8>,
    format: Format,
    report: &Reported<'_>,
) -> Result<(), AllocError>
    ensures { OnOk result (text.new.items ≡ text.old.items ++ spec.report_shown format report.now) }
{
    match report {
        Reported::Answered(answer) => push_shown(alloc, text, format, answer),
        Reported::Listed(rows) => push_rows(alloc, text, format, rows),
    }
}

/// The members of the object of rows.
pub(crate) fn rows_members(
    alloc: Global,
    rows: &StatementRows,
) -> Result<Map<String, Json>, AllocError>
    ensures { IfOk result (λ members. members_view members.entries ≡ spec.rows_members (rows_of rows.now)) }
{
    let heads = rows.heads.as_slice();
    let listed = rows.rows.as_slice();
    statement_members(alloc, heads, rows.at, listed)
}

fn titled_rows_json(
    alloc: Global,
    title: &Text,
    rows: &StatementRows,
) -> Result<Vec<u8>, AllocError>
    ensures { IfOk result (λ text. text.items ≡ spec.titled_rows_json title.now (rows_of rows.now)) }
{
    let mut members = rows_members(alloc, rows)?;
    put_title(alloc, &mut members, title)?;
    object_line(alloc, members)
}

/// The line of a report that has a title.
pub(crate) fn titled_report_json(
    alloc: Global,
    title: &Text,
    report: &Reported<'_>,
) -> Result<Vec<u8>, AllocError>
    ensures { IfOk result (λ text. text.items ≡ spec.titled_report_json title.now report.now) }
{
    match report {
        Reported::Answered(answer) => titled_json(alloc, title, answer),
        Reported::Listed(rows) => titled_rows_json(alloc, title, rows),
    }
}

// Adds a report behind another.
fn push_next(
    alloc: Global,
    text: &mut Vec<u8>,
    format: Format,
    report: &Reported<'_>,
) -> Result<(), AllocError>
    ensures { OnOk result (text.new.items ≡ text.old.items ++ spec.next_report_shown format report.now) }
{
    text.extend_from_slice(format.parting().as_bytes())?;
    push_report(alloc, text, format, report)
}

fn push_others(
    alloc: Global,
    text: &mut Vec<u8>,
    format: Format,
    reports: &[Reported<'_>],
) -> Result<(), AllocError>
    ensures { OnOk result
        (text.new.items ≡ text.old.items ++ flat_map (spec.next_report_shown format) reports.now) }
{
    for report in reports {
        push_next(alloc, text, format, report)?;
    }
    Ok(())
}

fn push_all(
    alloc: Global,
    text: &mut Vec<u8>,
    format: Format,
    reports: &[Reported<'_>],
) -> Result<(), AllocError>
    ensures { OnOk result (text.new.items ≡ text.old.items ++ spec.reports_parted format reports.now) }
{
    match reports {
        [] => Ok(()),
        [first, others @ ..] => {
            push_report(alloc, text, format, first)?;
            push_others(alloc, text, format, others)
        }
    }
}

fn reports_text(
    alloc: Global,
    format: Format,
    reports: &[Reported<'_>],
) -> Result<Vec<u8>, AllocError>
    ensures { IfOk result (λ text. text.items ≡ spec.reports_shown format reports.now) }
{
    let mut text = Vec::new(alloc);
    push_opening(&mut text, format)?;
    push_all(alloc, &mut text, format, reports)?;
    Ok(text)
}

/// Writes reports in a format, one after another. The memory that it takes is that of all their text; where it runs
/// out, nothing is written.
pub fn write_reports<W: Write>(
    alloc: Global,
    writer: &mut W,
    format: Format,
    reports: &[Reported<'_>],
) -> Result<(), FormatFault>
    ensures text { MatchResult result
        (λ _. Appends (W.contents writer.old) (W.contents writer.new) (spec.reports_shown format reports.now))
        (λ _. AppendsPart (W.contents writer.old) (W.contents writer.new) (spec.reports_shown format reports.now)) }
{
    match reports_text(alloc, format, reports) {
        Ok(text) => write_text(writer, text.as_slice()),
        Err(_) => Err(FormatFault::OutOfMemory),
    }
}
