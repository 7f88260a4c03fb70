//! What a client looks up beside its answers, written in one of a session's formats.

ghost use Rattle.std.specs.Prelude.{◌≡◌, ◌++◌, IfOk, MatchOption, OnOk};
ghost use Rattle.serde_json.specs.View.{members_view};
ghost use Rattle.ssb_formats.specs.Formats.{Shows};
ghost use Rattle.ssb_formats.specs.JsonText as json;
ghost use Rattle.ssb_formats.specs.OverviewShown as spec;
ghost use Rattle.ssb_formats.specs.StatementText as rows_text;
ghost use Rattle.ssb_report.specs.OverviewText.{overview_of, overview_text};
ghost use Rattle.ssb_text.specs.Numbers.{line_feed};

use crate::csv_text::csv_records;
use crate::fault::FormatFault;
use crate::format::{outcome, write_text};
use crate::json_text::object_line;
use crate::reply_format::ReplyFormat;
use crate::statement_cells::{StatementHeads, alignments};
use crate::statement_text::{all_json, all_texts, heads_json, markdown_text, push_grid};
use crate::title::push_count;
use itoa::Buffer;
use serde_json::{Map, Value as Json, put};
use ssb_report::{Overview, write_overview};
use ssb_schema::Items;
use ssb_statements::StatementCell;
use std::alloc::{AllocError, Global};
use std::io::Write;

// Adds how many rows are shown, where there are others.
fn push_part(text: &mut Vec<u8>, shown: usize, count: usize) -> Result<(), AllocError>
    ensures { OnOk result (text.new.items ≡ text.old.items ++ spec.part_text shown count) }
{
    if shown == count {
        return Ok(());
    }
    text.extend_from_slice(Buffer::new().format(shown).as_bytes())?;
    text.extend_from_slice(b" of ")
}

// Adds the line above the heads.
fn push_title(text: &mut Vec<u8>, name: &str, shown: usize, count: usize) -> Result<(), AllocError>
    ensures { OnOk result (text.new.items ≡ text.old.items ++ spec.title_text name.now shown count) }
{
    text.extend_from_slice(name.as_bytes())?;
    text.extend_from_slice(b": ")?;
    push_part(text, shown, count)?;
    push_count(text, count)?;
    Ok(text.push(b'\n')?)
}

// The rows below one another, under their heads.
fn table_text(alloc: Global, overview: &Overview) -> Result<Vec<u8>, AllocError>
    ensures { IfOk result (λ text. text.items ≡ spec.table_text (overview_of overview.now)) }
{
    let names = overview.heads.as_slice();
    let heads = StatementHeads {
        heads: names,
        are_numbers: overview.are_numbers.as_slice(),
    };
    let rows = overview.rows.as_slice();
    let alignments = alignments(alloc, heads, rows)?;
    let mut text = Vec::new(alloc);
    push_title(
        &mut text,
        overview.name.as_str(),
        rows.len(),
        overview.count,
    )?;
    push_grid(alloc, &mut text, alignments.as_slice(), names, rows)?;
    Ok(text)
}

// The rows as records of CSV, behind that of the heads.
fn csv_text(alloc: Global, overview: &Overview) -> Result<Vec<u8>, AllocError>
    ensures { IfOk result (λ text. text.items
        ≡ rows_text.csv_text overview.now.heads.items overview.now.rows.items) }
{
    let texts = all_texts(alloc, overview.rows.as_slice())?;
    csv_records(alloc, overview.heads.as_slice(), texts.as_slice())
}

// The rows as a table of Markdown.
fn markdown(alloc: Global, overview: &Overview) -> Result<Vec<u8>, AllocError>
    ensures { IfOk result (λ text. text.items
        ≡ rows_text.markdown_text overview.now.heads.items overview.now.are_numbers.items overview.now.rows.items) }
{
    let heads = StatementHeads {
        heads: overview.heads.as_slice(),
        are_numbers: overview.are_numbers.as_slice(),
    };
    markdown_text(alloc, heads, overview.rows.as_slice())
}

// The members of its object.
fn overview_members(alloc: Global, overview: &Overview) -> Result<Map<String, Json>, AllocError>
    ensures { IfOk result (λ members. members_view members.entries
        ≡ spec.overview_members (overview_of overview.now)) }
{
    let columns = heads_json(alloc, overview.heads.as_slice())?;
    let name = Json::try_from_str(alloc, overview.name.as_str())?;
    let rows = all_json(alloc, overview.rows.as_slice())?;
    let mut members = Map::new(alloc);
    put(&mut members, alloc, "columns", columns)?;
    put(&mut members, alloc, "list", name)?;
    put(&mut members, alloc, "of", Json::from(overview.count as u64))?;
    put(&mut members, alloc, "rows", rows)?;
    Ok(members)
}

// The line of its object.
fn overview_line(alloc: Global, overview: &Overview) -> Result<Vec<u8>, AllocError>
    ensures { IfOk result (λ text. text.items
        ≡ json.object_line (spec.overview_members (overview_of overview.now))) }
{
    let members = overview_members(alloc, overview)?;
    object_line(alloc, members)
}

// A text, and an empty line.
fn parted(mut text: Vec<u8>) -> Result<Vec<u8>, AllocError>
    ensures { IfOk result (λ whole. whole.items ≡ text.items ++ line_feed) }
{
    text.push(b'\n')?;
    Ok(text)
}

// Its text; none where it is that of the report.
fn overview_text(
    alloc: Global,
    format: ReplyFormat,
    overview: &Overview,
) -> Result<Option<Vec<u8>>, AllocError>
    ensures { IfOk result (λ text. MatchOption text
        (spec.overview_shown format (overview_of overview.now) ≡ overview_text (overview_of overview.now))
        (λ text. text.items ≡ spec.overview_shown format (overview_of overview.now))) }
{
    match format {
        ReplyFormat::Report => Ok(None),
        ReplyFormat::Json => Ok(Some(overview_line(alloc, overview)?)),
        ReplyFormat::Csv => Ok(Some(parted(csv_text(alloc, overview)?)?)),
        ReplyFormat::Markdown => Ok(Some(parted(markdown(alloc, overview)?)?)),
        ReplyFormat::Table | ReplyFormat::Bars => Ok(Some(parted(table_text(alloc, overview)?)?)),
    }
}

/// Writes what a client looks up as a session's format has it. The report takes no memory; any other takes that of its
/// text, and where it runs out, nothing is written.
pub fn write_overview_as<W: Write>(
    alloc: Global,
    writer: &mut W,
    format: ReplyFormat,
    overview: &Overview,
) -> Result<(), FormatFault>
    ensures { Shows (W.contents writer.old) (W.contents writer.new) result
        (spec.overview_shown format (overview_of overview.now)) }
{
    match overview_text(alloc, format, overview) {
        Ok(Some(text)) => write_text(writer, text.as_slice()),
        Ok(None) => outcome(write_overview(writer, overview)),
        Err(_) => Err(FormatFault::OutOfMemory),
    }
}
