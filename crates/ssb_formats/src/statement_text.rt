//! The rows of a statement, under its heads.

ghost use Rattle.std.specs.Prelude.{◌≡◌, ◌++◌, IfOk, OnOk, map};
ghost use Rattle.serde_json.specs.View.{members_view, view};
ghost use Rattle.ssb_formats.specs.Alignment.{aligned_line};
ghost use Rattle.ssb_formats.specs.MarkdownText.{line_text};
ghost use Rattle.ssb_report.specs.StatementText.{report_text, texts_of};
ghost use Rattle.ssb_formats.specs.StatementText as spec;

use crate::alignment::{Alignment, push_line};
use crate::csv_text::csv_records;
use crate::format::Format;
use crate::json_text::{object_line, sum_json, texts_json, value_json};
use crate::markdown_text::{push_line as push_markdown_line, push_rule as push_markdown_rule};
use crate::statement_bars::bars_text;
use crate::statement_cells::{StatementHeads, alignments, decimal_text, push_title, texts_of};
use crate::statement_html::html_text;
use crate::table_text::push_rule;
use serde_json::{Map, Value as Json, put};
use ssb_report::write_statement;
use ssb_schema::{Items, Text};
use ssb_statements::StatementCell;
use std::alloc::{AllocError, Global};

// The cells of each row.
pub(crate) fn all_texts(
    alloc: Global,
    rows: &[Items<StatementCell>],
) -> Result<Vec<Items<Text>>, AllocError>
    ensures { IfOk result (λ all. all.items ≡ map texts_of rows.now) }
{
    let mut all = Vec::new(alloc);
    for row in rows {
        let texts = texts_of(alloc, row.as_slice())?;
        all.push(Items::from_vec(texts))?;
    }
    Ok(all)
}

// The report: a line before the rows, and a line for each.
fn report_text(alloc: Global, at: u64, rows: &[Items<StatementCell>]) -> Result<Vec<u8>, AllocError>
    ensures { IfOk result (λ text. text.items ≡ report_text at rows.now) }
{
    let mut text = Vec::new(alloc);
    match write_statement(&mut text, at, rows) {
        Ok(()) => Ok(text),
        Err(_) => Err(AllocError),
    }
}

fn push_markdown_row(
    alloc: Global,
    text: &mut Vec<u8>,
    row: &Items<StatementCell>,
) -> Result<(), AllocError>
    ensures { OnOk result (text.new.items ≡ text.old.items ++ line_text (texts_of row.now)) }
{
    let texts = texts_of(alloc, row.as_slice())?;
    push_markdown_line(text, texts.as_slice())
}

pub(crate) fn markdown_text(
    alloc: Global,
    heads: StatementHeads<'_>,
    rows: &[Items<StatementCell>],
) -> Result<Vec<u8>, AllocError>
    ensures { IfOk result (λ text. text.items ≡ spec.markdown_text heads.entry.heads.now heads.entry.are_numbers.now
        rows.now) }
{
    let mut text = Vec::new(alloc);
    push_markdown_line(&mut text, heads.heads)?;
    push_markdown_rule(&mut text, heads.are_numbers)?;
    for row in rows {
        push_markdown_row(alloc, &mut text, row)?;
    }
    Ok(text)
}

fn push_grid_line(
    alloc: Global,
    text: &mut Vec<u8>,
    alignments: &[Alignment],
    row: &Items<StatementCell>,
) -> Result<(), AllocError>
    ensures { OnOk result (text.new.items ≡ text.old.items ++ aligned_line alignments.now (texts_of row.now)) }
{
    let texts = texts_of(alloc, row.as_slice())?;
    push_line(text, alignments, texts.as_slice())
}

// The heads, the line below them, and a line for each row.
pub(crate) fn push_grid(
    alloc: Global,
    text: &mut Vec<u8>,
    alignments: &[Alignment],
    heads: &[Text],
    rows: &[Items<StatementCell>],
) -> Result<(), AllocError>
    ensures { OnOk result (text.new.items ≡ text.old.items ++ spec.grid_text alignments.now heads.now rows.now) }
{
    push_line(text, alignments, heads)?;
    push_rule(text, alignments)?;
    for row in rows {
        push_grid_line(alloc, text, alignments, row)?;
    }
    Ok(())
}

#[tactic(auto, unfolding(crate::specs::StatementText::table_text))]
fn table_text(
    alloc: Global,
    heads: StatementHeads<'_>,
    at: u64,
    rows: &[Items<StatementCell>],
) -> Result<Vec<u8>, AllocError>
    ensures { IfOk result (λ text. text.items ≡ spec.table_text heads.entry.heads.now heads.entry.are_numbers.now at
        rows.now) }
{
    let alignments = alignments(alloc, heads, rows)?;
    let mut text = Vec::new(alloc);
    push_title(&mut text, at, rows.len())?;
    push_grid(alloc, &mut text, alignments.as_slice(), heads.heads, rows)?;
    Ok(text)
}

fn average_json(alloc: Global, number: Option<i128>) -> Result<Json, AllocError>
    ensures { IfOk result (λ json. view json ≡ spec.average_data number) }
{
    match number {
        Some(number) => {
            let text = decimal_text(alloc, number)?;
            Json::try_from_str(alloc, text.as_str())
        }
        None => Ok(Json::Null),
    }
}

fn cell_json(alloc: Global, cell: &StatementCell) -> Result<Json, AllocError>
    ensures { IfOk result (λ json. view json ≡ spec.cell_data cell.now) }
{
    match cell {
        StatementCell::Plain(None) => Ok(Json::Null),
        StatementCell::Plain(Some(value)) => value_json(alloc, value),
        StatementCell::Number(number) => Ok(sum_json(*number)),
        StatementCell::Decimal(number) => average_json(alloc, *number),
    }
}

#[tactic(auto, using(crate::proofs::CellLaws::map_push))]
fn row_json(alloc: Global, cells: &[StatementCell]) -> Result<Vec<Json>, AllocError>
    ensures { IfOk result (λ list. map view list.items ≡ map spec.cell_data cells.now) }
{
    let mut list = Vec::new(alloc);
    for cell in cells {
        list.push(cell_json(alloc, cell)?)?;
    }
    Ok(list)
}

fn line_json(alloc: Global, row: &Items<StatementCell>) -> Result<Json, AllocError>
    ensures { IfOk result (λ json. view json ≡ spec.row_data row.now) }
{
    let list = row_json(alloc, row.as_slice())?;
    let json = Json::from(list);
    Ok(json)
}

#[tactic(auto, using(crate::proofs::CellLaws::map_push))]
fn rows_json(alloc: Global, rows: &[Items<StatementCell>]) -> Result<Vec<Json>, AllocError>
    ensures { IfOk result (λ list. map view list.items ≡ map spec.row_data rows.now) }
{
    let mut list = Vec::new(alloc);
    for row in rows {
        list.push(line_json(alloc, row)?)?;
    }
    Ok(list)
}

pub(crate) fn all_json(alloc: Global, rows: &[Items<StatementCell>]) -> Result<Json, AllocError>
    ensures { IfOk result (λ json. view json ≡ spec.rows_data rows.now) }
{
    let list = rows_json(alloc, rows)?;
    let json = Json::from(list);
    Ok(json)
}

pub(crate) fn heads_json(alloc: Global, heads: &[Text]) -> Result<Json, AllocError>
    ensures { IfOk result (λ json. view json ≡ spec.heads_data heads.now) }
{
    let list = texts_json(alloc, heads)?;
    let json = Json::from(list);
    Ok(json)
}

fn members(
    alloc: Global,
    at: u64,
    columns: Json,
    rows: Json,
) -> Result<Map<String, Json>, AllocError>
    ensures { IfOk result (λ members. members_view members.entries ≡ spec.members at (view columns) (view rows)) }
{
    let mut members = Map::new(alloc);
    put(&mut members, alloc, "at", Json::from(at))?;
    put(&mut members, alloc, "columns", columns)?;
    put(
        &mut members,
        alloc,
        "query",
        Json::try_from_str(alloc, "sql")?,
    )?;
    put(&mut members, alloc, "rows", rows)?;
    Ok(members)
}

/// The members of the object of rows.
pub(crate) fn statement_members(
    alloc: Global,
    heads: &[Text],
    at: u64,
    rows: &[Items<StatementCell>],
) -> Result<Map<String, Json>, AllocError>
    ensures { IfOk result (λ members. members_view members.entries
        ≡ spec.members at (spec.heads_data heads.now) (spec.rows_data rows.now)) }
{
    let columns = heads_json(alloc, heads)?;
    let rows = all_json(alloc, rows)?;
    members(alloc, at, columns, rows)
}

fn json_text(
    alloc: Global,
    heads: &[Text],
    at: u64,
    rows: &[Items<StatementCell>],
) -> Result<Vec<u8>, AllocError>
    ensures { IfOk result (λ text. text.items ≡ spec.json_text heads.now at rows.now) }
{
    let members = statement_members(alloc, heads, at, rows)?;
    object_line(alloc, members)
}

/// The rows of a statement under its heads, as they are after so many commits.
pub(crate) fn statement_text(
    alloc: Global,
    format: Format,
    heads: StatementHeads<'_>,
    at: u64,
    rows: &[Items<StatementCell>],
) -> Result<Vec<u8>, AllocError>
    ensures { IfOk result (λ text. text.items ≡ spec.shown format heads.entry.heads.now heads.entry.are_numbers.now at
        rows.now) }
{
    match format {
        Format::Report => report_text(alloc, at, rows),
        Format::Csv => {
            let texts = all_texts(alloc, rows)?;
            csv_records(alloc, heads.heads, texts.as_slice())
        }
        Format::Json => json_text(alloc, heads.heads, at, rows),
        Format::Markdown => markdown_text(alloc, heads, rows),
        Format::Table => table_text(alloc, heads, at, rows),
        Format::Bars { width } => bars_text(alloc, width, heads, at, rows),
        Format::Html => html_text(alloc, heads, at, rows),
    }
}
