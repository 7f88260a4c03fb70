//! An answer as a table of a page of HTML, with a bar beside each sum.

ghost use Rattle.std.specs.Prelude.{◌≡◌, ◌++◌, IfOk, OnOk};
ghost use Rattle.ssb_formats.specs.Cells.{are_numbers as flags};
ghost use Rattle.ssb_formats.specs.HtmlText as spec;

use crate::bar::{Scale, bar_length, greatest_of, size_of};
use crate::cells::{are_numbers, head_cells, row_cells};
use crate::json_text::cause_name;
use crate::markup::Markup;
use crate::title::push_title;
use itoa::Buffer;
use ssb_answers::{ResultRow, Unserved};
use ssb_questions::{Plan, Query};
use ssb_schema::Text;
use std::alloc::{AllocError, Global};

// A byte of a text, by its name where HTML could read it as markup.
fn push_byte(text: &mut Vec<u8>, byte: u8) -> Result<(), AllocError>
    ensures { OnOk result (text.new.items ≡ text.old.items ++ spec.escaped_byte byte) }
{
    if byte == b'&' {
        return text.extend_from_slice(b"&amp;");
    }
    if byte == b'<' {
        return text.extend_from_slice(b"&lt;");
    }
    if byte == b'>' {
        return text.extend_from_slice(b"&gt;");
    }
    Ok(text.push(byte)?)
}

fn push_escaped(text: &mut Vec<u8>, bytes: &[u8]) -> Result<(), AllocError>
    ensures { OnOk result (text.new.items ≡ text.old.items ++ spec.escaped bytes.now) }
{
    for byte in bytes {
        push_byte(text, *byte)?;
    }
    Ok(())
}

fn cell_open(is_number: bool) -> &'static str
    ensures { result.now ≡ spec.cell_open is_number }
{
    if is_number {
        "<td class=\"n\">"
    } else {
        "<td>"
    }
}

fn push_cell(text: &mut Vec<u8>, is_number: bool, cell: &str) -> Result<(), AllocError>
    ensures { OnOk result (text.new.items ≡ text.old.items ++ spec.cell_html is_number cell.now) }
{
    text.extend_from_slice(cell_open(is_number).as_bytes())?;
    push_escaped(text, cell.as_bytes())?;
    text.extend_from_slice(b"</td>")
}

pub(crate) fn push_cells(
    text: &mut Vec<u8>,
    numbers: &[bool],
    cells: &[Text],
) -> Result<(), AllocError>
    ensures { OnOk result (text.new.items ≡ text.old.items ++ spec.cells_html numbers.now cells.now) }
{
    match numbers {
        [] => Ok(()),
        [is_number, numbers @ ..] => match cells {
            [] => Ok(()),
            [cell, cells @ ..] => {
                push_cell(text, *is_number, cell.as_str())?;
                push_cells(text, numbers, cells)
            }
        },
    }
}

fn bar_class(sum: Option<i64>) -> &'static str
    ensures { result.now ≡ spec.bar_class sum }
{
    match sum {
        Some(sum) if sum < 0 => "m",
        _ => "p",
    }
}

// The bar of a sum.
pub(crate) fn push_bar(text: &mut Vec<u8>, scale: Scale, sum: Option<i64>) -> Result<(), AllocError>
    ensures { OnOk result (text.new.items ≡ text.old.items ++ spec.bar_html scale sum) }
{
    let width = bar_length(scale, size_of(sum));
    Markup::BarOpen.push(text)?;
    text.extend_from_slice(bar_class(sum).as_bytes())?;
    Markup::BarWidth.push(text)?;
    text.extend_from_slice(Buffer::new().format(width).as_bytes())?;
    Markup::BarClose.push(text)
}

pub(crate) fn push_heads(
    text: &mut Vec<u8>,
    numbers: &[bool],
    heads: &[Text],
) -> Result<(), AllocError>
    ensures { OnOk result (text.new.items ≡ text.old.items ++ spec.head_html numbers.now heads.now) }
{
    Markup::HeadsOpen.push(text)?;
    push_cells(text, numbers, heads)?;
    Markup::HeadsClose.push(text)
}

fn push_row(
    alloc: Global,
    text: &mut Vec<u8>,
    numbers: &[bool],
    query: Query,
    scale: Scale,
    row: &ResultRow,
) -> Result<(), AllocError>
    ensures { OnOk result (text.new.items ≡ text.old.items ++ spec.row_html numbers.now query scale row.now) }
{
    Markup::RowOpen.push(text)?;
    push_cells(text, numbers, row_cells(alloc, query, row)?.as_slice())?;
    push_bar(text, scale, row.sum)?;
    Markup::RowClose.push(text)
}

fn push_table(
    alloc: Global,
    text: &mut Vec<u8>,
    query: Query,
    plan: &Plan,
    rows: &[ResultRow],
) -> Result<(), AllocError>
    ensures { OnOk result (text.new.items
        ≡ text.old.items ++ spec.table_html (flags query plan.now) query plan.now rows.now) }
{
    let numbers = are_numbers(alloc, query, plan)?;
    let scale = Scale {
        room: 100,
        greatest: greatest_of(rows),
    };
    Markup::TableOpen.push(text)?;
    push_heads(
        text,
        numbers.as_slice(),
        head_cells(alloc, query, plan)?.as_slice(),
    )?;
    for row in rows {
        push_row(alloc, text, numbers.as_slice(), query, scale, row)?;
    }
    Markup::TableClose.push(text)
}

/// The table of rows.
pub(crate) fn html_text(
    alloc: Global,
    query: Query,
    plan: &Plan,
    at: u64,
    rows: &[ResultRow],
) -> Result<Vec<u8>, AllocError>
    ensures { IfOk result (λ text. text.items ≡ spec.html_text query plan.now at rows.now) }
{
    let mut text = Vec::new(alloc);
    Markup::LineOpen.push(&mut text)?;
    push_title(&mut text, query, at, rows.len())?;
    Markup::LineClose.push(&mut text)?;
    push_table(alloc, &mut text, query, plan, rows)?;
    Ok(text)
}

/// What is told in the place of rows.
pub(crate) fn unserved_html(
    alloc: Global,
    query: Query,
    cause: Unserved,
) -> Result<Vec<u8>, AllocError>
    ensures { IfOk result (λ text. text.items ≡ spec.unserved_html query cause) }
{
    let mut text = Vec::new(alloc);
    Markup::LineOpen.push(&mut text)?;
    text.extend_from_slice(query.name().as_bytes())?;
    text.extend_from_slice(b": no rows, ")?;
    text.extend_from_slice(cause_name(cause).as_bytes())?;
    Markup::LineClose.push(&mut text)?;
    Ok(text)
}

/// Adds the heading of an answer that has a title.
pub(crate) fn push_heading(text: &mut Vec<u8>, title: &str) -> Result<(), AllocError>
    ensures { OnOk result (text.new.items ≡ text.old.items ++ spec.heading_html title.now) }
{
    text.extend_from_slice(b"<h2>")?;
    push_escaped(text, title.as_bytes())?;
    text.extend_from_slice(b"</h2>\n")
}
