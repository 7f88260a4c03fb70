//! An answer as a table of Markdown, numbers to the right.

ghost use Rattle.std.specs.Prelude.{◌≡◌, ◌++◌, IfOk, OnOk};
ghost use Rattle.ssb_formats.specs.Cells.{are_numbers};
ghost use Rattle.ssb_formats.specs.MarkdownText.{byte_text, cell_text, line_text, markdown_text, rule_cell};
ghost use Rattle.ssb_formats.specs.MarkdownText.{rule_text};

use crate::cells::{are_numbers, head_cells, row_cells};
use ssb_answers::ResultRow;
use ssb_questions::{Plan, Query};
use ssb_schema::Text;
use std::alloc::{AllocError, Global};

// A byte of a cell, behind a backslash where it would part the cells.
fn push_byte(text: &mut Vec<u8>, byte: u8) -> Result<(), AllocError>
    ensures { OnOk result (text.new.items ≡ text.old.items ++ byte_text byte) }
{
    if byte == b'|' || byte == b'\\' {
        return text.extend_from_slice(&[b'\\', byte]);
    }
    Ok(text.push(byte)?)
}

fn push_cell(text: &mut Vec<u8>, cell: &str) -> Result<(), AllocError>
    ensures { OnOk result (text.new.items ≡ text.old.items ++ cell_text cell.now) }
{
    let bytes = cell.as_bytes();
    text.push(b' ')?;
    for byte in bytes {
        push_byte(text, *byte)?;
    }
    text.extend_from_slice(b" |")
}

pub(crate) fn push_line(text: &mut Vec<u8>, cells: &[Text]) -> Result<(), AllocError>
    ensures { OnOk result (text.new.items ≡ text.old.items ++ line_text cells.now) }
{
    text.push(b'|')?;
    for cell in cells {
        push_cell(text, cell.as_str())?;
    }
    Ok(text.push(b'\n')?)
}

fn rule_cell(is_number: bool) -> &'static str
    ensures { result.now ≡ rule_cell is_number }
{
    if is_number { " ---: |" } else { " --- |" }
}

// The line under the heads.
pub(crate) fn push_rule(text: &mut Vec<u8>, are_numbers: &[bool]) -> Result<(), AllocError>
    ensures { OnOk result (text.new.items ≡ text.old.items ++ rule_text are_numbers.now) }
{
    text.push(b'|')?;
    for is_number in are_numbers {
        text.extend_from_slice(rule_cell(*is_number).as_bytes())?;
    }
    Ok(text.push(b'\n')?)
}

/// The text of rows as Markdown.
pub(crate) fn markdown_text(
    alloc: Global,
    query: Query,
    plan: &Plan,
    rows: &[ResultRow],
) -> Result<Vec<u8>, AllocError>
    ensures { IfOk result (λ text. text.items ≡ markdown_text query plan.now rows.now) }
{
    let mut text = Vec::new(alloc);
    push_line(&mut text, head_cells(alloc, query, plan)?.as_slice())?;
    push_rule(&mut text, are_numbers(alloc, query, plan)?.as_slice())?;
    for row in rows {
        push_line(&mut text, row_cells(alloc, query, row)?.as_slice())?;
    }
    Ok(text)
}
