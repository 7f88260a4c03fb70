//! The rows of a statement as a table of a page of HTML, with a bar beside each row.

ghost use Rattle.std.specs.Prelude.{◌≡◌, ◌++◌, IfOk, OnOk};
ghost use Rattle.ssb_formats.specs.StatementHtml as spec;

use crate::bar::Scale;
use crate::html_text::{push_bar, push_cells, push_heads};
use crate::markup::Markup;
use crate::statement_bars::{drawn_of, greatest_of};
use crate::statement_cells::{StatementHeads, push_title, texts_of};
use ssb_schema::Items;
use ssb_statements::StatementCell;
use std::alloc::{AllocError, Global};

fn push_row(
    alloc: Global,
    text: &mut Vec<u8>,
    are_numbers: &[bool],
    scale: Scale,
    row: &Items<StatementCell>,
) -> Result<(), AllocError>
    ensures { OnOk result (text.new.items ≡ text.old.items ++ spec.row_html are_numbers.now scale row.now) }
{
    let texts = texts_of(alloc, row.as_slice())?;
    Markup::RowOpen.push(text)?;
    push_cells(text, are_numbers, texts.as_slice())?;
    push_bar(text, scale, drawn_of(row.as_slice()))?;
    Markup::RowClose.push(text)
}

fn push_table(
    alloc: Global,
    text: &mut Vec<u8>,
    heads: StatementHeads<'_>,
    rows: &[Items<StatementCell>],
) -> Result<(), AllocError>
    ensures { OnOk result (text.new.items
        ≡ text.old.items ++ spec.table_html heads.entry.heads.now heads.entry.are_numbers.now rows.now) }
{
    let scale = Scale {
        room: 100,
        greatest: greatest_of(rows),
    };
    Markup::TableOpen.push(text)?;
    push_heads(text, heads.are_numbers, heads.heads)?;
    for row in rows {
        push_row(alloc, text, heads.are_numbers, scale, row)?;
    }
    Markup::TableClose.push(text)
}

/// The table of the rows of a statement.
pub(crate) fn html_text(
    alloc: Global,
    heads: StatementHeads<'_>,
    at: u64,
    rows: &[Items<StatementCell>],
) -> Result<Vec<u8>, AllocError>
    ensures { IfOk result (λ text. text.items ≡ spec.html_text heads.entry.heads.now heads.entry.are_numbers.now at
        rows.now) }
{
    let mut text = Vec::new(alloc);
    Markup::LineOpen.push(&mut text)?;
    push_title(&mut text, at, rows.len())?;
    Markup::LineClose.push(&mut text)?;
    push_table(alloc, &mut text, heads, rows)?;
    Ok(text)
}
