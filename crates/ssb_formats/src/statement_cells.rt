//! What the cells of a statement print.

ghost use Rattle.std.specs.Prelude.{◌≡◌, ◌++◌, IfOk, OnOk};
ghost use Rattle.std.specs.String.{string_bytes};
ghost use Rattle.ssb_formats.specs.StatementCells as spec;
ghost use Rattle.ssb_report.specs.StatementText as printed;

use crate::alignment::{Alignment, narrow, widened};
use crate::cells::{sum_cell, value_cell};
use crate::title::{push_commit, push_count};
use itoa::Buffer;
use ssb_schema::{Items, Text};
use ssb_statements::StatementCell;
use std::alloc::{AllocError, Global};

/// The heads of a statement, and which of its columns have numbers.
#[derive(Clone, Copy)]
pub(crate) struct StatementHeads<'a> {
    pub heads: &'a [Text],
    pub are_numbers: &'a [bool],
}

// The sign of ten-thousandths.
fn sign_of(number: i128) -> &'static str
    ensures { result.now ≡ printed.sign_of number }
{
    if number < 0 { "-" } else { "" }
}

// The four digits of a number below 10,000.
fn push_digits(text: &mut String, number: u128) -> Result<(), AllocError>
    ensures { OnOk result (string_bytes text.new ≡ string_bytes text.old ++ printed.digits_of number) }
{
    text.push_str(Buffer::new().format(number / 1000))?;
    text.push_str(Buffer::new().format(number / 100 % 10))?;
    text.push_str(Buffer::new().format(number / 10 % 10))?;
    text.push_str(Buffer::new().format(number % 10))
}

// Adds a size in ten-thousandths, in decimal.
fn push_size(text: &mut String, size: u128) -> Result<(), AllocError>
    ensures { OnOk result (string_bytes text.new ≡ string_bytes text.old ++ printed.size_text size) }
{
    text.push_str(Buffer::new().format(size / 10_000))?;
    text.push_str(".")?;
    push_digits(text, size % 10_000)
}

// Ten-thousandths in decimal.
pub(crate) fn decimal_text(alloc: Global, number: i128) -> Result<Text, AllocError>
    ensures { IfOk result (λ text. text ≡ printed.decimal_text number) }
{
    let mut text = String::from_str(alloc, sign_of(number))?;
    push_size(&mut text, number.unsigned_abs())?;
    Ok(Text::new(text))
}

fn average_cell(alloc: Global, number: Option<i128>) -> Result<Text, AllocError>
    ensures { IfOk result (λ text. text ≡ printed.average_text number) }
{
    match number {
        Some(number) => decimal_text(alloc, number),
        None => Text::from_str(alloc, "NULL"),
    }
}

fn cell_text(alloc: Global, cell: &StatementCell) -> Result<Text, AllocError>
    ensures { IfOk result (λ text. text ≡ printed.cell_text cell.now) }
{
    match cell {
        StatementCell::Plain(None) => Text::from_str(alloc, ""),
        StatementCell::Plain(Some(value)) => value_cell(alloc, value),
        StatementCell::Number(number) => sum_cell(alloc, *number),
        StatementCell::Decimal(number) => average_cell(alloc, *number),
    }
}

pub(crate) fn texts_of(alloc: Global, row: &[StatementCell]) -> Result<Vec<Text>, AllocError>
    ensures { IfOk result (λ texts. texts.items ≡ printed.texts_of row.now) }
{
    let mut texts = Vec::new(alloc);
    for cell in row {
        texts.push(cell_text(alloc, cell)?)?;
    }
    Ok(texts)
}

// Columns as wide as their heads, and as the cells of each row.
pub(crate) fn alignments(
    alloc: Global,
    heads: StatementHeads<'_>,
    rows: &[Items<StatementCell>],
) -> Result<Vec<Alignment>, AllocError>
    ensures { IfOk result (λ all. all.items ≡ spec.alignments heads.entry.heads.now heads.entry.are_numbers.now
        rows.now) }
{
    let bare = narrow(alloc, heads.are_numbers)?;
    let mut all = widened(alloc, bare.as_slice(), heads.heads)?;
    for row in rows {
        let texts = texts_of(alloc, row.as_slice())?;
        all = widened(alloc, all.as_slice(), texts.as_slice())?;
    }
    Ok(all)
}

// Adds the line above the heads.
pub(crate) fn push_title(text: &mut Vec<u8>, at: u64, count: usize) -> Result<(), AllocError>
    ensures { OnOk result (text.new.items ≡ text.old.items ++ spec.title_text at count) }
{
    text.extend_from_slice(b"sql: ")?;
    push_count(text, count)?;
    push_commit(text, at)
}
