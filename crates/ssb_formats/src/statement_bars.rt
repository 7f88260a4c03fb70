//! The rows of a statement as bars: behind the columns of each a bar, as long as its first aggregate is great.

ghost use Rattle.std.specs.Prelude.{◌≡◌, ◌++◌, IfOk, OnOk};
ghost use Rattle.ssb_formats.specs.StatementBars as spec;

use crate::alignment::{Alignment, narrow, push_cells, push_line, push_times};
use crate::bar::{Scale, bar_length, mark_of, room_beside, size_of};
use crate::statement_cells::{StatementHeads, alignments, push_title, texts_of};
use ssb_schema::{Items, Text};
use ssb_statements::StatementCell;
use std::alloc::{AllocError, Global};

// How great an average is in ten-thousandths, as far as 63 bits go.
fn bar_size(number: i128) -> i64
    ensures { result ≡ spec.bar_size number }
{
    let size = number.unsigned_abs().min(9_223_372_036_854_775_807) as i64;
    if number < 0 { -size } else { size }
}

/// The first aggregate of a row.
pub(crate) fn drawn_of(row: &[StatementCell]) -> Option<i64>
    ensures { result ≡ spec.drawn_of row.now }
{
    match row {
        [] => None,
        [first, cells @ ..] => match first {
            StatementCell::Plain(_) => drawn_of(cells),
            StatementCell::Number(number) => *number,
            StatementCell::Decimal(None) => None,
            StatementCell::Decimal(Some(number)) => Some(bar_size(*number)),
        },
    }
}

/// How great the greatest of the rows is.
pub(crate) fn greatest_of(rows: &[Items<StatementCell>]) -> u64
    ensures { result ≡ spec.greatest_of rows.now }
{
    let mut greatest = 0;
    for row in rows {
        greatest = greatest.max(size_of(drawn_of(row.as_slice())));
    }
    greatest
}

fn scale_of(width: usize, all: &[Alignment], rows: &[Items<StatementCell>]) -> Scale
    ensures { result ≡ spec.scale_of width all.now rows.now }
{
    Scale {
        room: room_beside(width, all),
        greatest: greatest_of(rows),
    }
}

// Columns with that of the bars.
fn with_bars(alloc: Global, all: &[Alignment]) -> Result<Vec<Alignment>, AllocError>
    ensures { IfOk result (λ wider. wider.items ≡ spec.with_bars all.now) }
{
    let bare = narrow(alloc, &[false])?;
    let mut wider = Vec::from_slice(alloc, all)?;
    wider.extend_from_slice(bare.as_slice())?;
    Ok(wider)
}

// Adds cells in their columns, and a bar of so many marks behind them.
fn push_drawn(
    alloc: Global,
    text: &mut Vec<u8>,
    all: &[Alignment],
    mut cells: Vec<Text>,
    mark: u8,
    length: usize,
) -> Result<(), AllocError>
    ensures { OnOk result (text.new.items ≡ text.old.items ++ spec.drawn all.now cells.items mark length) }
{
    if length == 0 {
        return push_cells(text, all, cells.as_slice());
    }
    cells.push(Text::from_str(alloc, "")?)?;
    push_cells(text, with_bars(alloc, all)?.as_slice(), cells.as_slice())?;
    push_times(text, length, mark)
}

fn push_bar_line(
    alloc: Global,
    text: &mut Vec<u8>,
    all: &[Alignment],
    scale: Scale,
    row: &Items<StatementCell>,
) -> Result<(), AllocError>
    ensures { OnOk result (text.new.items ≡ text.old.items ++ spec.bar_line all.now scale row.now) }
{
    let drawn = drawn_of(row.as_slice());
    let texts = texts_of(alloc, row.as_slice())?;
    let length = bar_length(scale, size_of(drawn));
    push_drawn(alloc, text, all, texts, mark_of(drawn), length)?;
    Ok(text.push(b'\n')?)
}

// The heads, and a line for each row.
fn push_chart(
    alloc: Global,
    text: &mut Vec<u8>,
    all: &[Alignment],
    scale: Scale,
    heads: &[Text],
    rows: &[Items<StatementCell>],
) -> Result<(), AllocError>
    ensures { OnOk result (text.new.items ≡ text.old.items ++ spec.chart_text all.now scale heads.now rows.now) }
{
    push_line(text, all, heads)?;
    for row in rows {
        push_bar_line(alloc, text, all, scale, row)?;
    }
    Ok(())
}

/// The rows of a statement as bars, in a width.
#[tactic(auto, unfolding(crate::specs::StatementBars::bars_text))]
pub(crate) fn bars_text(
    alloc: Global,
    width: usize,
    heads: StatementHeads<'_>,
    at: u64,
    rows: &[Items<StatementCell>],
) -> Result<Vec<u8>, AllocError>
    ensures { IfOk result (λ text. text.items ≡ spec.bars_text width heads.entry.heads.now heads.entry.are_numbers.now at
        rows.now) }
{
    let all = alignments(alloc, heads, rows)?;
    let scale = scale_of(width, all.as_slice(), rows);
    let mut text = Vec::new(alloc);
    push_title(&mut text, at, rows.len())?;
    push_chart(alloc, &mut text, all.as_slice(), scale, heads.heads, rows)?;
    Ok(text)
}
