//! An answer as bars: behind the group columns and the sum of each row a bar, as long as the sum is great.

ghost use Rattle.std.specs.Prelude.{◌≡◌, [], ◌++◌, IfOk, OnOk};
ghost use Rattle.ssb_formats.specs.BarsText.{bar_line, bars_text, chart_text, label_alignments, label_heads, labels_of};

use crate::alignment::{Alignment, narrow, push_cells, push_line, widened};
use crate::bar::{Scale, push_bar, scale_of};
use crate::cells::{name_cells, number_flags, sum_cell, value_cells};
use crate::title::push_title;
use ssb_answers::ResultRow;
use ssb_questions::{Plan, Query};
use ssb_schema::Text;
use std::alloc::{AllocError, Global};

// The labels of a row: its group columns, and behind them its sum.
fn labels_of(alloc: Global, row: &ResultRow) -> Result<Vec<Text>, AllocError>
    ensures { IfOk result (λ labels. labels.items ≡ labels_of row.now) }
{
    let mut labels = value_cells(alloc, row.groups.as_slice())?;
    labels.push(sum_cell(alloc, row.sum)?)?;
    Ok(labels)
}

// The heads of the labels.
fn label_heads(alloc: Global, plan: &Plan) -> Result<Vec<Text>, AllocError>
    ensures { IfOk result (λ heads. heads.items ≡ label_heads plan.now) }
{
    let mut heads = name_cells(alloc, plan.groups.as_slice())?;
    heads.push(Text::from_str(alloc, plan.measure.name())?)?;
    Ok(heads)
}

// The columns of the labels before any row: as wide as the heads of the group columns.
fn group_alignments(alloc: Global, plan: &Plan) -> Result<Vec<Alignment>, AllocError>
    ensures { IfOk result (λ all. all.items ≡ label_alignments plan.now []) }
{
    let mut are_numbers = number_flags(alloc, plan.groups.as_slice())?;
    are_numbers.push(true)?;
    let bare = narrow(alloc, are_numbers.as_slice())?;
    let heads = name_cells(alloc, plan.groups.as_slice())?;
    widened(alloc, bare.as_slice(), heads.as_slice())
}

// The columns of the labels.
fn alignments(alloc: Global, plan: &Plan, rows: &[ResultRow]) -> Result<Vec<Alignment>, AllocError>
    ensures { IfOk result (λ all. all.items ≡ label_alignments plan.now rows.now) }
{
    let mut all = group_alignments(alloc, plan)?;
    for row in rows {
        let labels = labels_of(alloc, row)?;
        all = widened(alloc, all.as_slice(), labels.as_slice())?;
    }
    Ok(all)
}

// A row: its labels and its bar.
fn push_bar_line(
    alloc: Global,
    text: &mut Vec<u8>,
    alignments: &[Alignment],
    scale: Scale,
    row: &ResultRow,
) -> Result<(), AllocError>
    ensures { OnOk result (text.new.items ≡ text.old.items ++ bar_line alignments.now scale row.now) }
{
    push_cells(text, alignments, labels_of(alloc, row)?.as_slice())?;
    push_bar(text, scale, row.sum)?;
    Ok(text.push(b'\n')?)
}

// The heads, and a line for each row.
fn push_chart(
    alloc: Global,
    text: &mut Vec<u8>,
    alignments: &[Alignment],
    scale: Scale,
    plan: &Plan,
    rows: &[ResultRow],
) -> Result<(), AllocError>
    ensures { OnOk result (text.new.items ≡ text.old.items ++ chart_text alignments.now scale plan.now rows.now) }
{
    push_line(text, alignments, label_heads(alloc, plan)?.as_slice())?;
    for row in rows {
        push_bar_line(alloc, text, alignments, scale, row)?;
    }
    Ok(())
}

/// The text of rows as bars, in a width.
#[tactic(auto, unfolding(crate::specs::BarsText::bars_text))]
pub(crate) fn bars_text(
    alloc: Global,
    width: usize,
    query: Query,
    plan: &Plan,
    at: u64,
    rows: &[ResultRow],
) -> Result<Vec<u8>, AllocError>
    ensures { IfOk result (λ text. text.items ≡ bars_text width query plan.now at rows.now) }
{
    let alignments = alignments(alloc, plan, rows)?;
    let scale = scale_of(width, alignments.as_slice(), rows);
    let mut text = Vec::new(alloc);
    push_title(&mut text, query, at, rows.len())?;
    push_chart(alloc, &mut text, alignments.as_slice(), scale, plan, rows)?;
    Ok(text)
}
