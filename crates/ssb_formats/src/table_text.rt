//! An answer as a table whose columns stand below one another.

ghost use Rattle.std.specs.Prelude.{◌≡◌, ◌++◌, IfOk, OnOk};
ghost use Rattle.ssb_formats.specs.TableText.{dashes, grid_text, rule_text, table_alignments, table_text};

use crate::alignment::{Alignment, narrow, push_line, push_times, widened};
use crate::cells::{are_numbers, head_cells, row_cells};
use crate::title::push_title;
use ssb_answers::ResultRow;
use ssb_questions::{Plan, Query};
use std::alloc::{AllocError, Global};

// The columns of a table: as wide as their heads, and as the cells of each row.
fn alignments(
    alloc: Global,
    query: Query,
    plan: &Plan,
    rows: &[ResultRow],
) -> Result<Vec<Alignment>, AllocError>
    ensures { IfOk result (λ all. all.items ≡ table_alignments query plan.now rows.now) }
{
    let bare = narrow(alloc, are_numbers(alloc, query, plan)?.as_slice())?;
    let heads = head_cells(alloc, query, plan)?;
    let mut all = widened(alloc, bare.as_slice(), heads.as_slice())?;
    for row in rows {
        let cells = row_cells(alloc, query, row)?;
        all = widened(alloc, all.as_slice(), cells.as_slice())?;
    }
    Ok(all)
}

// Below each head a line as long as its column is wide.
fn push_dashes(text: &mut Vec<u8>, alignments: &[Alignment]) -> Result<(), AllocError>
    ensures { OnOk result (text.new.items ≡ text.old.items ++ dashes alignments.now) }
{
    match alignments {
        [] => Ok(()),
        [alignment] => push_times(text, alignment.width, b'-'),
        [alignment, alignments @ ..] => {
            push_times(text, alignment.width, b'-')?;
            text.extend_from_slice(b"  ")?;
            push_dashes(text, alignments)
        }
    }
}

pub(crate) fn push_rule(text: &mut Vec<u8>, alignments: &[Alignment]) -> Result<(), AllocError>
    ensures { OnOk result (text.new.items ≡ text.old.items ++ rule_text alignments.now) }
{
    push_dashes(text, alignments)?;
    Ok(text.push(b'\n')?)
}

// The heads, the line below them, and a line for each row.
fn push_grid(
    alloc: Global,
    text: &mut Vec<u8>,
    alignments: &[Alignment],
    query: Query,
    plan: &Plan,
    rows: &[ResultRow],
) -> Result<(), AllocError>
    ensures { OnOk result (text.new.items ≡ text.old.items ++ grid_text alignments.now query plan.now rows.now) }
{
    push_line(text, alignments, head_cells(alloc, query, plan)?.as_slice())?;
    push_rule(text, alignments)?;
    for row in rows {
        push_line(text, alignments, row_cells(alloc, query, row)?.as_slice())?;
    }
    Ok(())
}

/// The text of rows as a table.
#[tactic(auto, unfolding(crate::specs::TableText::table_text))]
pub(crate) fn table_text(
    alloc: Global,
    query: Query,
    plan: &Plan,
    at: u64,
    rows: &[ResultRow],
) -> Result<Vec<u8>, AllocError>
    ensures { IfOk result (λ text. text.items ≡ table_text query plan.now at rows.now) }
{
    let alignments = alignments(alloc, query, plan, rows)?;
    let mut text = Vec::new(alloc);
    push_title(&mut text, query, at, rows.len())?;
    push_grid(alloc, &mut text, alignments.as_slice(), query, plan, rows)?;
    Ok(text)
}
