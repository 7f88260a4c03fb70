//! Columns of cells that stand below one another, numbers to the right.

ghost use Rattle.std.specs.Prelude.{◌≡◌, ◌++◌, IfOk, OnOk, codes, map, replicate};
ghost use Rattle.std.specs.Option.{option_copied};
ghost use Rattle.ssb_formats.specs.Alignment.{aligned_cells, aligned_line, before, behind, narrow, spaces, wider, widened};

use ssb_schema::Text;
use std::alloc::{AllocError, Global};
use unicode_width::UnicodeWidthStr;

/// How the cells of a column stand.
#[derive(Clone, Copy)]
pub(crate) struct Alignment {
    /// The columns of a terminal that its widest cell takes.
    pub width: usize,
    /// Whether its cells are numbers.
    pub is_number: bool,
}

/// Columns in which no cell stands yet.
pub(crate) fn narrow(alloc: Global, are_numbers: &[bool]) -> Result<Vec<Alignment>, AllocError>
    ensures { IfOk result (λ all. all.items ≡ map narrow are_numbers.now) }
{
    let mut all = Vec::new(alloc);
    for is_number in are_numbers {
        all.push(Alignment {
            width: 0,
            is_number: *is_number,
        })?;
    }
    Ok(all)
}

// A column that is wide enough for a cell too, where there is one.
fn wider(alignment: Alignment, cell: Option<&Text>) -> Alignment
    ensures { result ≡ wider alignment (option_copied cell.entry) }
{
    match cell {
        Some(cell) => Alignment {
            width: alignment.width.max(cell.as_str().width()),
            is_number: alignment.is_number,
        },
        None => alignment,
    }
}

/// Columns that are wide enough for the cells of this line too.
pub(crate) fn widened(
    alloc: Global,
    alignments: &[Alignment],
    cells: &[Text],
) -> Result<Vec<Alignment>, AllocError>
    ensures { IfOk result (λ all. all.items ≡ widened alignments.now cells.now) }
{
    let mut all = Vec::new(alloc);
    for (place, alignment) in alignments.iter().enumerate() {
        all.push(wider(*alignment, cells.get(place)))?;
    }
    Ok(all)
}

/// Adds a byte so many times.
pub(crate) fn push_times(text: &mut Vec<u8>, count: usize, byte: u8) -> Result<(), AllocError>
    ensures { OnOk result (text.new.items ≡ text.old.items ++ replicate count byte) }
{
    for _pushed in 0..count {
        text.push(byte)?;
    }
    Ok(())
}

// Adds the spaces that a cell leaves of its column.
fn push_spaces(text: &mut Vec<u8>, alignment: Alignment, cell: &str) -> Result<(), AllocError>
    ensures { OnOk result (text.new.items ≡ text.old.items ++ spaces alignment cell.now) }
{
    push_times(text, alignment.width.saturating_sub(cell.width()), b' ')
}

// Adds a cell that has no other behind it.
fn push_last(text: &mut Vec<u8>, alignment: Alignment, cell: &str) -> Result<(), AllocError>
    ensures { OnOk result (text.new.items ≡ text.old.items ++ before alignment cell.now ++ cell.now) }
{
    if alignment.is_number {
        push_spaces(text, alignment, cell)?;
    }
    text.extend_from_slice(cell.as_bytes())
}

// Adds a cell, and what parts it from the next.
fn push_cell(text: &mut Vec<u8>, alignment: Alignment, cell: &str) -> Result<(), AllocError>
    ensures { OnOk result (text.new.items
        ≡ text.old.items ++ before alignment cell.now ++ cell.now ++ behind alignment cell.now ++ codes "  ") }
{
    push_last(text, alignment, cell)?;
    if !alignment.is_number {
        push_spaces(text, alignment, cell)?;
    }
    text.extend_from_slice(b"  ")
}

/// Adds cells in their columns.
pub(crate) fn push_cells(
    text: &mut Vec<u8>,
    alignments: &[Alignment],
    cells: &[Text],
) -> Result<(), AllocError>
    ensures { OnOk result (text.new.items ≡ text.old.items ++ aligned_cells alignments.now cells.now) }
{
    match alignments {
        [] => Ok(()),
        [alignment, alignments @ ..] => match cells {
            [] => Ok(()),
            [cell] => push_last(text, *alignment, cell.as_str()),
            [cell, cells @ ..] => {
                push_cell(text, *alignment, cell.as_str())?;
                push_cells(text, alignments, cells)
            }
        },
    }
}

/// Adds a line of cells.
pub(crate) fn push_line(
    text: &mut Vec<u8>,
    alignments: &[Alignment],
    cells: &[Text],
) -> Result<(), AllocError>
    ensures { OnOk result (text.new.items ≡ text.old.items ++ aligned_line alignments.now cells.now) }
{
    push_cells(text, alignments, cells)?;
    Ok(text.push(b'\n')?)
}
