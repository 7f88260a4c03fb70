//! The cells of a row, written.

ghost use Rattle.std.specs.Prelude.{◌≡◌, ◌∷◌, flat_map, map};
ghost use Rattle.std.specs.List.{AllByRecursion};
ghost use Rattle.ssb_schema.specs.Columns.{value_of};
ghost use Rattle.ssb_text.specs.Piece.{after_bar, piece_text};
ghost use Rattle.ssb_text.specs.RoundTrip.{IsColumnText};
ghost use Rattle.ssb_text.specs.TableText.{cell_text, row_text};
ghost use Rattle.ssb_text.specs.Written.{Writes};

use crate::piece::{Piece, WriteFault, write_pieces};
use ssb_schema::Cell;
use std::io::Write;

fn piece_of<'a>(cell: &Cell<'a>) -> Piece<'a>
    ensures { piece_text result ≡ cell_text cell.now }
{
    match cell {
        Cell::Number(number) => Piece::Number(*number),
        Cell::Text(text) => Piece::Text(text),
    }
}

// A text is UTF-8.
fn is_text(cell: &Cell<'_>)
    ensures { IsColumnText (value_of cell.now) }
{
    match cell {
        Cell::Number(_) => {}
        Cell::Text(text) => {
            let _text = text.as_bytes();
        }
    }
}

/// The texts of cells are UTF-8. This looks at each, and does nothing.
pub(crate) fn are_texts(cells: &[Cell<'_>])
    ensures { AllByRecursion IsColumnText (map value_of cells.now) }
{
    for cell in cells {
        is_text(cell);
    }
}

// The cells, each behind a bar.
fn write_after_bars<W: Write>(writer: &mut W, cells: &[Cell<'_>]) -> Result<(), WriteFault>
    ensures { Writes (W.contents writer.old) (W.contents writer.new) result (flat_map (after_bar cell_text) cells.now) }
{
    for cell in cells {
        write_pieces(writer, &[Piece::Text("|"), piece_of(cell)])?;
    }
    Ok(())
}

// The first cell, those behind it, each behind a bar, and the end of the line.
fn write_joined<W: Write>(
    writer: &mut W,
    first: &Cell<'_>,
    others: &[Cell<'_>],
) -> Result<(), WriteFault>
    ensures { Writes (W.contents writer.old) (W.contents writer.new) result
        (row_text (map value_of (first.now ∷ others.now))) }
{
    write_pieces(writer, &[piece_of(first)])?;
    write_after_bars(writer, others)?;
    write_pieces(writer, &[Piece::Text("\n")])
}

/// Writes the cells of a row, with bars between them, and the end of the line. Each piece is one `write`, so a caller
/// buffers. It takes no memory.
pub(crate) fn write_cells<W: Write>(writer: &mut W, cells: &[Cell<'_>]) -> Result<(), WriteFault>
    ensures { Writes (W.contents writer.old) (W.contents writer.new) result (row_text (map value_of cells.now)) }
{
    let Some((first, others)) = cells.split_first() else {
        return write_pieces(writer, &[Piece::Text("\n")]);
    };
    write_joined(writer, first, others)
}
