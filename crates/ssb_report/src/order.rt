//! The report of an order.
ghost use Rattle.ssb_text.specs.Written.{Writes};
ghost use Rattle.ssb_report.specs.OrderText.{lines_text, order_text};

use ssb_schema::{Items, Line};
use ssb_text::{Piece, WriteFault, write_pieces, write_rows};
use std::io::Write;

/// The order of a key, as it is shown to a client.
#[derive(Drop)]
pub enum ShownOrder {
    /// Its live lines after so many commits; none where it is not live.
    Lines {
        key: u64,
        at: u64,
        lines: Items<Line>,
    },
    /// No lines, since memory ran out for them.
    Unserved {
        key: u64,
    },
}

// The line before the lines of an order, and these.
fn write_lines<W: Write>(
    writer: &mut W,
    key: u64,
    at: u64,
    lines: &[Line],
) -> Result<(), WriteFault>
    ensures { Writes (W.contents writer.old) (W.contents writer.new) result (lines_text key at lines.now) }
{
    write_pieces(
        writer,
        &[
            Piece::Text("order "),
            Piece::Number(key),
            Piece::Text(" at "),
            Piece::Number(at),
            Piece::Text(" lines "),
            Piece::Number(lines.len() as u64),
            Piece::Text("\n"),
        ],
    )?;
    write_rows(writer, lines)
}

/// Writes the report of an order: a line with its key, the number of commits and that of its lines, and each of these as
/// its table has it; or that memory ran out for them. It takes no memory.
pub fn write_order<W: Write>(writer: &mut W, order: &ShownOrder) -> Result<(), WriteFault>
    ensures { Writes (W.contents writer.old) (W.contents writer.new) result (order_text order.now) }
{
    match order {
        ShownOrder::Lines { key, at, lines } => write_lines(writer, *key, *at, lines.as_slice()),
        ShownOrder::Unserved { key } => write_pieces(
            writer,
            &[
                Piece::Text("order "),
                Piece::Number(*key),
                Piece::Text(" unserved: out of memory\n"),
            ],
        ),
    }
}
