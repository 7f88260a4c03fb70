//! The report of a statement.
ghost use Rattle.std.specs.Prelude.{◌≡◌, ◌++◌, codes, flat_map};
ghost use Rattle.ssb_statements.specs.Listing.{listing_of};
ghost use Rattle.ssb_text.specs.Written.{Writes};
ghost use Rattle.ssb_report.specs.StatementText as spec;

use crate::answer::{piece_of, write_unserved};
use itoa::Buffer;
use ssb_schema::Items;
use ssb_statements::{Listing, StatementCell};
use ssb_text::{Piece, WriteFault, write_bytes, write_pieces};
use std::io::Write;

// The sign of ten-thousandths.
fn sign_of(number: i128) -> &'static str
    ensures { result.now ≡ spec.sign_of number }
{
    if number < 0 { "-" } else { "" }
}

// Writes a decimal: its sign, what stands before the point, and the four digits behind it, a number below 10,000.
fn write_parts<'a, W: Write>(
    writer: &mut W,
    sign: &'a str,
    whole: &'a str,
    digits: u64,
) -> Result<(), WriteFault>
    ensures { Writes (W.contents writer.old) (W.contents writer.new) result
        (sign.now ++ (whole.now ++ (codes "." ++ spec.digits_of digits))) }
{
    write_pieces(
        writer,
        &[
            Piece::Text(sign),
            Piece::Text(whole),
            Piece::Text("."),
            Piece::Number(digits / 1000),
            Piece::Number(digits / 100 % 10),
            Piece::Number(digits / 10 % 10),
            Piece::Number(digits % 10),
        ],
    )
}

// Writes ten-thousandths in decimal.
fn write_decimal<W: Write>(writer: &mut W, number: i128) -> Result<(), WriteFault>
    ensures { Writes (W.contents writer.old) (W.contents writer.new) result (spec.decimal_text number) }
{
    let size = number.unsigned_abs();
    let mut buffer = Buffer::new();
    let whole = buffer.format(size / 10_000);
    write_parts(writer, sign_of(number), whole, (size % 10_000) as u64)
}

fn write_cell<W: Write>(writer: &mut W, cell: &StatementCell) -> Result<(), WriteFault>
    ensures { Writes (W.contents writer.old) (W.contents writer.new) result (spec.cell_text cell.now) }
{
    match cell {
        StatementCell::Plain(None) => write_bytes(writer, b""),
        StatementCell::Plain(Some(value)) => write_pieces(writer, &[piece_of(value)]),
        StatementCell::Number(number) => write_pieces(writer, &[Piece::Sum(*number)]),
        StatementCell::Decimal(Some(number)) => write_decimal(writer, *number),
        StatementCell::Decimal(None) => write_bytes(writer, b"NULL"),
    }
}

// Writes a cell behind a bar.
fn write_next<W: Write>(writer: &mut W, cell: &StatementCell) -> Result<(), WriteFault>
    ensures { Writes (W.contents writer.old) (W.contents writer.new) result (spec.cell_behind cell.now) }
{
    write_bytes(writer, b"|")?;
    write_cell(writer, cell)
}

fn write_others<W: Write>(writer: &mut W, cells: &[StatementCell]) -> Result<(), WriteFault>
    ensures { Writes (W.contents writer.old) (W.contents writer.new) result (flat_map spec.cell_behind cells.now) }
{
    for cell in cells {
        write_next(writer, cell)?;
    }
    Ok(())
}

// Writes cells with a bar between one and the next.
fn write_cells<W: Write>(writer: &mut W, cells: &[StatementCell]) -> Result<(), WriteFault>
    ensures { Writes (W.contents writer.old) (W.contents writer.new) result (spec.cells_text cells.now) }
{
    match cells {
        [] => Ok(()),
        [first, others @ ..] => {
            write_cell(writer, first)?;
            write_others(writer, others)
        }
    }
}

fn write_line<W: Write>(writer: &mut W, row: &Items<StatementCell>) -> Result<(), WriteFault>
    ensures { Writes (W.contents writer.old) (W.contents writer.new) result (spec.report_line row.now) }
{
    write_cells(writer, row.as_slice())?;
    write_bytes(writer, b"\n")
}

/// Writes a line for each row, its cells with a bar between one and the next.
pub(crate) fn write_lines<W: Write>(
    writer: &mut W,
    rows: &[Items<StatementCell>],
) -> Result<(), WriteFault>
    ensures { Writes (W.contents writer.old) (W.contents writer.new) result (flat_map spec.report_line rows.now) }
{
    for row in rows {
        write_line(writer, row)?;
    }
    Ok(())
}

/// Writes the report of a statement's rows, as they are after so many commits: a line before them, and a line for each.
/// It takes no memory.
pub fn write_statement<W: Write>(
    writer: &mut W,
    at: u64,
    rows: &[Items<StatementCell>],
) -> Result<(), WriteFault>
    ensures { Writes (W.contents writer.old) (W.contents writer.new) result (spec.report_text at rows.now) }
{
    write_pieces(
        writer,
        &[
            Piece::Text("sql at "),
            Piece::Number(at),
            Piece::Text(" rows "),
            Piece::Number(rows.len() as u64),
            Piece::Text("\n"),
        ],
    )?;
    write_lines(writer, rows)
}

/// Writes the report of what is listed of a statement. It takes no memory.
pub fn write_listing<W: Write>(writer: &mut W, listing: &Listing) -> Result<(), WriteFault>
    ensures { Writes (W.contents writer.old) (W.contents writer.new) result (spec.listing_text (listing_of listing.now)) }
{
    match listing {
        Listing::Rows(rows) => write_statement(writer, rows.at, rows.rows.as_slice()),
        Listing::Unserved(cause) => write_unserved(writer, "sql", *cause),
    }
}
