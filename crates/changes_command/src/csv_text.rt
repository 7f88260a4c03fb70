//! A signed line as a record of CSV.

ghost use Rattle.std.specs.Prelude.{◌≡◌, ◌∷◌, [], ◌++◌, decimal, flat_map};
ghost use Rattle.csv.specs.Writing.{comma, default_writer, escaped, needs_byte, needs_quotes, quoted};
ghost use Rattle.ssb_text.specs.Numbers.{line_feed};
ghost use Rattle.ssb_text.specs.TableText.{cell_text};
ghost use Rattle.ssb_text.specs.Written.{Writes};
ghost use Rattle.changes_command.specs.CsvText.{after_comma, sign_field};
ghost use Rattle.changes_command.specs.SignedText.{heads_text, signed_text};
ghost use Rattle.changes_command.specs.declared.format.ChangesFormat.TheVariants.{Csv};

use crate::signed::Sign;
use ssb_schema::{Cell, Line};
use ssb_text::{Piece, WriteFault, write_bytes, write_pieces};
use std::io::Write;

/// The record of the heads.
#[tactic(auto, unfolding(csv::specs::Writing::fields_text, csv::specs::Writing::is_blank))]
pub(crate) fn csv_heads() -> &'static str
    ensures { result.now ≡ heads_text Csv }
{
    "COMMIT,SIGN,LO_ORDERKEY,LO_LINENUMBER,LO_CUSTKEY,LO_PARTKEY,LO_SUPPKEY,LO_ORDERDATE,LO_ORDERPRIORITY,\
     LO_SHIPPRIORITY,LO_QUANTITY,LO_EXTENDEDPRICE,LO_ORDTOTALPRICE,LO_DISCOUNT,LO_REVENUE,LO_SUPPLYCOST,LO_TAX,\
     LO_COMMITDATE,LO_SHIPMODE\n"
}

// The sign, behind a comma.
fn mark(sign: Sign) -> &'static str
    ensures { result.now ≡ sign_field sign }
{
    match sign {
        Sign::Came => ",1",
        Sign::Went => ",-1",
    }
}

// Whether a text with this byte stands between quotes.
fn calls_for_quotes(byte: u8) -> bool
    ensures { result ≡ needs_byte default_writer byte }
{
    byte == b',' || byte == b'"' || byte == b'\r' || byte == b'\n'
}

// Whether a text stands between quotes.
fn is_quoted(text: &str) -> bool
    ensures { result ≡ needs_quotes default_writer text.now }
{
    text.as_bytes().iter().any(|byte| calls_for_quotes(*byte))
}

// A byte of a text between quotes: a quote stands there twice.
#[tactic(auto, unfolding(csv::specs::Writing::escaped))]
fn write_byte<W: Write>(out: &mut W, byte: u8) -> Result<(), WriteFault>
    ensures { Writes (W.contents out.old) (W.contents out.new) result (escaped default_writer (byte ∷ [])) }
{
    if byte == b'"' {
        return write_bytes(out, b"\"\"");
    }
    write_bytes(out, &[byte])
}

// The bytes of a text between its quotes.
fn write_escaped<W: Write>(out: &mut W, bytes: &[u8]) -> Result<(), WriteFault>
    ensures { Writes (W.contents out.old) (W.contents out.new) result (escaped default_writer bytes.now) }
{
    for byte in bytes {
        write_byte(out, *byte)?;
    }
    Ok(())
}

// A text between quotes, behind a comma.
fn write_quoted<W: Write>(out: &mut W, text: &str) -> Result<(), WriteFault>
    ensures { Writes (W.contents out.old) (W.contents out.new) result (comma ∷ quoted default_writer text.now) }
{
    write_bytes(out, b",\"")?;
    write_escaped(out, text.as_bytes())?;
    write_bytes(out, b"\"")
}

// A text, behind a comma.
fn write_text<W: Write>(out: &mut W, text: &str) -> Result<(), WriteFault>
    ensures { Writes (W.contents out.old) (W.contents out.new) result (after_comma text.now) }
{
    if is_quoted(text) {
        return write_quoted(out, text);
    }
    write_pieces(out, &[Piece::Text(","), Piece::Text(text)])
}

// A number, behind a comma.
fn write_number<W: Write>(out: &mut W, number: u64) -> Result<(), WriteFault>
    ensures { Writes (W.contents out.old) (W.contents out.new) result (after_comma (decimal number)) }
{
    write_pieces(out, &[Piece::Text(","), Piece::Number(number)])
}

// A cell, behind a comma.
fn write_cell<W: Write>(out: &mut W, cell: &Cell<'_>) -> Result<(), WriteFault>
    ensures { Writes (W.contents out.old) (W.contents out.new) result (after_comma (cell_text cell.now)) }
{
    match cell {
        Cell::Number(number) => write_number(out, *number),
        Cell::Text(text) => write_text(out, text),
    }
}

// Cells, each behind a comma, and the end of the record.
fn write_cells<W: Write>(out: &mut W, cells: &[Cell<'_>]) -> Result<(), WriteFault>
    ensures { Writes (W.contents out.old) (W.contents out.new) result
        (flat_map (λ cell. after_comma (cell_text cell)) cells.now ++ line_feed) }
{
    for cell in cells {
        write_cell(out, cell)?;
    }
    write_bytes(out, b"\n")
}

/// Writes a line with its commit and its sign. It takes no memory.
pub(crate) fn write_csv<W: Write>(
    out: &mut W,
    commit: u64,
    sign: Sign,
    line: &Line,
) -> Result<(), WriteFault>
    ensures { Writes (W.contents out.old) (W.contents out.new) result (signed_text Csv commit sign line.now) }
{
    write_pieces(out, &[Piece::Number(commit), Piece::Text(mark(sign))])?;
    write_cells(out, line.cells().as_slice())
}
