//! A signed line as a JSON object.

ghost use Rattle.std.specs.Char.{digit_char};
ghost use Rattle.std.specs.List.{list_any, zip};
ghost use Rattle.std.specs.Prelude.{◌≡◌, ◌<◌, map};
ghost use Rattle.json.specs.Print.{escape, escape_byte, escape_letter, quoted};
ghost use Rattle.ssb_schema.specs.Columns.{value_of};
ghost use Rattle.ssb_text.specs.Written.{Writes};
ghost use Rattle.changes_command.specs.JsonText.{is_escaped, member_heads, member_text, line_members, sign_member};
ghost use Rattle.changes_command.specs.SignedText.{signed_text};
ghost use Rattle.changes_command.specs.declared.format.ChangesFormat.TheVariants.{Json};

use crate::signed::Sign;
use ssb_schema::{Cell, Line};
use ssb_text::{Piece, WriteFault, write_bytes, write_pieces};
use std::io::Write;

// What stands before the values of a line.
static MEMBER_HEADS: [&str; 17] = [
    ",\"LO_ORDERKEY\":",
    ",\"LO_LINENUMBER\":",
    ",\"LO_CUSTKEY\":",
    ",\"LO_PARTKEY\":",
    ",\"LO_SUPPKEY\":",
    ",\"LO_ORDERDATE\":",
    ",\"LO_ORDERPRIORITY\":",
    ",\"LO_SHIPPRIORITY\":",
    ",\"LO_QUANTITY\":",
    ",\"LO_EXTENDEDPRICE\":",
    ",\"LO_ORDTOTALPRICE\":",
    ",\"LO_DISCOUNT\":",
    ",\"LO_REVENUE\":",
    ",\"LO_SUPPLYCOST\":",
    ",\"LO_TAX\":",
    ",\"LO_COMMITDATE\":",
    ",\"LO_SHIPMODE\":",
];

#[tactic(auto, unfolding(json::specs::Print::escape_byte))]
fn member_heads() -> &'static [&'static str]
    ensures { map (λ head. head.now) result.now ≡ member_heads }
{
    &MEMBER_HEADS
}

// The member of the sign, behind another.
#[tactic(auto, unfolding(json::specs::Print::escape_byte))]
fn mark(sign: Sign) -> &'static str
    ensures { result.now ≡ sign_member sign }
{
    match sign {
        Sign::Came => ",\"SIGN\":1",
        Sign::Went => ",\"SIGN\":-1",
    }
}

// Whether a text does not stand for itself between its quotes.
fn has_escapes(text: &str) -> bool
    ensures { result ≡ list_any is_escaped text.now }
{
    text.as_bytes()
        .iter()
        .any(|byte| *byte == b'"' || *byte == b'\\' || *byte < b' ')
}

// The letter of a byte's short escape, or 0.
fn letter(byte: u8) -> u8
    ensures { result ≡ escape_letter byte }
{
    match byte {
        b'"' | b'\\' => byte,
        8 => b'b',
        12 => b'f',
        b'\n' => b'n',
        b'\r' => b'r',
        b'\t' => b't',
        _ => 0,
    }
}

// A hexadecimal digit.
fn digit(number: u8) -> u8
    requires { number < 16 }
    ensures { result ≡ digit_char number }
{
    if number < 10 {
        b'0' + number
    } else {
        b'a' + (number - 10)
    }
}

// What stands for a byte between quotes.
#[tactic(auto, unfolding(json::specs::Print::escape_byte))]
fn write_byte<W: Write>(out: &mut W, byte: u8) -> Result<(), WriteFault>
    ensures { Writes (W.contents out.old) (W.contents out.new) result (escape_byte byte) }
{
    let letter = letter(byte);
    if letter > 0 {
        return write_bytes(out, &[b'\\', letter]);
    }
    if byte < 32 {
        let code = [b'\\', b'u', b'0', b'0', digit(byte / 16), digit(byte % 16)];
        return write_bytes(out, &code);
    }
    write_bytes(out, &[byte])
}

// The bytes of a text between its quotes.
fn write_escaped<W: Write>(out: &mut W, bytes: &[u8]) -> Result<(), WriteFault>
    ensures { Writes (W.contents out.old) (W.contents out.new) result (escape bytes.now) }
{
    for byte in bytes {
        write_byte(out, *byte)?;
    }
    Ok(())
}

// A text, of which not all bytes stand for themselves.
fn write_quoted<W: Write>(out: &mut W, text: &str) -> Result<(), WriteFault>
    ensures { Writes (W.contents out.old) (W.contents out.new) result (quoted text.now) }
{
    write_bytes(out, b"\"")?;
    write_escaped(out, text.as_bytes())?;
    write_bytes(out, b"\"")
}

// A text.
fn write_text<W: Write>(out: &mut W, text: &str) -> Result<(), WriteFault>
    ensures { Writes (W.contents out.old) (W.contents out.new) result (quoted text.now) }
{
    if has_escapes(text) {
        return write_quoted(out, text);
    }
    let pieces = [Piece::Text("\""), Piece::Text(text), Piece::Text("\"")];
    write_pieces(out, &pieces)
}

// A member: what stands before its value, and that.
fn write_member<W: Write>(out: &mut W, head: &str, cell: &Cell<'_>) -> Result<(), WriteFault>
    ensures { Writes (W.contents out.old) (W.contents out.new) result (member_text (head.now, value_of cell.now)) }
{
    match cell {
        Cell::Number(number) => write_pieces(out, &[Piece::Text(head), Piece::Number(*number)]),
        Cell::Text(text) => {
            write_bytes(out, head.as_bytes())?;
            write_text(out, text)
        }
    }
}

// The members of a line, and the end of the object and of its line.
fn write_members<W: Write>(out: &mut W, cells: &[Cell<'_>]) -> Result<(), WriteFault>
    ensures { Writes (W.contents out.old) (W.contents out.new) result (line_members (map value_of cells.now)) }
{
    for (head, cell) in member_heads().iter().zip(cells) {
        write_member(out, head, cell)?;
    }
    write_bytes(out, b"}\n")
}

/// Writes a line with its commit and its sign. It takes no memory.
pub(crate) fn write_json<W: Write>(
    out: &mut W,
    commit: u64,
    sign: Sign,
    line: &Line,
) -> Result<(), WriteFault>
    ensures { Writes (W.contents out.old) (W.contents out.new) result (signed_text Json commit sign line.now) }
{
    let lead = [
        Piece::Text("{\"COMMIT\":"),
        Piece::Number(commit),
        Piece::Text(mark(sign)),
    ];
    write_pieces(out, &lead)?;
    write_members(out, line.cells().as_slice())
}
