//! What is told of a request's fault.

ghost use Rattle.std.specs.Prelude.{◌≡◌, IfOk, IsUtf8};
ghost use Rattle.ssb_formats.specs.Formats.{Shows};
ghost use Rattle.ssb_formats.specs.ReplyTexts.{fault_shown};
ghost use Rattle.ssb_text.specs.Written.{Writes};
ghost use Rattle.stream_sessions.specs.FaultLine.{fault_line, fault_text, placed_text, schema_text};
ghost use Rattle.stream_sessions.specs.FaultLine.{sql_text};

use ssb_formats::{FormatFault, ReplyFormat, write_fault_as};
use ssb_schema::SchemaFault;
use ssb_script::ScriptError;
use ssb_sql::{SqlFault, TextPlace};
use ssb_text::{Piece, WriteFault, write_pieces};
use std::alloc::{AllocError, Global};
use std::io::Write;
use std::str;

// The number, the name and the values of a fault of the schema.
fn write_schema_fault<W: Write>(writer: &mut W, fault: SchemaFault) -> Result<(), WriteFault>
    ensures { Writes (W.contents writer.old) (W.contents writer.new) result (schema_text fault) }
{
    match fault {
        SchemaFault::NoLines => write_pieces(writer, &[Piece::Text("1 NoLines")]),
        SchemaFault::TooManyLines => write_pieces(writer, &[Piece::Text("2 TooManyLines")]),
        SchemaFault::KeysDiffer => write_pieces(writer, &[Piece::Text("3 KeysDiffer")]),
        SchemaFault::LineRepeated(number) => write_pieces(
            writer,
            &[
                Piece::Text("4 LineRepeated "),
                Piece::Number(u64::from(number)),
            ],
        ),
        SchemaFault::NoActions => write_pieces(writer, &[Piece::Text("5 NoActions")]),
        SchemaFault::TooManyActions => write_pieces(writer, &[Piece::Text("6 TooManyActions")]),
        SchemaFault::KeyRepeated(table, row) => write_pieces(
            writer,
            &[
                Piece::Text("7 KeyRepeated "),
                Piece::Text(table.name()),
                Piece::Text(" "),
                Piece::Number(row as u64),
            ],
        ),
        SchemaFault::UnknownKey(line, table) => write_pieces(
            writer,
            &[
                Piece::Text("8 UnknownKey "),
                Piece::Number(line as u64),
                Piece::Text(" "),
                Piece::Text(table.name()),
            ],
        ),
        SchemaFault::TooManyRows(table) => write_pieces(
            writer,
            &[Piece::Text("9 TooManyRows "), Piece::Text(table.name())],
        ),
        SchemaFault::OutOfRange(column) => write_pieces(
            writer,
            &[Piece::Text("10 OutOfRange "), Piece::Text(column.name())],
        ),
        SchemaFault::FieldTooLong(column) => write_pieces(
            writer,
            &[Piece::Text("11 FieldTooLong "), Piece::Text(column.name())],
        ),
    }
}

// A name, and a place in a text, where there is one.
fn write_placed<'a, W: Write>(
    writer: &mut W,
    name: &'a str,
    place: Option<TextPlace>,
) -> Result<(), WriteFault>
    ensures { Writes (W.contents writer.old) (W.contents writer.new) result (placed_text name.now place) }
{
    let Some(place) = place else {
        return write_pieces(writer, &[Piece::Text(name)]);
    };
    write_pieces(
        writer,
        &[
            Piece::Text(name),
            Piece::Text(" "),
            Piece::Number(place.line as u64),
            Piece::Text(" "),
            Piece::Number(place.column as u64),
        ],
    )
}

// The number, the name and the place of a statement's fault.
fn write_sql_fault<W: Write>(writer: &mut W, fault: SqlFault) -> Result<(), WriteFault>
    ensures { Writes (W.contents writer.old) (W.contents writer.new) result (sql_text fault) }
{
    write_placed(writer, fault.name(), fault.place())
}

// The number, the name and the values of a script's fault.
fn write_fault<W: Write>(writer: &mut W, fault: ScriptError) -> Result<(), WriteFault>
    ensures { Writes (W.contents writer.old) (W.contents writer.new) result (fault_text fault) }
{
    match fault {
        ScriptError::BadLine(record) => write_pieces(
            writer,
            &[Piece::Text("70 BadLine "), Piece::Number(record)],
        ),
        ScriptError::NoCommit => write_pieces(writer, &[Piece::Text("71 NoCommit")]),
        ScriptError::EmptyBlock(record) => write_pieces(
            writer,
            &[Piece::Text("72 EmptyBlock "), Piece::Number(record)],
        ),
        ScriptError::Row(record, why) => {
            write_pieces(
                writer,
                &[
                    Piece::Text("73 Row "),
                    Piece::Number(record),
                    Piece::Text(" "),
                ],
            )?;
            write_schema_fault(writer, why)
        }
        ScriptError::TooLong => write_pieces(writer, &[Piece::Text("74 TooLong")]),
        ScriptError::Read => write_pieces(writer, &[Piece::Text("75 Read")]),
        ScriptError::NoAnswer => write_pieces(writer, &[Piece::Text("77 NoAnswer")]),
        ScriptError::TooManyQuestions(record) => write_pieces(
            writer,
            &[Piece::Text("78 TooManyQuestions "), Piece::Number(record)],
        ),
        ScriptError::Sql(record, why) => {
            write_pieces(
                writer,
                &[
                    Piece::Text("79 Sql "),
                    Piece::Number(record),
                    Piece::Text(" "),
                ],
            )?;
            write_sql_fault(writer, why)
        }
        ScriptError::OutOfMemory => write_pieces(writer, &[Piece::Text("out of memory")]),
    }
}

// The number, the name and the values of a script's fault, in memory.
fn fault_text(alloc: Global, fault: ScriptError) -> Result<Vec<u8>, AllocError>
    ensures { IfOk result (λ text. text.items ≡ fault_text fault) }
{
    let mut text = Vec::new(alloc);
    match write_fault(&mut text, fault) {
        Ok(()) => Ok(text),
        Err(_) => Err(AllocError),
    }
}

// Writes what is told of a fault that has this text.
fn write_text<W: Write>(
    alloc: Global,
    writer: &mut W,
    format: ReplyFormat,
    text: &[u8],
) -> Result<(), FormatFault>
    requires { IsUtf8 text.now }
    ensures { Shows (W.contents writer.old) (W.contents writer.new) result (fault_shown format text.now) }
{
    match str::from_utf8(text) {
        Ok(text) => write_fault_as(alloc, writer, format, text),
        Err(_) => unreachable!(),
    }
}

/// Writes what is told of a request's fault in a format: in the report a line, `fault: ` and what the fault says of
/// itself.
pub(crate) fn write_fault_line<W: Write>(
    alloc: Global,
    writer: &mut W,
    format: ReplyFormat,
    fault: ScriptError,
) -> Result<(), FormatFault>
    ensures { Shows (W.contents writer.old) (W.contents writer.new) result (fault_line format fault) }
{
    match fault_text(alloc, fault) {
        Ok(text) => write_text(alloc, writer, format, text.as_slice()),
        Err(_) => Err(FormatFault::OutOfMemory),
    }
}
