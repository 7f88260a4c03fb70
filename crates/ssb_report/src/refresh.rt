//! The reports of refreshes, and of what is dropped.
ghost use Rattle.std.specs.Prelude.{OnOk, OnErr};
ghost use Rattle.std.specs.Io.KnownBytes.{Appends};
ghost use Rattle.ssb_text.specs.Written.{StopsShort, Writes};
ghost use Rattle.ssb_report.specs.Replies.{Refreshed, reply_text};
ghost use Rattle.ssb_report.specs.RefreshText.{aborted_text, receipt_text, refusal_text, refused_text, cause_text};

use row_store::{Cause, Receipt, RefreshError};
use ssb_text::{Piece, WriteFault, write_pieces};
use std::io::Write;

/// Writes the report of a commit, its number. It takes no memory.
pub fn write_receipt<W: Write>(writer: &mut W, receipt: &Receipt) -> Result<(), WriteFault>
    ensures report { OnOk result (Appends (W.contents writer.old) (W.contents writer.new) (receipt_text receipt.now)) }
    ensures fault { OnErr result (StopsShort (W.contents writer.old) (W.contents writer.new)
        (receipt_text receipt.now)) }
{
    let number = Piece::Number(receipt.number);
    write_pieces(
        writer,
        &[Piece::Text("committed "), number, Piece::Text("\n")],
    )
}

/// Writes that what was begun is dropped. It takes no memory.
pub fn write_aborted<W: Write>(writer: &mut W) -> Result<(), WriteFault>
    ensures report { OnOk result (Appends (W.contents writer.old) (W.contents writer.new) aborted_text) }
    ensures fault { OnErr result (StopsShort (W.contents writer.old) (W.contents writer.new) aborted_text) }
{
    write_pieces(writer, &[Piece::Text("aborted\n")])
}

/// Writes the number and the name of a cause, with its key where it has one. It takes no memory.
pub fn write_cause<W: Write>(writer: &mut W, cause: Cause) -> Result<(), WriteFault>
    ensures { Writes (W.contents writer.old) (W.contents writer.new) result (cause_text cause) }
{
    match cause {
        Cause::LogFull => write_pieces(writer, &[Piece::Text("40 LogFull")]),
        Cause::Present(key) => write_pieces(
            writer,
            &[Piece::Text("41 Present "), Piece::Number(key)],
        ),
        Cause::UnknownCustomer => write_pieces(writer, &[Piece::Text("42 UnknownCustomer")]),
        Cause::UnknownSupplier => write_pieces(writer, &[Piece::Text("43 UnknownSupplier")]),
        Cause::UnknownPart => write_pieces(writer, &[Piece::Text("44 UnknownPart")]),
        Cause::UnknownDate => write_pieces(writer, &[Piece::Text("45 UnknownDate")]),
        Cause::LinesFull => write_pieces(writer, &[Piece::Text("46 LinesFull")]),
        Cause::Absent(key) => write_pieces(
            writer,
            &[Piece::Text("47 Absent "), Piece::Number(key)],
        ),
        Cause::AmendAbsent(key) => write_pieces(
            writer,
            &[Piece::Text("48 AmendAbsent "), Piece::Number(key)],
        ),
    }
}

// The line of a refused refresh.
fn write_refused<W: Write>(
    writer: &mut W,
    at: u64,
    action: u64,
    cause: Cause,
) -> Result<(), WriteFault>
    ensures { Writes (W.contents writer.old) (W.contents writer.new) result (refused_text at action cause) }
{
    write_pieces(
        writer,
        &[
            Piece::Text("refused at "),
            Piece::Number(at),
            Piece::Text(" action "),
            Piece::Number(action),
            Piece::Text(": "),
        ],
    )?;
    write_cause(writer, cause)?;
    write_pieces(writer, &[Piece::Text("\n")])
}

/// Writes the report of a refresh that was not applied: the number of commits at that time, the action
/// and the cause; or that memory ran out. It takes no memory.
pub fn write_refusal<W: Write>(writer: &mut W, error: &RefreshError) -> Result<(), WriteFault>
    ensures report { OnOk result (Appends (W.contents writer.old) (W.contents writer.new) (refusal_text error.now)) }
    ensures fault { OnErr result (StopsShort (W.contents writer.old) (W.contents writer.new) (refusal_text error.now)) }
{
    match error {
        RefreshError::Refused { at, action, cause } => {
            write_refused(writer, *at, u64::from(*action), *cause)
        }
        RefreshError::OutOfMemory => write_pieces(
            writer,
            &[Piece::Text("refresh: out of memory\n")],
        ),
    }
}

/// Writes the report of the reply to a refresh.
pub fn write_reply<W: Write>(
    writer: &mut W,
    reply: &Result<Receipt, RefreshError>,
) -> Result<(), WriteFault>
    ensures report { OnOk result (Appends (W.contents writer.old) (W.contents writer.new)
        (reply_text (Refreshed reply.now))) }
    ensures fault { OnErr result (StopsShort (W.contents writer.old) (W.contents writer.new)
        (reply_text (Refreshed reply.now))) }
{
    match reply {
        Ok(receipt) => write_receipt(writer, receipt),
        Err(error) => write_refusal(writer, error),
    }
}
