//! The pieces of a written line, and how they are written.

ghost use Rattle.std.specs.Prelude.{flat_map};
ghost use Rattle.ssb_text.specs.Written.{Writes};
ghost use Rattle.ssb_text.specs.Piece.{piece_text};

use itoa::Buffer;
use std::io::Write;
use thiserror::Error;

/// A write failed, or took nothing.
#[derive(Clone, Copy, Debug, PartialEq, Eq, Error)]
#[error("write failed")]
pub struct WriteFault;

/// A piece of a line.
#[derive(Clone, Copy)]
pub enum Piece<'a> {
    /// A text.
    Text(&'a str),
    /// In decimal, without leading zeros.
    Number(u64),
    /// Likewise, with `-` where it is negative; `NULL` where there is none.
    Sum(Option<i64>),
}

/// Writes all of the bytes. A write that fails or takes none of them is a fault.
pub fn write_bytes<W: Write>(writer: &mut W, bytes: &[u8]) -> Result<(), WriteFault>
    ensures { Writes (W.contents writer.old) (W.contents writer.new) result bytes.now }
{
    let mut rest = bytes;
    while !rest.is_empty() {
        match writer.write(rest) {
            Ok(0) => return Err(WriteFault),
            Ok(taken) => rest = &rest[taken..],
            Err(_) => return Err(WriteFault),
        }
    }
    Ok(())
}

fn write_piece<W: Write>(writer: &mut W, piece: Piece<'_>) -> Result<(), WriteFault>
    ensures { Writes (W.contents writer.old) (W.contents writer.new) result (piece_text piece.entry) }
{
    match piece {
        Piece::Text(text) => write_bytes(writer, text.as_bytes()),
        Piece::Number(number) => write_bytes(writer, Buffer::new().format(number).as_bytes()),
        Piece::Sum(Some(sum)) => write_bytes(writer, Buffer::new().format(sum).as_bytes()),
        Piece::Sum(None) => write_bytes(writer, b"NULL"),
    }
}

/// Writes the pieces, one after another. It takes no memory.
pub fn write_pieces<W: Write>(writer: &mut W, pieces: &[Piece<'_>]) -> Result<(), WriteFault>
    ensures { Writes (W.contents writer.old) (W.contents writer.new) result (flat_map piece_text pieces.now) }
{
    for piece in pieces {
        write_piece(writer, *piece)?;
    }
    Ok(())
}
