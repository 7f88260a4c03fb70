//! The next line of a reader, which is read look by look at what the reader has at hand.

ghost use Rattle.std.specs.Prelude.{◌≤◌, ℕ, List, [], Option, take, length, IfSome, IfNone};
ghost use Rattle.ssb_text.specs.TextLines.{HasNoLineEnd, IsLine};
ghost use Rattle.ssb_script.specs.Taking.{IsPiece, TellsLine, TellsPiece, Took};

use crate::request_error::RequestError;
use std::io::{BufRead, Error, ErrorKind};

/// What a look brought.
#[derive(Clone, Copy, Debug, PartialEq, Eq)]
pub(crate) enum LinePiece {
    /// The line through its LF.
    Line,
    /// Some bytes of the line, or none: it goes on.
    Part,
    /// Nothing: the text has ended.
    End,
}

/// The length of the line at the front, if it ends within the bytes.
pub(crate) fn line_length(bytes: &[u8]) -> Option<usize>
    ensures within { IfSome result (λ count. count ≤ length bytes.now) }
    ensures line { IfSome result (λ count. IsLine (take count bytes.now)) }
    ensures none { IfNone result (HasNoLineEnd bytes.now) }
{
    for at in 0..bytes.len() {
        if bytes[at] == b'\n' {
            return Some(at + 1);
        }
    }
    None
}

// How many of the bytes at hand belong to the line, at most so many, and whether they end it.
fn piece_of(available: &[u8], room: usize) -> (usize, LinePiece)
    ensures within { result.0 ≤ length available.now }
    ensures room { result.0 ≤ room }
    ensures piece { (text : Option (List ℕ)) → IsPiece result.1 text (take result.0 available.now) }
{
    let shown = &available[..available.len().min(room)];
    match line_length(shown) {
        Some(count) => (count, LinePiece::Line),
        None => (shown.len(), LinePiece::Part),
    }
}

// What to tell of a reader's error: one that was interrupted is asked again.
fn after_error(error: &Error) -> Result<LinePiece, RequestError>
    ensures { (limit count : ℕ) (text : Option (List ℕ)) → TellsPiece result limit count text [] }
{
    if error.kind() == ErrorKind::Interrupted {
        Ok(LinePiece::Part)
    } else {
        Err(RequestError::Read)
    }
}

// Takes what the reader has at hand of the line to the end of the buffer, up to so many bytes in all. It asks the
// reader once, and takes nothing behind the line's LF.
fn next_piece<R: BufRead>(
    reader: &mut R,
    buffer: &mut Vec<u8>,
    limit: usize,
) -> Result<LinePiece, RequestError>
    requires { length buffer.old.items ≤ limit }
    ensures within { length buffer.new.items ≤ limit }
    ensures took { Took (R.remaining reader.old) (R.remaining reader.new) buffer.old.items buffer.new.items
        (TellsPiece result limit (length buffer.new.items) (R.remaining reader.old)) }
{
    let available = match reader.fill_buf() {
        Ok(available) => available,
        Err(error) => return after_error(&error),
    };
    if available.is_empty() {
        return Ok(LinePiece::End);
    }
    let room = limit - buffer.len();
    if room == 0 {
        return Err(RequestError::TooLong);
    }
    let (count, piece) = piece_of(available, room);
    buffer.extend_from_slice(&available[..count])?;
    reader.consume(count);
    Ok(piece)
}

/// Takes the next line of the reader to the end of the buffer, up to so many bytes in all: true where it is whole,
/// false where the text ended before its LF.
pub(crate) fn next_line<R: BufRead>(
    reader: &mut R,
    buffer: &mut Vec<u8>,
    limit: usize,
) -> Result<bool, RequestError>
    requires { length buffer.old.items ≤ limit }
    ensures within { length buffer.new.items ≤ limit }
    ensures took { Took (R.remaining reader.old) (R.remaining reader.new) buffer.old.items buffer.new.items
        (TellsLine result limit (length buffer.new.items) (R.remaining reader.old)) }
{
    for _ in 0..u64::MAX {
        match next_piece(reader, buffer, limit)? {
            LinePiece::Line => return Ok(true),
            LinePiece::End => return Ok(false),
            LinePiece::Part => {}
        }
    }
    // A reader that was interrupted so often has failed.
    Err(RequestError::Read)
}
