//! The requests of a reader's text, one by one.

ghost use Rattle.std.specs.Prelude.{◌≤◌, length, IfOk, IfErr, IfSome, IsErrOf};
ghost use Rattle.std.specs.Io.KnownBytes.{Consumes};
ghost use Rattle.ssb_script.specs.NextRequest.{BeginsBeyond, CutsNext, IsFound, IsRequestFault};

use crate::block::{begun_behind, ends_request};
use crate::pieces::next_line;
use crate::request_error::RequestError;
use std::io::BufRead;

/// The most bytes that a request has where nothing else is said: 1 MiB.
pub const MOST_BYTES: usize = 1_048_576;

/// What a read of the next request found.
#[derive(Clone, Copy, Debug, PartialEq, Eq)]
pub enum NextRequest {
    /// A whole request.
    Request,
    /// The bytes that are left of a text which ended inside a request.
    Rest,
    /// Nothing: the text has ended, and all of it was given.
    Nothing,
}

// Takes the next request of the reader's text into the buffer, in place of what was there.
fn take_request<R: BufRead>(
    reader: &mut R,
    request: &mut Vec<u8>,
    limit: usize,
) -> Result<NextRequest, RequestError>
    ensures taken { Consumes (R.remaining reader.old) (R.remaining reader.new) request.new.items }
    ensures within { length request.new.items ≤ limit }
    ensures found { IfOk result (λ found. IsFound found (R.remaining reader.old) request.new.items) }
    ensures fault { IfErr result (λ error. IsRequestFault error limit (R.remaining reader.old) request.new.items) }
{
    request.clear();
    let mut begun = None;
    loop {
        let start = request.len();
        if !next_line(reader, request, limit)? {
            let found = if request.is_empty() {
                NextRequest::Nothing
            } else {
                NextRequest::Rest
            };
            return Ok(found);
        }
        let line = &request[start..];
        if ends_request(begun, line) {
            return Ok(NextRequest::Request);
        }
        begun = begun_behind(begun, line);
    }
}

/// Takes the next request of the reader's text into the buffer, in place of what was there.
///
/// After each answer and each error the buffer holds exactly the bytes that the reader lost. It asks the reader for
/// bytes only while the request has no end: behind its last LF it neither takes nor waits for any. The buffer keeps its
/// room from call to call.
///
/// An error comes where the request is longer than `limit` bytes, as soon as one byte more is there; where the reader
/// fails; and where memory runs out. The reader then stands inside a request, and is not to be cut further.
pub fn next_request<R: BufRead>(
    reader: &mut R,
    request: &mut Vec<u8>,
    limit: usize,
) -> Result<NextRequest, RequestError>
    // What was taken, and that it is a request or the rest, or else no request yet.
    ensures taken { Consumes (R.remaining reader.old) (R.remaining reader.new) request.new.items }
    ensures within { length request.new.items ≤ limit }
    ensures found { IfOk result (λ found. IsFound found (R.remaining reader.old) request.new.items) }
    ensures fault { IfErr result (λ error. IsRequestFault error limit (R.remaining reader.old) request.new.items) }
    // The same of the requests of the whole text.
    ensures next { IfOk result (λ found. CutsNext found (R.remaining reader.old) (R.remaining reader.new)
        request.new.items) }
    ensures too_long { IsErrOf result RequestError.TooLong → IfSome (R.remaining reader.old) (BeginsBeyond limit) }
{
    take_request(reader, request, limit)
}
