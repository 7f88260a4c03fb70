//! The records of a text, one by one: fields parted by `|`, with no quotes and no header row.

ghost use Rattle.std.specs.Prelude.{◌≡◌, ℕ, List, Some, [], IfOk};
ghost use Rattle.csv.specs.Records.{fields_of};
ghost use Rattle.ssb_text.specs.Records.{GivesNext, HasGiven, IsRecordReader, read_error_of};

use csv::{ByteRecord, Error, ErrorKind, Reader, ReaderBuilder};
use std::alloc::Global;
use std::io::Read;

/// Why a record could not be read.
#[derive(Clone, Copy, Debug, PartialEq, Eq)]
pub enum ReadError {
    /// The reader underneath failed.
    Read,
    /// Memory ran out.
    OutOfMemory,
}

impl From<Error> for ReadError {
    ghost from_gives = { λ error why. why ≡ read_error_of error.kind };

    fn from(error: Error) -> ReadError {
        match error.into_kind() {
            ErrorKind::OutOfMemory => ReadError::OutOfMemory,
            _ => ReadError::Read,
        }
    }
}

/// A reader of the records of `source`, which ends a record at LF, CR LF or a lone CR, gives none for
/// a line of no bytes, and drops a byte order mark at the start.
pub fn record_reader<R: Read>(alloc: Global, source: R) -> Reader<R>
    ensures ready { IsRecordReader result }
    ensures start { (bytes : List ℕ) → R.remaining source ≡ Some bytes → HasGiven R.remaining bytes result [] }
{
    ReaderBuilder::new()
        .delimiter(b'|')
        .quoting(false)
        .has_headers(false)
        .flexible(true)
        .from_reader(alloc, source)
}

/// Reads the next record into `next`: false where there is none. After an error the reader is not to be read again.
pub fn next_record<R: Read>(
    reader: &mut Reader<R>,
    next: &mut ByteRecord,
) -> Result<bool, ReadError>
    requires { IsRecordReader reader.old }
    ensures next { IfOk result (λ found. GivesNext R.remaining reader.old reader.new found (fields_of next.new)) }
    ensures ready { IfOk result (λ found. IsRecordReader reader.new) }
{
    match reader.read_byte_record(next) {
        Ok(found) => Ok(found),
        Err(error) => Err(ReadError::from(error)),
    }
}
