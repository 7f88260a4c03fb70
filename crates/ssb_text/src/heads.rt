//! The line of heads above the rows of a table.

ghost use Rattle.std.specs.Prelude.{◌≡◌, ◌≢◌, ◌⊎◌, ◌+◌, ◌∷◌, [], ℕ, List, Some, cond, true, false, length};
ghost use Rattle.std.specs.Prelude.{IfErr, IfOk, MatchOption, OnOk};
ghost use Rattle.std.specs.Io.KnownBytes.{Consumes, IsAtEnd};
ghost use Rattle.ssb_text.specs.HeadsReading.{EndsLine, HasNoLine};
ghost use Rattle.ssb_text.specs.Layouts.{HasHeads, parts};
ghost use Rattle.ssb_text.specs.declared.error.LoadError.TheVariants as errors;
ghost use Rattle.ssb_schema.specs.Columns.{kinds_of};

use crate::error::LoadError;
use crate::layout::Delimiter;
use ssb_schema::Table;
use std::io::Read;

/// How many bytes a line of heads may have.
const MOST_HEADS: usize = 65_536;

// The reader failed.
#[derive(Clone, Copy, Debug, PartialEq, Eq)]
struct FailedRead;

// The next byte of a reader, if it has one.
fn next_byte<R: Read>(reader: &mut R) -> Result<Option<u8>, FailedRead>
    ensures { IfOk result (λ found. MatchOption found (IsAtEnd (R.remaining reader.old))
        (λ b. Consumes (R.remaining reader.old) (R.remaining reader.new) (b ∷ []))) }
{
    let mut byte = [0];
    let Ok(count) = reader.read(&mut byte) else {
        return Err(FailedRead);
    };
    if count == 0 {
        return Ok(None);
    }
    Ok(Some(byte[0]))
}

// 1 for a byte that parts fields, else 0.
fn count_part(delimiter: Delimiter, byte: u8) -> usize
    ensures { result ≡ cond (parts delimiter byte) 1 0 }
{
    if delimiter.parts(byte) { 1 } else { 0 }
}

// How many bytes part the fields of the first line of a reader, whose bytes are read up to the line feed; or none where
// no line feed ends it, or too many bytes stand before that.
fn parts_of_line<R: Read>(reader: &mut R, delimiter: Delimiter) -> Result<Option<usize>, FailedRead>
    ensures { IfOk result (λ found. MatchOption found (HasNoLine (R.remaining reader.old))
        (EndsLine delimiter (R.remaining reader.old) (R.remaining reader.new))) }
{
    let mut parts = 0;
    for _ in 0..MOST_HEADS {
        let Some(byte) = next_byte(reader)? else {
            return Ok(None);
        };
        if byte == b'\n' {
            return Ok(Some(parts));
        }
        parts += count_part(delimiter, byte);
    }
    Ok(None)
}

// Whether a line that so many bytes part has so many fields, or one more.
fn are_enough(parts: usize, columns: usize) -> bool
    ensures yes { result ≡ true → (parts + 1 ≡ columns) ⊎ (parts ≡ columns) }
    ensures no { result ≡ false → (parts + 1 ≢ columns) × (parts ≢ columns) }
{
    match columns.checked_sub(parts) {
        Some(0) | Some(1) => true,
        _ => false,
    }
}

/// Reads the line of heads above the rows of a table, byte by byte, so that the reader stands at the rows. It has as
/// many fields as the table has columns, or one more.
pub(crate) fn read_heads<R: Read>(
    table: Table,
    delimiter: Delimiter,
    reader: &mut R,
) -> Result<(), LoadError>
    ensures heads { OnOk result ((file : List ℕ) → R.remaining reader.old ≡ Some file → (rows : List ℕ)
        × (R.remaining reader.new ≡ Some rows) × HasHeads delimiter (length (kinds_of table)) file rows) }
    ensures fault { IfErr result (λ e. (e ≡ errors.Read table) ⊎ ((e ≡ errors.FieldCount table 1)
        × ((file rows : List ℕ) → R.remaining reader.old ≡ Some file
        → HasHeads delimiter (length (kinds_of table)) file rows → ⊥))) }
{
    let Ok(found) = parts_of_line(reader, delimiter) else {
        return Err(LoadError::Read(table));
    };
    let Some(parts) = found else {
        return Err(LoadError::FieldCount(table, 1));
    };
    if !are_enough(parts, table.kinds().len()) {
        return Err(LoadError::FieldCount(table, 1));
    }
    Ok(())
}
