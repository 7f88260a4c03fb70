//! A table from a reader: one loop for all five.

ghost use Rattle.std.specs.Prelude.{◌≡◌, map, IfOk, IfErr, IfSome, ◌⊎◌, ◌<◌, ◌^◌};
ghost use Rattle.csv.specs.Records.{fields_of};
ghost use Rattle.ssb_text.specs.Records.{GivesNext, IsRecordReader};
ghost use Rattle.ssb_text.specs.Tables.{IsFirstFault, IsReadFault, SpellsRows};

use crate::error::{LineFault, LoadError};
use crate::records::{ReadError, next_record, record_reader};
use crate::row::TableRow;
use csv::{ByteRecord, Reader};
use ssb_schema::{SchemaFault, Table};
use std::alloc::Global;
use std::io::Read;

impl LoadError {
    ghost use Rattle.ssb_text.specs.Tables.{in_row, in_table};

    /// The fault of a table whose next record could not be read.
    pub(crate) fn in_table(table: Table, why: ReadError) -> LoadError
        ensures { result ≡ in_table table why }
    {
        match why {
            ReadError::Read => LoadError::Read(table),
            ReadError::OutOfMemory => LoadError::OutOfMemory,
        }
    }

    /// The fault of a record, told by its table and its number.
    pub(crate) fn in_row(table: Table, number: usize, fault: LineFault) -> LoadError
        ensures { result ≡ in_row table number fault }
    {
        match fault {
            LineFault::FieldCount => LoadError::FieldCount(table, number),
            LineFault::NotUtf8(column) => LoadError::NotUtf8(table, number, column),
            LineFault::NotANumber(column) => LoadError::NotANumber(table, number, column),
            LineFault::Refused(why) => LoadError::Row(table, number, why),
            LineFault::OutOfMemory => LoadError::OutOfMemory,
        }
    }
}

// The next record of a table, if there is one.
fn next_row<R: Read>(
    table: Table,
    reader: &mut Reader<R>,
    next: &mut ByteRecord,
) -> Result<bool, LoadError>
    requires { IsRecordReader reader.old }
    ensures next { IfOk result (λ found. GivesNext R.remaining reader.old reader.new found (fields_of next.new)) }
    ensures ready { IfOk result (λ found. IsRecordReader reader.new) }
    ensures fault { IfErr result (IsReadFault table) }
{
    match next_record(reader, next) {
        Ok(found) => Ok(found),
        Err(why) => Err(LoadError::in_table(table, why)),
    }
}

/// The rows of a table, in the order of its records. It reads one record past the limit at most, into
/// one buffer, and reserves room only for rows that it has.
pub(crate) fn read_table<T: TableRow, R: Read + Drop>(
    alloc: Global,
    limit: usize,
    source: R,
) -> Result<Vec<T>, LoadError>
    requires { limit < 2 ^ 32 }
    ensures rows { IfOk result (λ rows. IfSome (R.remaining source)
        (λ text. SpellsRows T.of_table limit text (map T.values rows.items))) }
    ensures fault { IfErr result (λ e. IsReadFault T.of_table e
        ⊎ IfSome (R.remaining source) (λ text. IsFirstFault T.of_table limit text e)) }
{
    let mut reader = record_reader(alloc, source);
    let mut fields = ByteRecord::new(alloc);
    let mut rows = Vec::new(alloc);
    for number in 0..limit {
        if !next_row(T::table(), &mut reader, &mut fields)? {
            return Ok(rows);
        }
        match T::read(alloc, &fields) {
            Ok(row) => {
                if rows.push(row).is_err() {
                    return Err(LoadError::OutOfMemory);
                }
            }
            Err(fault) => return Err(LoadError::in_row(T::table(), number + 1, fault)),
        }
    }
    if next_row(T::table(), &mut reader, &mut fields)? {
        return Err(LoadError::Row(T::table(), limit + 1, SchemaFault::TooManyRows(T::table())));
    }
    Ok(rows)
}
