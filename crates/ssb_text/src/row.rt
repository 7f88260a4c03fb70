//! A row of any of the five tables, read from a record, and its cells.

ghost use Rattle.std.specs.Prelude.{◌≡◌, ◌≤◌, ◌-◌, List, [], None, get_or, map};
ghost use Rattle.csv.specs.Records.{fields_of};
ghost use Rattle.ssb_schema.specs.declared.table.Table.{Table};
ghost use Rattle.ssb_schema.specs.Columns.{Value, kinds_of, row_fault, value_of};
ghost use Rattle.ssb_text.specs.Row.{Gives, number_at, row_of, text_at, values_from};

use crate::error::LineFault;
use crate::fields::{has_columns, trimmed_at};
use crate::spelling::text;
use csv::ByteRecord;
use ssb_schema::{Cells, Column, Fields, Row, Table, Text, number};
use std::alloc::Global;

/// The values of a row, which a record spells.
pub trait RecordFields: Fields {
    /// The values that a record spells, column by column, or its first fault.
    fn of_record(alloc: Global, record: &ByteRecord) -> Result<Self, LineFault>
        ensures { Gives Self.values result (values_from Self.of_table 0 (kinds_of Self.of_table)
            (fields_of record.now)) };
}

/// A row of one of the five tables.
pub trait TableRow: Drop {
    // The values of its columns, in order.
    ghost values: { Self → List Value };

    ghost of_table: { Table };

    /// The table whose rows these are.
    fn table() -> Table
        ensures { result ≡ of_table };

    /// The row that a record spells, or the record's first fault.
    fn read(alloc: Global, record: &ByteRecord) -> Result<Self, LineFault>
        ensures { Gives values result (row_of of_table (fields_of record.now)) };

    /// The values of its columns, in which the schema finds no fault.
    fn cells(&self) -> Cells<'_>
        ensures cells { map value_of result ≡ values self.now }
        ensures taken { row_fault of_table (values self.now) ≡ None };
}

/// The row that a record spells, or the record's first fault.
#[tactic(auto, unfolding(crate::specs::Row::row_of))]
pub(crate) fn row_from<F: RecordFields>(
    alloc: Global,
    record: &ByteRecord,
) -> Result<Row<F>, LineFault>
    ensures { Gives F.values result (row_of F.of_table (fields_of record.now)) }
{
    if !has_columns(record, F::table().kinds().len()) {
        return Err(LineFault::FieldCount);
    }
    match Row::new(F::of_record(alloc, record)?) {
        Ok(row) => Ok(row),
        Err(refused) => Err(LineFault::Refused(refused.fault)),
    }
}

impl<F: RecordFields> TableRow for Row<F> {
    ghost values = { F.values };

    ghost of_table = { F.of_table };

    fn table() -> Table {
        F::table()
    }

    fn read(alloc: Global, record: &ByteRecord) -> Result<Row<F>, LineFault> {
        row_from(alloc, record)
    }

    fn cells(&self) -> Cells<'_> {
        self.fields().cells()
    }
}

// The number that a record spells in a column. Inlined, since a row reads a dozen: each result would else
// go through memory, which is a tenth of a load's time.
#[inline(always)]
#[tactic(auto, unfolding(crate::specs::Row::number_at))]
pub(crate) fn read_number(fields: &ByteRecord, column: Column) -> Result<u64, LineFault>
    requires { 1 ≤ column.place }
    ensures { Gives (λ n. n) result (number_at column (get_or (fields_of fields.now) (column.place - 1) [])) }
{
    number(trimmed_at(fields, column.place - 1)).ok_or(LineFault::NotANumber(column))
}

// The text that a record spells in a column.
#[tactic(auto, unfolding(crate::specs::Row::text_at))]
pub(crate) fn read_text(
    alloc: Global,
    fields: &ByteRecord,
    column: Column,
) -> Result<Text, LineFault>
    requires { 1 ≤ column.place }
    ensures { Gives (λ t. t) result (text_at column (get_or (fields_of fields.now) (column.place - 1) [])) }
{
    match text(trimmed_at(fields, column.place - 1)) {
        Some(text) => Ok(Text::from_str(alloc, text)?),
        None => Err(LineFault::NotUtf8(column)),
    }
}

// The text that a record spells in a column, where it lies.
#[tactic(auto, unfolding(crate::specs::Row::text_at))]
pub(crate) fn read_str(fields: &ByteRecord, column: Column) -> Result<&str, LineFault>
    requires { 1 ≤ column.place }
    ensures { Gives (λ t. t.now) result (text_at column (get_or (fields_of fields.now) (column.place - 1) [])) }
{
    text(trimmed_at(fields, column.place - 1)).ok_or(LineFault::NotUtf8(column))
}
