//! Lines from records.

ghost use Rattle.std.specs.Prelude.{◌≡◌, IfOk, drop};
ghost use Rattle.csv.specs.Records.{fields_of};
ghost use Rattle.ssb_schema.specs.declared.table.Table.TheVariants as table;
ghost use Rattle.ssb_schema.specs.Rows.{line_values};
ghost use Rattle.ssb_text.specs.Row.{Gives, row_of};

use crate::error::LineFault;
use crate::fields::field_at;
use crate::row::{RecordFields, TableRow, read_number, read_str, row_from};
use csv::ByteRecord;
use ssb_schema::{Cells, Column, Fields, Line, LineFields, LineTexts, Table};
use std::alloc::{AllocError, Global};

impl RecordFields for LineFields {
    #[tactic(auto, unfolding(crate::specs::Row::values_from))]
    fn of_record(alloc: Global, record: &ByteRecord) -> Result<LineFields, LineFault> {
        let table = Table::Lineorder;
        let order_key = read_number(record, Column { table, place: 1 })?;
        let line_number = read_number(record, Column { table, place: 2 })?;
        let customer_key = read_number(record, Column { table, place: 3 })?;
        let part_key = read_number(record, Column { table, place: 4 })?;
        let supplier_key = read_number(record, Column { table, place: 5 })?;
        let order_date = read_number(record, Column { table, place: 6 })?;
        let order_priority = read_str(record, Column { table, place: 7 })?;
        let ship_priority = read_str(record, Column { table, place: 8 })?;
        let quantity = read_number(record, Column { table, place: 9 })?;
        let extended_price = read_number(record, Column { table, place: 10 })?;
        let order_total_price = read_number(record, Column { table, place: 11 })?;
        let discount = read_number(record, Column { table, place: 12 })?;
        let revenue = read_number(record, Column { table, place: 13 })?;
        let supply_cost = read_number(record, Column { table, place: 14 })?;
        let tax = read_number(record, Column { table, place: 15 })?;
        let commit_date = read_number(record, Column { table, place: 16 })?;
        let ship_mode = read_str(record, Column { table, place: 17 })?;
        Ok(LineFields {
            order_key,
            line_number,
            customer_key,
            part_key,
            supplier_key,
            order_date,
            quantity,
            extended_price,
            order_total_price,
            discount,
            revenue,
            supply_cost,
            tax,
            commit_date,
            texts: LineTexts::new(alloc, order_priority, ship_priority, ship_mode)?,
        })
    }
}

impl TableRow for Line {
    ghost values = { line_values };

    ghost of_table = { table.Lineorder };

    fn table() -> Table {
        LineFields::table()
    }

    fn read(alloc: Global, record: &ByteRecord) -> Result<Line, LineFault> {
        Ok(Line::packed(row_from(alloc, record)?))
    }

    fn cells(&self) -> Cells<'_> {
        self.cells()
    }
}

// The fields of a record from a place on, as a record of their own.
fn fields_from(alloc: Global, record: &ByteRecord, first: usize) -> Result<ByteRecord, AllocError>
    ensures { IfOk result (λ rest. fields_of rest ≡ drop first (fields_of record.now)) }
{
    let mut rest = ByteRecord::with_capacity(alloc, record.as_slice().len(), record.len())?;
    for place in first..record.len() {
        rest.push_field(field_at(record, place))?;
    }
    Ok(rest)
}

/// The line that the fields of a record spell from a place on, counted from 0 (Star Schema Benchmark, section 2): its 17
/// columns in order, with or without the empty field that the closing `|` makes. The error is their first fault.
pub fn line_from(alloc: Global, record: &ByteRecord, first: usize) -> Result<Line, LineFault>
    ensures { Gives line_values result (row_of table.Lineorder (drop first (fields_of record.now))) }
{
    Line::read(alloc, &fields_from(alloc, record, first)?)
}
