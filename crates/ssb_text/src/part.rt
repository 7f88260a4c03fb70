//! Parts from records.

use crate::error::LineFault;
use crate::row::{RecordFields, read_number, read_text};
use csv::ByteRecord;
use ssb_schema::{Column, PartFields, Table};
use std::alloc::Global;

impl RecordFields for PartFields {
    #[tactic(auto, unfolding(crate::specs::Row::values_from))]
    fn of_record(alloc: Global, record: &ByteRecord) -> Result<PartFields, LineFault> {
        let table = Table::Part;
        Ok(PartFields {
            key: read_number(record, Column { table, place: 1 })?,
            name: read_text(alloc, record, Column { table, place: 2 })?,
            manufacturer: read_text(alloc, record, Column { table, place: 3 })?,
            category: read_text(alloc, record, Column { table, place: 4 })?,
            brand: read_text(alloc, record, Column { table, place: 5 })?,
            color: read_text(alloc, record, Column { table, place: 6 })?,
            part_type: read_text(alloc, record, Column { table, place: 7 })?,
            size: read_text(alloc, record, Column { table, place: 8 })?,
            container: read_text(alloc, record, Column { table, place: 9 })?,
        })
    }
}
