//! Suppliers from records.

use crate::error::LineFault;
use crate::row::{RecordFields, read_number, read_text};
use csv::ByteRecord;
use ssb_schema::{Column, SupplierFields, Table};
use std::alloc::Global;

impl RecordFields for SupplierFields {
    #[tactic(auto, unfolding(crate::specs::Row::values_from))]
    fn of_record(alloc: Global, record: &ByteRecord) -> Result<SupplierFields, LineFault> {
        let table = Table::Supplier;
        Ok(SupplierFields {
            key: read_number(record, Column { table, place: 1 })?,
            name: read_text(alloc, record, Column { table, place: 2 })?,
            address: read_text(alloc, record, Column { table, place: 3 })?,
            city: read_text(alloc, record, Column { table, place: 4 })?,
            nation: read_text(alloc, record, Column { table, place: 5 })?,
            region: read_text(alloc, record, Column { table, place: 6 })?,
            phone: read_text(alloc, record, Column { table, place: 7 })?,
        })
    }
}
