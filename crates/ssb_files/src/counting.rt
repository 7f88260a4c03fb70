//! How many bytes each table file has: counted while it is read.

use ssb_schema::Table;
use ssb_text::Tables;
use std::io;
use std::io::Read;
use std::sync::atomic::{AtomicU64, Ordering};

/// How many bytes were read of each table.
#[derive(Drop)]
pub struct TableBytes {
    customer: AtomicU64,
    supplier: AtomicU64,
    part: AtomicU64,
    date: AtomicU64,
    lineorder: AtomicU64,
}

impl TableBytes {
    /// None yet.
    pub fn new() -> TableBytes {
        TableBytes {
            customer: AtomicU64::new(0),
            supplier: AtomicU64::new(0),
            part: AtomicU64::new(0),
            date: AtomicU64::new(0),
            lineorder: AtomicU64::new(0),
        }
    }

    fn counter(&self, table: Table) -> &AtomicU64 {
        match table {
            Table::Customer => &self.customer,
            Table::Supplier => &self.supplier,
            Table::Part => &self.part,
            Table::Date => &self.date,
            Table::Lineorder => &self.lineorder,
        }
    }

    /// How many bytes were read of a table: all, once it is loaded.
    pub fn of(&self, table: Table) -> u64 {
        self.counter(table).load(Ordering::SeqCst)
    }
}

/// A reader whose bytes are counted. It gives the bytes of the reader in it.
#[derive(Drop)]
pub struct Counted<'a, I: Drop> {
    reader: I,
    bytes: &'a AtomicU64,
}

impl<'a, I: Read + Drop> Read for Counted<'a, I> {
    ghost remaining = { λ counted. I.remaining counted.reader };

    fn read(&mut self, buf: &mut [u8]) -> io::Result<usize> {
        let count = self.reader.read(buf)?;
        self.bytes.fetch_add(count as u64, Ordering::SeqCst);
        Ok(count)
    }
}

fn count_table<'a, I: Drop>(bytes: &'a TableBytes, table: Table, reader: I) -> Counted<'a, I> {
    Counted {
        reader,
        bytes: bytes.counter(table),
    }
}

/// The files of the five tables, whose bytes are counted while they are read.
pub fn count_tables<'a, I: Drop>(
    bytes: &'a TableBytes,
    tables: Tables<I>,
) -> Tables<Counted<'a, I>> {
    Tables {
        customer: count_table(bytes, Table::Customer, tables.customer),
        supplier: count_table(bytes, Table::Supplier, tables.supplier),
        part: count_table(bytes, Table::Part, tables.part),
        date: count_table(bytes, Table::Date, tables.date),
        lineorder: count_table(bytes, Table::Lineorder, tables.lineorder),
    }
}
