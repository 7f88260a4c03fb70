//! The values that the columns of dimensions have.

use crate::named::NamedTables;
use csv::ByteRecord;
use ssb_schema::Column;
use ssb_text::{Barred, next_record, record_reader, text, trimmed_at};
use std::collections::BTreeSet;
use std::rt::Files;
use std::{fs, io};

#[derive(Drop)]
struct KeptValues {
    column: Column,
    values: BTreeSet<String>,
}

/// The values that columns of dimensions have. A table's file is read where a column of it is asked for the first time.
#[derive(Drop)]
pub(crate) struct ColumnValues<'a, F: Files + AllocGlobal> {
    pub(crate) files: &'a F,
    tables: NamedTables<'a>,
    kept: Vec<KeptValues>,
}

// The values that the rows of a dimension's table have in a column.
fn values_in<F: Files + AllocGlobal>(
    files: &F,
    tables: NamedTables<'_>,
    column: Column,
) -> io::Result<BTreeSet<String>> {
    let path = format!(in files.alloc(); "{}/{}.tbl", tables.folder, column.table)?;
    let file = Barred::new(fs::open(files, path.as_str())?, tables.layout.delimiter);
    let mut reader = record_reader(files.alloc(), file);
    let mut record = ByteRecord::new(files.alloc());
    let mut values = BTreeSet::new(files.alloc());
    for number in 0..u64::MAX {
        match next_record(&mut reader, &mut record) {
            Ok(true) => {}
            _ => break,
        }
        if number == 0 && tables.layout.has_heads {
            continue;
        }
        let value = text(trimmed_at(&record, column.place.saturating_sub(1))).unwrap_or("");
        if !values.contains(value) {
            values.insert(String::from_str(files.alloc(), value)?)?;
        }
    }
    Ok(values)
}

impl<'a, F: Files + AllocGlobal> ColumnValues<'a, F> {
    /// Those of these tables.
    pub(crate) fn new(files: &'a F, tables: NamedTables<'a>) -> ColumnValues<'a, F> {
        ColumnValues {
            files,
            tables,
            kept: Vec::new(files.alloc()),
        }
    }

    /// Reads those of a column, if that has not been done.
    pub(crate) fn load(&mut self, column: Column) -> io::Result<()> {
        if self.of(column).is_some() {
            return Ok(());
        }
        let values = values_in(self.files, self.tables, column)?;
        self.kept.push(KeptValues { column, values })?;
        Ok(())
    }

    /// How many a column has.
    pub(crate) fn count(&mut self, column: Column) -> io::Result<usize> {
        self.load(column)?;
        match self.of(column) {
            Some(values) => Ok(values.len()),
            None => Ok(0),
        }
    }

    /// Those of a column that was read.
    pub(crate) fn of(&self, column: Column) -> Option<&BTreeSet<String>> {
        let kept = self.kept.iter().find(|kept| kept.column == column)?;
        Some(&kept.values)
    }
}
