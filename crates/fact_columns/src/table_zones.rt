//! The zones of a table: which rows of each dimension the lines of each chunk of places name.
ghost use Rattle.std.specs.Prelude.{◌≡◌, ◌+◌, OnOk, IfOk};
ghost use Rattle.fact_columns.specs.Zoned.{AreEmpty, CoverAll, HasLine, KeepAll};

use crate::scanned_line::ScannedLine;
use crate::zone_sets::ZoneSets;
use dimension_index::{DimIndex, FirstRows};
use ssb_schema::{C_NATION, Column, D_YEARMONTHNUM, P_CATEGORY, S_NATION};
use std::alloc::{AllocError, Global};

/// The zones of the four dimensions.
#[derive(Drop)]
pub struct TableZones {
    pub customers: ZoneSets,
    pub suppliers: ZoneSets,
    pub parts: ZoneSets,
    pub dates: ZoneSets,
}

// The coarse codes of the rows that begin a class, by their values in a column: rows of 64 values have a code each.
fn coarse_codes(alloc: Global, rows: &FirstRows, column: Column) -> Result<Vec<u8>, AllocError> {
    let codes = rows.codes_of(column);
    let mut coarse = Vec::with_capacity(alloc, codes.len())?;
    for code in codes {
        coarse.push((*code % 64) as u8)?;
    }
    Ok(coarse)
}

impl TableZones {
    /// No chunks, of rows that are told apart by their nations, categories and months. No clause says by what: it may be
    /// changed by whoever measures.
    pub fn new(alloc: Global, index: &DimIndex) -> Result<TableZones, AllocError>
        ensures { IfOk result AreEmpty }
    {
        let rows = index.first_rows();
        Ok(TableZones {
            customers: ZoneSets::new(alloc, coarse_codes(alloc, rows, C_NATION)?),
            suppliers: ZoneSets::new(alloc, coarse_codes(alloc, rows, S_NATION)?),
            parts: ZoneSets::new(alloc, coarse_codes(alloc, rows, P_CATEGORY)?),
            dates: ZoneSets::new(alloc, coarse_codes(alloc, rows, D_YEARMONTHNUM)?),
        })
    }

    /// Has sets for each chunk of so many places.
    pub fn cover(&mut self, places: usize) -> Result<(), AllocError>
        ensures covered { OnOk result (CoverAll places self.new) }
        ensures kept { KeepAll self.old self.new }
    {
        self.customers.cover(places)?;
        self.suppliers.cover(places)?;
        self.parts.cover(places)?;
        self.dates.cover(places)
    }

    /// Puts the rows of a line into the sets of its place's chunk.
    #[inline(always)]
    pub fn mark(&mut self, at: usize, line: &ScannedLine)
        requires { CoverAll (at + 1) self.old }
        ensures here { HasLine self.new at line.now }
        ensures kept { KeepAll self.old self.new }
    {
        self.customers.mark(at, line.customer);
        self.suppliers.mark(at, line.supplier);
        self.parts.mark(at, line.part);
        self.dates.mark(at, line.date);
    }

    /// The same zones.
    pub fn copy(&self, alloc: Global) -> Result<TableZones, AllocError>
        ensures { IfOk result (λ copy. copy ≡ self.now) }
    {
        Ok(TableZones {
            customers: self.customers.copy(alloc)?,
            suppliers: self.suppliers.copy(alloc)?,
            parts: self.parts.copy(alloc)?,
            dates: self.dates.copy(alloc)?,
        })
    }
}
