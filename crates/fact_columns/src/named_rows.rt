//! Which rows the lines name.
ghost use Rattle.std.specs.Prelude.{◌≡◌};
ghost use Rattle.std.specs.Borrow.{ftrue};
ghost use Rattle.fact_columns.specs.RowColumns.{RowColumns, appended, laid, no_rows, rows_of, written};

use crate::place::Place;
use std::marker::{Model, PhantomData};

/// The rows that the lines of places name, by position. A scan reads the rows' classes, so no memory holds these: they
/// stand in clauses alone. Each method does nothing.
#[derive(Drop)]
pub struct NamedRows {
    marker: PhantomData<u8>,
    pub ghost columns: { RowColumns },
}

impl Model for NamedRows {
    ghost also_owns = { λ _. ftrue };
}

impl NamedRows {
    /// Of no place.
    pub fn new() -> NamedRows
        ensures { result.columns ≡ no_rows }
    {
        NamedRows {
            marker: PhantomData,
        }
    }

    /// A place more.
    pub fn push(&mut self, _place: &Place)
        ensures { self.new.columns ≡ appended self.old.columns (rows_of _place.now) }
    {}

    /// Places more.
    pub fn append(&mut self, _others: &NamedRows)
        ensures { self.new.columns ≡ appended self.old.columns _others.now.columns }
    {}

    /// A place is written over.
    pub fn write(&mut self, _at: usize, _place: &Place)
        ensures { self.new.columns ≡ written self.old.columns _at _place.now }
    {}

    /// Each line is laid at its own place.
    pub fn lay(&mut self, _places: &[u32])
        ensures { self.new.columns ≡ laid _places.now self.old.columns }
    {}
}

unsafe impl Send for NamedRows {}

unsafe impl Sync for NamedRows {}
