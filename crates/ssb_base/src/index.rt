//! How the rows of a dimension are found by key.

ghost use Rattle.std.specs.Prelude.{◌≡◌, [], IfOk, is_some};
ghost use Rattle.ssb_base.specs.Base.{dimension_fault};
ghost use Rattle.ssb_base.specs.Checked.{Finds};
ghost use Rattle.ssb_base.specs.declared.index.Stop.TheVariants.{OutOfMemory};

use crate::limits::Limits;
use crate::places::Places;
use ssb_schema::{Keyed, Row, SchemaFault};
use std::alloc::{AllocError, Global};

/// Why a check of rows stopped.
#[derive(Debug, Drop)]
pub enum Stop {
    /// At the first fault of the rows.
    Fault(SchemaFault),
    /// Memory ran out.
    OutOfMemory,
}

impl From<AllocError> for Stop {
    ghost from_gives = { λ _ e. e ≡ OutOfMemory };

    fn from(_error: AllocError) -> Stop {
        Stop::OutOfMemory
    }
}

/// The place of each key of a dimension among its rows.
#[derive(Drop)]
pub struct Index {
    places: Places,
}

/// The indexes of the four dimensions.
#[derive(Drop)]
pub struct Indexes {
    /// Of customer.
    pub customers: Index,
    /// Of supplier.
    pub suppliers: Index,
    /// Of part.
    pub parts: Index,
    /// Of date.
    pub dates: Index,
}

// The first of the keys, and how many an array takes from there on: as many as there are up to the last one, or none
// where that is many times the number of rows.
fn window<F: Keyed>(rows: &[Row<F>]) -> (u64, usize) {
    let mut first = u64::MAX;
    let mut last = 0;
    for row in rows {
        let key = row.key();
        first = first.min(key);
        last = last.max(key);
    }
    let most = (rows.len() as u64).saturating_mul(32);
    match last.checked_sub(first) {
        Some(behind) if behind < most => (first, behind as usize + 1),
        _ => (0, 0),
    }
}

impl Index {
    ghost use Rattle.ssb_base.specs.Indexed.{place_of, IsIndexOf};

    /// The index of these rows, or the dimension's first fault.
    pub fn of<F: Keyed>(alloc: Global, limits: Limits, rows: &[Row<F>]) -> Result<Index, Stop>
        ensures fault { Finds result (dimension_fault limits F.of_table F.key_of rows.now) }
        ensures index { IfOk result (λ index. IsIndexOf F.key_of rows.now rows.now (place_of index)) }
    {
        if rows.len() > limits.dimension_rows {
            return Err(Stop::Fault(SchemaFault::TooManyRows(F::table())));
        }
        let (first, count) = window(rows);
        let mut places = Places::new(alloc, first, count)?;
        for (i, row) in rows.iter().enumerate() {
            match places.insert(row.key(), i) {
                Ok(true) => {}
                Ok(false) => return Err(Stop::Fault(SchemaFault::KeyRepeated(F::table(), i + 1))),
                Err(_) => return Err(Stop::OutOfMemory),
            }
        }
        Ok(Index { places })
    }

    /// Whether some row has the key.
    pub fn contains(&self, key: u64) -> bool
        ensures { result ≡ is_some (place_of self.now key) }
    {
        self.places.contains(key)
    }

    /// The place of the row that has the key, if there is one.
    pub fn position(&self, key: u64) -> Option<usize>
        ensures { result ≡ place_of self.now key }
    {
        self.places.get(key)
    }
}
