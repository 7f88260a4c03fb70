//! The cells of a row.

ghost use Rattle.std.specs.Prelude.{◌≡◌, ◌≤◌, length};
ghost use Rattle.ssb_schema.specs.Columns.{most_columns};

use crate::kind::Cell;
use std::marker::Model;

// The most columns of a table.
const MOST_COLUMNS: usize = 17;

/// The cells of a row, column by column. Contracts see them as a list.
#[derive(Drop)]
pub struct Cells<'a> {
    // The cells, and then some in the place of which others could stand.
    all: [Cell<'a>; MOST_COLUMNS],
    count: usize,
}

impl<'a> Model for Cells<'a> {
    ghost use Rattle.std.specs.Prelude.{◌≤◌, List, take};
    ghost use Rattle.ssb_schema.specs.Columns.{most_columns};
    ghost use Rattle.ssb_schema.specs.declared.kind.Cell.{Cell};

    ghost Value = { List Cell };

    ghost view = { λ cells. take cells.count cells.all };

    ghost invariant = { λ cells. cells.count ≤ most_columns };
}

impl<'a> Cells<'a> {
    /// These cells. Inlined, since the check of each line that is read makes them: they would be written twice.
    #[inline(always)]
    pub(crate) fn of(cells: &[Cell<'a>]) -> Cells<'a>
        requires { length cells.now ≤ most_columns }
        ensures { result ≡ cells.now }
    {
        let mut all = [Cell::Number(0); MOST_COLUMNS];
        all[..cells.len()].copy_from_slice(cells);
        Cells {
            all,
            count: cells.len(),
        }
    }

    /// The cells.
    pub fn as_slice(&self) -> &[Cell<'a>]
        ensures { result.now ≡ self.now }
    {
        &self.all[..self.count]
    }
}
