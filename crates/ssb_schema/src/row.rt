//! A row of a table: values that the schema takes.

ghost use Rattle.std.specs.Prelude.{◌≡◌, ℕ, IfOk, IfErr, List, None, length, map};
ghost use Rattle.ssb_schema.specs.declared.table.Table.{Table};
ghost use Rattle.ssb_schema.specs.Columns.{Value, kinds_of, row_fault, value_of};

use crate::cells::Cells;
use crate::fault::{Refused, SchemaFault};
use crate::kind::check;
use crate::table::Table;
use std::marker::Model;

/// The values of a row, column by column in the order of the benchmark's table.
pub trait Fields: Drop {
    // Of which table.
    ghost of_table: { Table };

    // The values of its columns, in order.
    ghost values: { Self → List Value };

    /// The table of such rows.
    fn table() -> Table
        ensures { result ≡ of_table };

    /// The values of its columns, as cells: one for each column of the table.
    fn cells(&self) -> Cells<'_>
        ensures values { map value_of result ≡ values self.now }
        ensures columns { length result ≡ length (kinds_of of_table) };

    /// The first fault of the columns.
    fn fault(&self) -> Option<SchemaFault>
        ensures { result ≡ row_fault of_table (values self.now) }
    {
        check(Self::table(), self.cells().as_slice())
    }
}

/// The values of a row of a dimension, which has a primary key.
pub trait Keyed: Fields {
    ghost key_of: { Self → ℕ };

    /// The primary key.
    fn key(&self) -> u64
        ensures { result ≡ key_of self.now };
}

/// A row whose values are within their columns' limits. Contracts see its values.
#[derive(Drop)]
pub struct Row<F: Fields> {
    fields: F,
}

impl<F: Fields> Model for Row<F> {
    ghost use Rattle.std.specs.Prelude.{◌≡◌, None};
    ghost use Rattle.ssb_schema.specs.Columns.{row_fault};

    ghost Value = { F };

    ghost view = { λ row. row.fields };

    ghost invariant = { λ row. row_fault F.of_table (F.values row.fields) ≡ None };
}

impl<F: Fields> Row<F> {
    ghost use Rattle.ssb_schema.specs.Refusals.{fault_of};

    /// A row of these values, or the first fault in the order of its columns, with the values.
    pub fn new(fields: F) -> Result<Row<F>, Refused<F>>
        ensures fault { fault_of result ≡ row_fault F.of_table (F.values fields) }
        ensures row { IfOk result (λ row. row ≡ fields) }
        ensures back { IfErr result (λ refused. refused.back ≡ fields) }
    {
        if let Some(fault) = fields.fault() {
            return Err(Refused {
                fault,
                back: fields,
            });
        }
        Ok(Row { fields })
    }

    /// The values, which are within their columns' limits.
    pub fn fields(&self) -> &F
        ensures fields { result.now ≡ self.now }
        ensures sound { row_fault F.of_table (F.values result.now) ≡ None }
    {
        &self.fields
    }

    /// The values, likewise.
    pub fn into_fields(self) -> F
        ensures fields { result ≡ self }
        ensures sound { row_fault F.of_table (F.values result) ≡ None }
    {
        self.fields
    }
}

impl<F: Keyed> Row<F> {
    /// The primary key.
    pub fn key(&self) -> u64
        ensures { result ≡ F.key_of self.now }
    {
        self.fields.key()
    }
}
