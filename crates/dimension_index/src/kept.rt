//! The columns that the index keeps in codes, and where each stands.
ghost use Rattle.std.specs.Prelude.{◌≡◌, All, IfSome, IfNone, Some, map, slice_get};
ghost use Rattle.ssb_base.specs.Base.{Tables};
ghost use Rattle.dimension_index.specs.Kept.{unread, unread_columns, kept_columns};
ghost use Rattle.dimension_index.specs.Values.{values_of};

use ssb_schema::{Column, Table, query_columns};

static UNREAD: [Column; 5] = [
    Column {
        table: Table::Customer,
        place: 0,
    },
    Column {
        table: Table::Supplier,
        place: 0,
    },
    Column {
        table: Table::Part,
        place: 0,
    },
    Column {
        table: Table::Date,
        place: 0,
    },
    Column {
        table: Table::Lineorder,
        place: 0,
    },
];

/// Of each table the column at place 0, where none stands: it stands for all columns that no query reads.
pub fn unread_columns() -> &'static [Column]
    ensures { result.now ≡ unread_columns }
{
    &UNREAD
}

// Where a column stands first in a list.
fn place_in(columns: &[Column], column: Column) -> Option<usize>
    ensures found { IfSome result (λ place. slice_get columns.now place ≡ Some column) }
    ensures absent { IfNone result (All (λ own. own ≡ column → ⊥) columns.now) }
{
    columns.iter().position(|own| *own == column)
}

// Where the column for a table's others stands among those.
fn unread_at(table: Table) -> usize
    ensures { slice_get unread_columns result ≡ Some (unread table) }
{
    table as usize
}

/// Where a column, or the one that stands for it, is among the kept ones: there every base has the column's values.
pub fn kept_at(column: Column) -> usize
    ensures { (base : Tables) → slice_get (map (values_of base) kept_columns) result ≡ Some (values_of base column) }
{
    match place_in(query_columns(), column) {
        Some(place) => place,
        None => query_columns().len() + unread_at(column.table),
    }
}
