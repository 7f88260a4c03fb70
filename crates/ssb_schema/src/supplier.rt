//! Supplier rows.

ghost use Rattle.ssb_schema.specs.declared.table.Table.TheVariants as table;
ghost use Rattle.ssb_schema.specs.Keys.{supplier_key};
ghost use Rattle.ssb_schema.specs.Rows.{supplier_values};

use crate::cells::Cells;
use crate::kind::Cell;
use crate::row::{Fields, Keyed, Row};
use crate::table::Table;
use crate::text::Text;

/// The values of a supplier, column by column in the order of the benchmark's table.
#[derive(Drop)]
pub struct SupplierFields {
    /// S_SUPPKEY.
    pub key: u64,
    /// S_NAME.
    pub name: Text,
    /// S_ADDRESS.
    pub address: Text,
    /// S_CITY.
    pub city: Text,
    /// S_NATION.
    pub nation: Text,
    /// S_REGION.
    pub region: Text,
    /// S_PHONE.
    pub phone: Text,
}

/// A supplier whose values are within their columns' limits. Contracts see its values.
pub type Supplier = Row<SupplierFields>;

impl Fields for SupplierFields {
    ghost of_table = { table.Supplier };

    ghost values = { supplier_values };

    fn table() -> Table {
        Table::Supplier
    }

    fn cells(&self) -> Cells<'_> {
        Cells::of(&[
            Cell::Number(self.key),
            Cell::Text(self.name.as_str()),
            Cell::Text(self.address.as_str()),
            Cell::Text(self.city.as_str()),
            Cell::Text(self.nation.as_str()),
            Cell::Text(self.region.as_str()),
            Cell::Text(self.phone.as_str()),
        ])
    }
}

impl Keyed for SupplierFields {
    ghost key_of = { supplier_key };

    fn key(&self) -> u64 {
        self.key
    }
}
