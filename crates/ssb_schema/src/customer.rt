//! Customer rows.

ghost use Rattle.ssb_schema.specs.declared.table.Table.TheVariants as table;
ghost use Rattle.ssb_schema.specs.Keys.{customer_key};
ghost use Rattle.ssb_schema.specs.Rows.{customer_values};

use crate::cells::Cells;
use crate::kind::Cell;
use crate::row::{Fields, Keyed, Row};
use crate::table::Table;
use crate::text::Text;

/// The values of a customer, column by column in the order of the benchmark's table.
#[derive(Drop)]
pub struct CustomerFields {
    /// C_CUSTKEY.
    pub key: u64,
    /// C_NAME.
    pub name: Text,
    /// C_ADDRESS.
    pub address: Text,
    /// C_CITY.
    pub city: Text,
    /// C_NATION.
    pub nation: Text,
    /// C_REGION.
    pub region: Text,
    /// C_PHONE.
    pub phone: Text,
    /// C_MKTSEGMENT.
    pub market_segment: Text,
}

/// A customer whose values are within their columns' limits. Contracts see its values.
pub type Customer = Row<CustomerFields>;

impl Fields for CustomerFields {
    ghost of_table = { table.Customer };

    ghost values = { customer_values };

    fn table() -> Table {
        Table::Customer
    }

    fn cells(&self) -> Cells<'_> {
        Cells::of(&[
            Cell::Number(self.key),
            Cell::Text(self.name.as_str()),
            Cell::Text(self.address.as_str()),
            Cell::Text(self.city.as_str()),
            Cell::Text(self.nation.as_str()),
            Cell::Text(self.region.as_str()),
            Cell::Text(self.phone.as_str()),
            Cell::Text(self.market_segment.as_str()),
        ])
    }
}

impl Keyed for CustomerFields {
    ghost key_of = { customer_key };

    fn key(&self) -> u64 {
        self.key
    }
}
