//! Part rows.

ghost use Rattle.ssb_schema.specs.declared.table.Table.TheVariants as table;
ghost use Rattle.ssb_schema.specs.Keys.{part_key};
ghost use Rattle.ssb_schema.specs.Rows.{part_values};

use crate::cells::Cells;
use crate::kind::Cell;
use crate::row::{Fields, Keyed, Row};
use crate::table::Table;
use crate::text::Text;

/// The values of a part, column by column in the order of the benchmark's table.
#[derive(Drop)]
pub struct PartFields {
    /// P_PARTKEY.
    pub key: u64,
    /// P_NAME.
    pub name: Text,
    /// P_MFGR.
    pub manufacturer: Text,
    /// P_CATEGORY.
    pub category: Text,
    /// P_BRAND1.
    pub brand: Text,
    /// P_COLOR.
    pub color: Text,
    /// P_TYPE.
    pub part_type: Text,
    /// P_SIZE.
    pub size: Text,
    /// P_CONTAINER.
    pub container: Text,
}

/// A part whose values are within their columns' limits. Contracts see its values.
pub type Part = Row<PartFields>;

impl Fields for PartFields {
    ghost of_table = { table.Part };

    ghost values = { part_values };

    fn table() -> Table {
        Table::Part
    }

    fn cells(&self) -> Cells<'_> {
        Cells::of(&[
            Cell::Number(self.key),
            Cell::Text(self.name.as_str()),
            Cell::Text(self.manufacturer.as_str()),
            Cell::Text(self.category.as_str()),
            Cell::Text(self.brand.as_str()),
            Cell::Text(self.color.as_str()),
            Cell::Text(self.part_type.as_str()),
            Cell::Text(self.size.as_str()),
            Cell::Text(self.container.as_str()),
        ])
    }
}

impl Keyed for PartFields {
    ghost key_of = { part_key };

    fn key(&self) -> u64 {
        self.key
    }
}
