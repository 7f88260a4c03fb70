//! The five tables of the benchmark.

ghost use Rattle.std.specs.Prelude.{◌≡◌, Some};
ghost use Rattle.ssb_schema.specs.Columns.{table_name};

use std::fmt;

/// A table of the Star Schema Benchmark: four dimensions and the fact table, in the order in which they are loaded.
#[derive(Clone, Copy, Debug, PartialEq, Eq)]
pub enum Table {
    /// Whom orders are of: a dimension.
    Customer,
    /// Whom goods come from: a dimension.
    Supplier,
    /// What is ordered: a dimension.
    Part,
    /// When it is ordered: a dimension.
    Date,
    /// The lines of the orders: the fact table.
    Lineorder,
}

impl Table {
    /// The name of the table, as its file and the faults have it.
    pub fn name(self) -> &'static str
        ensures { result.now ≡ table_name self }
    {
        match self {
            Table::Customer => "customer",
            Table::Supplier => "supplier",
            Table::Part => "part",
            Table::Date => "date",
            Table::Lineorder => "lineorder",
        }
    }
}

impl fmt::Display for Table {
    ghost output = { λ table. Some (table_name table) };

    fn fmt<W: fmt::Write>(&self, f: &mut fmt::Formatter<W>) -> fmt::Result {
        f.write_str(self.name())
    }
}
