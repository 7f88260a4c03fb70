//! The names of tables and columns in the benchmark's tables.

ghost use Rattle.std.specs.Prelude.{◌≡◌, IfOk, map};
ghost use Rattle.std.specs.String.{string_bytes};
ghost use Rattle.ssb_explain.specs.Names as spec;

use ssb_schema::{Column, Table};
use std::alloc::{AllocError, Global};

/// The dimensions, in the order in which they are joined.
pub static DIMENSIONS: [Table; 4] = [Table::Customer, Table::Supplier, Table::Part, Table::Date];

/// Whether the two are one table.
pub fn same_table(a: Table, b: Table) -> bool
    ensures { result ≡ spec.same_table a b }
{
    match (a, b) {
        (Table::Customer, Table::Customer)
        | (Table::Supplier, Table::Supplier)
        | (Table::Part, Table::Part)
        | (Table::Date, Table::Date)
        | (Table::Lineorder, Table::Lineorder) => true,
        _ => false,
    }
}

/// The name of a column.
pub fn column_sql(alloc: Global, column: Column) -> Result<String, AllocError>
    ensures { IfOk result (λ name. string_bytes name ≡ spec.column_sql column) }
{
    let mut name = String::from_str(alloc, column.name())?;
    name.make_ascii_lowercase();
    Ok(name)
}

/// The names of columns.
pub fn column_names(alloc: Global, columns: &[Column]) -> Result<Vec<String>, AllocError>
    ensures { IfOk result (λ names. map string_bytes names.items ≡ map spec.column_sql columns.now) }
{
    let mut names = Vec::new(alloc);
    for column in columns {
        names.push(column_sql(alloc, *column)?)?;
    }
    Ok(names)
}

/// The name of a table; `date` is a word of SQL.
pub fn table_sql(table: Table) -> &'static str
    ensures { result.now ≡ spec.table_sql table }
{
    match table {
        Table::Customer => "customer",
        Table::Supplier => "supplier",
        Table::Part => "part",
        Table::Date => "dwdate",
        Table::Lineorder => "lineorder",
    }
}

/// The key of a table's rows.
pub fn key_sql(table: Table) -> &'static str
    ensures { result.now ≡ spec.key_sql table }
{
    match table {
        Table::Customer => "c_custkey",
        Table::Supplier => "s_suppkey",
        Table::Part => "p_partkey",
        Table::Date => "d_datekey",
        Table::Lineorder => "lo_orderkey",
    }
}

/// The key by which a line names its row of a table.
pub fn line_key_sql(table: Table) -> &'static str
    ensures { result.now ≡ spec.line_key_sql table }
{
    match table {
        Table::Customer => "lo_custkey",
        Table::Supplier => "lo_suppkey",
        Table::Part => "lo_partkey",
        Table::Date => "lo_orderdate",
        Table::Lineorder => "lo_orderkey",
    }
}
