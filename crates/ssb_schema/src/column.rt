//! The columns of the tables, with their names.

ghost use Rattle.std.specs.Prelude.{◌≡◌, [], map, slice_get, unwrap_or, Some};
ghost use Rattle.ssb_schema.specs.Columns.{columns_of, column_name, query_columns, query_names};

use crate::table::Table;
use std::fmt;

/// A column of a table, by its place in the table's file, from 1.
#[derive(Clone, Copy, Debug, PartialEq, Eq)]
pub struct Column {
    /// The table.
    pub table: Table,
    /// The place among the table's columns, from 1.
    pub place: usize,
}

/// The city of a customer.
pub const C_CITY: Column = Column {
    table: Table::Customer,
    place: 4,
};

/// The nation of a customer.
pub const C_NATION: Column = Column {
    table: Table::Customer,
    place: 5,
};

/// The region of a customer.
pub const C_REGION: Column = Column {
    table: Table::Customer,
    place: 6,
};

/// The market segment of a customer.
pub const C_MKTSEGMENT: Column = Column {
    table: Table::Customer,
    place: 8,
};

/// The city of a supplier.
pub const S_CITY: Column = Column {
    table: Table::Supplier,
    place: 4,
};

/// The nation of a supplier.
pub const S_NATION: Column = Column {
    table: Table::Supplier,
    place: 5,
};

/// The region of a supplier.
pub const S_REGION: Column = Column {
    table: Table::Supplier,
    place: 6,
};

/// The manufacturer of a part.
pub const P_MFGR: Column = Column {
    table: Table::Part,
    place: 3,
};

/// The category of a part.
pub const P_CATEGORY: Column = Column {
    table: Table::Part,
    place: 4,
};

/// The brand of a part.
pub const P_BRAND1: Column = Column {
    table: Table::Part,
    place: 5,
};

/// The key of a date, as 19940115: the day.
pub const D_DATEKEY: Column = Column {
    table: Table::Date,
    place: 1,
};

/// The day of the week of a date, as `Sunday`.
pub const D_DAYOFWEEK: Column = Column {
    table: Table::Date,
    place: 3,
};

/// The month of a date, as `January`.
pub const D_MONTH: Column = Column {
    table: Table::Date,
    place: 4,
};

/// The year of a date.
pub const D_YEAR: Column = Column {
    table: Table::Date,
    place: 5,
};

/// The year and month of a date as a number, as 199401.
pub const D_YEARMONTHNUM: Column = Column {
    table: Table::Date,
    place: 6,
};

/// The year and month of a date as a text, as `Dec1997`.
pub const D_YEARMONTH: Column = Column {
    table: Table::Date,
    place: 7,
};

/// The week of a date in its year.
pub const D_WEEKNUMINYEAR: Column = Column {
    table: Table::Date,
    place: 12,
};

/// The selling season of a date, as `Christmas`.
pub const D_SELLINGSEASON: Column = Column {
    table: Table::Date,
    place: 13,
};

/// Whether a date is a holiday: `1` where it is, else `0`.
pub const D_HOLIDAYFL: Column = Column {
    table: Table::Date,
    place: 16,
};

static QUERY_COLUMNS: [Column; 19] = [
    C_CITY,
    C_NATION,
    C_REGION,
    C_MKTSEGMENT,
    S_CITY,
    S_NATION,
    S_REGION,
    P_MFGR,
    P_CATEGORY,
    P_BRAND1,
    D_DATEKEY,
    D_DAYOFWEEK,
    D_MONTH,
    D_YEAR,
    D_YEARMONTHNUM,
    D_YEARMONTH,
    D_WEEKNUMINYEAR,
    D_SELLINGSEASON,
    D_HOLIDAYFL,
];

static CUSTOMER: [&str; 8] = [
    "C_CUSTKEY",
    "C_NAME",
    "C_ADDRESS",
    "C_CITY",
    "C_NATION",
    "C_REGION",
    "C_PHONE",
    "C_MKTSEGMENT",
];

static SUPPLIER: [&str; 7] = [
    "S_SUPPKEY",
    "S_NAME",
    "S_ADDRESS",
    "S_CITY",
    "S_NATION",
    "S_REGION",
    "S_PHONE",
];

static PART: [&str; 9] = [
    "P_PARTKEY",
    "P_NAME",
    "P_MFGR",
    "P_CATEGORY",
    "P_BRAND1",
    "P_COLOR",
    "P_TYPE",
    "P_SIZE",
    "P_CONTAINER",
];

static DATE: [&str; 17] = [
    "D_DATEKEY",
    "D_DATE",
    "D_DAYOFWEEK",
    "D_MONTH",
    "D_YEAR",
    "D_YEARMONTHNUM",
    "D_YEARMONTH",
    "D_DAYNUMINWEEK",
    "D_DAYNUMINMONTH",
    "D_DAYNUMINYEAR",
    "D_MONTHNUMINYEAR",
    "D_WEEKNUMINYEAR",
    "D_SELLINGSEASON",
    "D_LASTDAYINWEEKFL",
    "D_LASTDAYINMONTHFL",
    "D_HOLIDAYFL",
    "D_WEEKDAYFL",
];

static LINEORDER: [&str; 17] = [
    "LO_ORDERKEY",
    "LO_LINENUMBER",
    "LO_CUSTKEY",
    "LO_PARTKEY",
    "LO_SUPPKEY",
    "LO_ORDERDATE",
    "LO_ORDERPRIORITY",
    "LO_SHIPPRIORITY",
    "LO_QUANTITY",
    "LO_EXTENDEDPRICE",
    "LO_ORDTOTALPRICE",
    "LO_DISCOUNT",
    "LO_REVENUE",
    "LO_SUPPLYCOST",
    "LO_TAX",
    "LO_COMMITDATE",
    "LO_SHIPMODE",
];

// The names of a table's columns, in the order of its file.
fn names(table: Table) -> &'static [&'static str]
    ensures { map (λ name. name.now) result.now ≡ map (λ described. described.name) (columns_of table) }
{
    match table {
        Table::Customer => &CUSTOMER,
        Table::Supplier => &SUPPLIER,
        Table::Part => &PART,
        Table::Date => &DATE,
        Table::Lineorder => &LINEORDER,
    }
}

/// The columns that queries test, group by, or take constants of, each by its name in the benchmark.
pub fn query_columns() -> &'static [Column]
    ensures columns { result.now ≡ query_columns }
    ensures names { map column_name query_columns ≡ query_names }
{
    &QUERY_COLUMNS
}

// The name at a place, counted from 0.
fn name_at(names: &[&'static str], at: usize) -> &'static str
    ensures { result.now ≡ unwrap_or (slice_get (map (λ name. name.now) names.now) at) [] }
{
    match names.get(at) {
        Some(name) => name,
        None => "",
    }
}

impl Column {
    /// The name of the column, as the benchmark and the faults have it; empty where the table has no such place.
    pub fn name(self) -> &'static str
        ensures { result.now ≡ column_name self }
    {
        if self.place == 0 {
            return "";
        }
        name_at(names(self.table), self.place - 1)
    }
}

impl fmt::Display for Column {
    ghost output = { λ column. Some (column_name column) };

    fn fmt<W: fmt::Write>(&self, f: &mut fmt::Formatter<W>) -> fmt::Result {
        f.write_str(self.name())
    }
}
