//! The base: the loaded tables, which the whole warehouse shares.

ghost use Rattle.std.specs.Prelude.{◌≡◌, ◌<◌, ◌+◌, ◌*◌, true, [], IfOk, IfErr};
ghost use Rattle.ssb_base.specs.Base.{Dimensions, base_fault, line_fault, table_fault, unknown_of, is_same_line};
ghost use Rattle.ssb_base.specs.Base.{IsSound};
ghost use Rattle.ssb_base.specs.Checked.{Finds};
ghost use Rattle.ssb_schema.specs.FirstFault.{rows_fault};
ghost use Rattle.ssb_base.specs.Indexed.{AreIndexesOf};
ghost use Rattle.ssb_schema.specs.declared.table.Table.TheVariants as table;

use crate::dimension::Dimension;
use crate::index::{Index, Indexes, Stop};
use crate::limits::Limits;
use ssb_schema::{
    Customer, CustomerFields, DateFields, DateRow, Line, Part, PartFields, Refused, SchemaFault,
    Supplier, SupplierFields, Table,
};
use std::alloc::Global;
use std::collections::HashSet;
use std::marker::Model;

/// The rows of a base, table by table.
#[derive(Drop)]
pub struct BaseParts {
    /// The rows of customer, in the order of their file.
    pub customers: Vec<Customer>,
    /// The rows of supplier.
    pub suppliers: Vec<Supplier>,
    /// The rows of part.
    pub parts: Vec<Part>,
    /// The rows of date.
    pub dates: Vec<DateRow>,
    /// The loaded lines: the rows of lineorder.
    pub lines: Vec<Line>,
}

/// Why there is no base. The rows come back.
#[derive(Drop)]
pub enum BaseError {
    /// The rows have this fault.
    Refused(Refused<BaseParts>),
    /// Memory ran out.
    OutOfMemory(BaseParts),
}

/// Four dimensions with distinct keys and the loaded lines, each of which names a row of each dimension. Contracts see
/// the limits, the dimensions and the lines as lists.
pub struct Base {
    limits: Limits,
    customers: Dimension<CustomerFields>,
    suppliers: Dimension<SupplierFields>,
    parts: Dimension<PartFields>,
    dates: Dimension<DateFields>,
    lines: Vec<Line>,
}

impl Drop for Base {
    fn drop(self) {
        let Base {
            limits: _,
            customers: _,
            suppliers: _,
            parts: _,
            dates: _,
            lines: _,
        } = self;
    }
}

impl Model for Base {
    ghost use Rattle.std.specs.Prelude.{◌≡◌, None};
    ghost use Rattle.ssb_base.specs.Base.{Tables, base_fault};

    ghost Value = { Tables };

    ghost use Rattle.ssb_base.specs.Views.{base_view};

    ghost view = { base_view };

    ghost invariant = { λ base. base_fault (base_view base) ≡ None };
}

// The first dimension that has no row of the key which the line names.
fn unknown(indexes: &Indexes, line: &Line) -> Option<Table>
    ensures { (dimensions : Dimensions) → AreIndexesOf indexes.now dimensions
        → result ≡ unknown_of dimensions line.now }
{
    if !indexes.customers.contains(line.customer_key()) {
        Some(Table::Customer)
    } else if !indexes.suppliers.contains(line.supplier_key()) {
        Some(Table::Supplier)
    } else if !indexes.parts.contains(line.part_key()) {
        Some(Table::Part)
    } else if !indexes.dates.contains(line.order_date()) {
        Some(Table::Date)
    } else {
        None
    }
}

// Checks that each line is the first of its order key and line number, and names a row of each dimension, by a set of
// all keys.
fn check_any_lines(alloc: Global, indexes: &Indexes, lines: &[Line]) -> Result<(), Stop>
    ensures { (dimensions : Dimensions) → AreIndexesOf indexes.now dimensions
        → Finds result (rows_fault (line_fault dimensions) [] lines.now) }
{
    let mut seen: HashSet<(u64, u8)> = HashSet::new(alloc);
    for (i, line) in lines.iter().enumerate() {
        match seen.insert((line.order_key(), line.line_number())) {
            Ok(true) => {}
            Ok(false) => {
                return Err(Stop::Fault(SchemaFault::KeyRepeated(Table::Lineorder, i + 1)));
            }
            Err(_) => return Err(Stop::OutOfMemory),
        }
        if let Some(table) = unknown(indexes, line) {
            return Err(Stop::Fault(SchemaFault::UnknownKey(i + 1, table)));
        }
    }
    Ok(())
}

// Whether the line's order key and line number come after these.
fn is_after(line: &Line, order_key: u64, line_number: u8) -> bool
    ensures { result ≡ true → order_key * 256 + line_number < line.now.order_key * 256 + line.now.line_number }
{
    line.order_key() > order_key
        || (line.order_key() == order_key && line.line_number() > line_number)
}

// Checks the same, and that there are no more lines than the limit. Files have lines in the order of their keys: while
// they ascend none is there twice, and no set is needed.
fn check_lines(alloc: Global, limit: usize, indexes: &Indexes, lines: &[Line]) -> Result<(), Stop>
    ensures { (dimensions : Dimensions) → AreIndexesOf indexes.now dimensions
        → Finds result (table_fault limit table.Lineorder (line_fault dimensions) lines.now) }
{
    if lines.len() > limit {
        return Err(Stop::Fault(SchemaFault::TooManyRows(Table::Lineorder)));
    }
    let mut order_key = 0;
    let mut line_number = 0;
    for (i, line) in lines.iter().enumerate() {
        if !is_after(line, order_key, line_number) {
            return check_any_lines(alloc, indexes, lines);
        }
        if let Some(table) = unknown(indexes, line) {
            return Err(Stop::Fault(SchemaFault::UnknownKey(i + 1, table)));
        }
        order_key = line.order_key();
        line_number = line.line_number();
    }
    Ok(())
}

impl BaseParts {
    ghost use Rattle.ssb_base.specs.BaseNew.{tables_of, dimensions_of};

    // The indexes of the dimensions, or the first fault of the rows.
    fn check(&self, alloc: Global, limits: Limits) -> Result<Indexes, Stop>
        ensures fault { Finds result (base_fault (tables_of limits self.now)) }
        ensures indexes { IfOk result (λ indexes. AreIndexesOf indexes (dimensions_of self.now)) }
    {
        let indexes = Indexes {
            customers: Index::of(alloc, limits, &self.customers)?,
            suppliers: Index::of(alloc, limits, &self.suppliers)?,
            parts: Index::of(alloc, limits, &self.parts)?,
            dates: Index::of(alloc, limits, &self.dates)?,
        };
        check_lines(alloc, limits.lines, &indexes, &self.lines)?;
        Ok(indexes)
    }
}

impl Base {
    ghost use Rattle.ssb_base.specs.BaseNew.{tables_of, Answers, HandsBack};

    /// The base of these rows, or their first fault in the order of the tables, with the rows: too many rows of a
    /// table, then row by row a repeated primary key, or a line that names an unknown customer, supplier, part or date.
    pub fn new(alloc: Global, limits: Limits, parts: BaseParts) -> Result<Base, BaseError>
        ensures fault { Answers result (base_fault (tables_of limits parts)) }
        ensures tables { IfOk result (λ base. base ≡ tables_of limits parts) }
        ensures back { IfErr result (HandsBack parts) }
    {
        match parts.check(alloc, limits) {
            Ok(indexes) => Ok(Base {
                limits,
                customers: Dimension::new(parts.customers, indexes.customers),
                suppliers: Dimension::new(parts.suppliers, indexes.suppliers),
                parts: Dimension::new(parts.parts, indexes.parts),
                dates: Dimension::new(parts.dates, indexes.dates),
                lines: parts.lines,
            }),
            Err(Stop::Fault(fault)) => Err(BaseError::Refused(Refused { fault, back: parts })),
            Err(Stop::OutOfMemory) => Err(BaseError::OutOfMemory(parts)),
        }
    }

    /// How large the warehouse may grow.
    pub fn limits(&self) -> Limits
        ensures { result ≡ self.now.limits }
    {
        self.limits
    }

    /// Every base is sound: its rows have distinct keys and are no more than the limits allow, and its lines name rows
    /// that are there. The law alone: it does nothing.
    pub fn soundness(&self)
        ensures { IsSound self.now }
    {
        let _lines = self.lines();
    }

    /// The loaded lines.
    pub fn lines(&self) -> &[Line]
        ensures lines { result.now ≡ self.now.lines }
        ensures sound { IsSound self.now }
    {
        self.lines.as_slice()
    }

    /// The customers.
    pub fn customers(&self) -> &Dimension<CustomerFields>
        ensures { result.now ≡ self.now.dimensions.customers }
    {
        &self.customers
    }

    /// The suppliers.
    pub fn suppliers(&self) -> &Dimension<SupplierFields>
        ensures { result.now ≡ self.now.dimensions.suppliers }
    {
        &self.suppliers
    }

    /// The parts.
    pub fn parts(&self) -> &Dimension<PartFields>
        ensures { result.now ≡ self.now.dimensions.parts }
    {
        &self.parts
    }

    /// The dates.
    pub fn dates(&self) -> &Dimension<DateFields>
        ensures { result.now ≡ self.now.dimensions.dates }
    {
        &self.dates
    }
}
