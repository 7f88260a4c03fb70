//! The index of the dimensions.
ghost use Rattle.std.specs.Prelude.{◌≡◌, ◌<◌, ◌≤◌, ◌^◌, ◌++◌, IfOk, OnOk, length, map, slice_get, slice_index};
ghost use Rattle.ssb_base.specs.Base.{has_key_of};
ghost use Rattle.ssb_schema.specs.FirstFault.{AreDistinct};
ghost use Rattle.ssb_schema.specs.declared.table.Table.TheVariants as table;
ghost use Rattle.ssb_questions.specs.Queries.{number_of, text_of};
ghost use Rattle.dimension_index.specs.Keys.{position_in, position_of, keys_of};
ghost use Rattle.dimension_index.specs.Values.{values_of};
ghost use Rattle.dimension_index.specs.Codes.{distinct, codes_of};
ghost use Rattle.dimension_index.specs.Bitmaps.{bits_of};
ghost use Rattle.dimension_index.specs.Classes.{classes_of, telling_columns, reduced};
ghost use Rattle.dimension_index.specs.Kept.{kept_columns, unread};

use crate::bitmap::Bitmap;
use crate::classes::{classes_by, extent_of, numbered};
use crate::coded::CodedColumn;
use crate::dictionary::Dictionary;
use crate::first_rows::{Extents, FirstRows};
use crate::kept::{kept_at, unread_columns};
use ssb_answers::Test;
use ssb_base::{Base, Dimension};
use ssb_schema::{
    C_CITY, C_MKTSEGMENT, C_NATION, C_REGION, Column, Keyed, P_BRAND1, P_CATEGORY, P_MFGR, S_CITY,
    S_NATION, S_REGION, Table, query_columns,
};
use std::alloc::{AllocError, Global};
use std::marker::Model;
use std::sync::Arc;

/// The dimensions of a base, by position and in codes. Contracts see the base.
pub struct DimIndex {
    base: Arc<Base>,
    // The kept columns, in the order of `specs/Kept.antt`.
    columns: Vec<CodedColumn>,
    classes: Classes,
    first_rows: FirstRows,
}

impl Drop for DimIndex {
    fn drop(self) {
        let DimIndex {
            base: _,
            columns: _,
            classes: _,
            first_rows: _,
        } = self;
    }
}

/// The class of each row of a dimension, by position.
#[derive(Drop)]
struct Classes {
    customers: Vec<u32>,
    suppliers: Vec<u32>,
    parts: Vec<u32>,
    dates: Vec<u32>,
}

impl Model for DimIndex {
    ghost use Rattle.ssb_base.specs.Base.{Tables};
    ghost use Rattle.dimension_index.specs.Indexed.{IsIndexOf};

    ghost Value = { Tables };

    ghost view = { λ index. index.base.value };

    ghost invariant = { λ index. IsIndexOf index.base.value index };
}

// The column of a base, in codes.
fn coded(alloc: Global, base: &Base, column: Column) -> Result<CodedColumn, AllocError>
    ensures { IfOk result (λ coded. coded ≡ values_of base.now column) }
{
    base.soundness();
    let place = column.place;
    match column.table {
        Table::Customer => CodedColumn::of(alloc, base.customers().rows(), place),
        Table::Supplier => CodedColumn::of(alloc, base.suppliers().rows(), place),
        Table::Part => CodedColumn::of(alloc, base.parts().rows(), place),
        Table::Date => CodedColumn::of(alloc, base.dates().rows(), place),
        Table::Lineorder => Ok(CodedColumn::none(alloc)),
    }
}

// More columns of a base, in codes.
fn push_coded(
    alloc: Global,
    base: &Base,
    columns: &[Column],
    kept: &mut Vec<CodedColumn>,
) -> Result<(), AllocError>
    ensures { OnOk result (kept.new.items ≡ kept.old.items ++ map (values_of base.now) columns.now) }
{
    for column in columns {
        let values = coded(alloc, base, *column)?;
        kept.push(values)?;
    }
    Ok(())
}

// A column of a base, or the one that stands for it, among the kept ones.
fn kept<'a>(base: &Base, columns: &'a [CodedColumn], column: Column) -> &'a CodedColumn
    requires { columns.now ≡ map (values_of base.now) kept_columns }
    ensures { result.now ≡ values_of base.now column }
{
    &columns[kept_at(column)]
}

// The column that stands for all columns of a table that no query reads: it tells no rows apart.
fn unread(table: Table) -> Column
    ensures { result ≡ unread table }
{
    Column { table, place: 0 }
}

// The classes of the rows of a dimension that queries tell apart by four columns.
fn four_classes(
    alloc: Global,
    base: &Base,
    columns: &[CodedColumn],
    table: Table,
    told: [Column; 4],
) -> Result<Vec<u32>, AllocError>
    requires columns { columns.now ≡ map (values_of base.now) kept_columns }
    requires told { told ≡ telling_columns table }
    requires few { length (telling_columns table) ≤ 4 }
    ensures { IfOk result (λ classes. classes.items ≡ classes_of base.now.dimensions table) }
{
    base.soundness();
    let [first, second, third, fourth] = told;
    classes_by(
        alloc,
        kept(base, columns, first),
        kept(base, columns, second),
        kept(base, columns, third),
        kept(base, columns, fourth),
    )
}

// The classes of the dates: each has a key of its own, which queries read.
fn date_classes(alloc: Global, base: &Base) -> Result<Vec<u32>, AllocError>
    ensures { IfOk result (λ classes. classes.items ≡ classes_of base.now.dimensions table.Date) }
{
    base.soundness();
    numbered(alloc, base.dates().rows().len())
}

// The classes of the rows of a dimension; where queries tell them apart by three columns, the fourth tells none apart.
fn table_classes(
    alloc: Global,
    base: &Base,
    columns: &[CodedColumn],
    table: Table,
) -> Result<Vec<u32>, AllocError>
    requires { columns.now ≡ map (values_of base.now) kept_columns }
    ensures { IfOk result (λ classes. classes.items ≡ classes_of base.now.dimensions table) }
{
    let none = unread(table);
    match table {
        Table::Customer => {
            let told = [C_CITY, C_NATION, C_REGION, C_MKTSEGMENT];
            four_classes(alloc, base, columns, table, told)
        }
        Table::Supplier => {
            let told = [S_CITY, S_NATION, S_REGION, none];
            four_classes(alloc, base, columns, table, told)
        }
        Table::Part => {
            let told = [P_MFGR, P_CATEGORY, P_BRAND1, none];
            four_classes(alloc, base, columns, table, told)
        }
        Table::Date => date_classes(alloc, base),
        Table::Lineorder => four_classes(alloc, base, columns, table, [none, none, none, none]),
    }
}

impl Classes {
    ghost use Rattle.dimension_index.specs.Indexed.{AreClasses, classes_in};

    // The classes of the rows of all dimensions.
    fn new(alloc: Global, base: &Base, columns: &[CodedColumn]) -> Result<Classes, AllocError>
        requires { columns.now ≡ map (values_of base.now) kept_columns }
        ensures { IfOk result (AreClasses base.now.dimensions) }
    {
        Ok(Classes {
            customers: table_classes(alloc, base, columns, Table::Customer)?,
            suppliers: table_classes(alloc, base, columns, Table::Supplier)?,
            parts: table_classes(alloc, base, columns, Table::Part)?,
            dates: table_classes(alloc, base, columns, Table::Date)?,
        })
    }

    // The classes of the rows of a dimension; the fact table has none.
    fn of(&self, table: Table) -> &[u32]
        ensures { result.now ≡ classes_in self.now table }
    {
        match table {
            Table::Customer => &self.customers,
            Table::Supplier => &self.suppliers,
            Table::Part => &self.parts,
            Table::Date => &self.dates,
            Table::Lineorder => &[],
        }
    }
}

// The position of the row that has the key, in 32 bits.
fn position<F: Keyed>(dimension: &Dimension<F>, key: u64) -> Option<u32>
    requires few { length dimension.now < 2 ^ 32 }
    requires distinct { AreDistinct (has_key_of F.key_of) dimension.now }
    ensures { result ≡ position_in (map F.key_of dimension.now) key }
{
    match dimension.position(key) {
        Some(place) => Some(place as u32),
        None => None,
    }
}

/// The index of a base, to be shared.
pub fn index_of(alloc: Global, base: &Arc<Base>) -> Result<Arc<DimIndex>, AllocError>
    ensures { IfOk result (λ index. index.value ≡ base.now.value) }
{
    let index = DimIndex::new(alloc, Arc::try_clone(base)?)?;
    Ok(Arc::new(alloc, index)?)
}

impl DimIndex {
    /// The index of a base.
    pub fn new(alloc: Global, base: Arc<Base>) -> Result<DimIndex, AllocError>
        ensures { IfOk result (λ index. index ≡ base.value) }
    {
        let mut columns = Vec::new(alloc);
        push_coded(alloc, &base, query_columns(), &mut columns)?;
        push_coded(alloc, &base, unread_columns(), &mut columns)?;
        let classes = Classes::new(alloc, &base, &columns)?;
        let extents = Extents {
            customers: extent_of(&classes.customers),
            suppliers: extent_of(&classes.suppliers),
            parts: extent_of(&classes.parts),
            dates: extent_of(&classes.dates),
        };
        let first_rows = FirstRows::new(alloc, Arc::try_clone(&base)?, extents)?;
        Ok(DimIndex {
            base,
            columns,
            classes,
            first_rows,
        })
    }

    /// The base.
    pub fn base(&self) -> &Base
        ensures { result.now ≡ self.now }
    {
        &self.base
    }

    /// The position, counted from 0, of the dimension's row that has the key; None where there is none.
    pub fn position(&self, table: Table, key: u64) -> Option<u32>
        ensures { result ≡ position_of self.now table key }
    {
        let base = self.base();
        base.soundness();
        match table {
            Table::Customer => position(base.customers(), key),
            Table::Supplier => position(base.suppliers(), key),
            Table::Part => position(base.parts(), key),
            Table::Date => position(base.dates(), key),
            Table::Lineorder => None,
        }
    }

    /// How many rows a dimension has; 0 for the fact table.
    pub fn positions(&self, table: Table) -> usize
        ensures { result ≡ length (keys_of self.now table) }
    {
        match table {
            Table::Customer => self.base.customers().rows().len(),
            Table::Supplier => self.base.suppliers().rows().len(),
            Table::Part => self.base.parts().rows().len(),
            Table::Date => self.base.dates().rows().len(),
            Table::Lineorder => 0,
        }
    }

    /// A column of a dimension in codes. A column that no query reads has the number 0 in every row; one of the fact
    /// table has no rows.
    pub fn column(&self, column: Column) -> &CodedColumn
        ensures { result.now ≡ values_of self.now column }
    {
        kept(&self.base, &self.columns, column)
    }

    /// The class of the row at a position: the position of the first row that no query can tell from it.
    pub fn class(&self, table: Table, position: u32) -> u32
        requires { position < length (keys_of self.now table) }
        ensures { result ≡ slice_index (classes_of self.now.dimensions table) position }
    {
        let classes = self.classes.of(table);
        classes[position as usize]
    }

    /// The index of the rows that begin a class, and of those between them: all that a scan by class looks at.
    pub fn first_rows(&self) -> &FirstRows
        ensures { result.now ≡ reduced self.now }
    {
        &self.first_rows
    }

    /// The codes of a column's values, by position.
    pub fn codes_of(&self, column: Column) -> &[u32]
        ensures { result.now ≡ codes_of (values_of self.now column) }
    {
        self.column(column).codes()
    }

    /// The distinct values of a column, by code.
    pub fn dictionary(&self, column: Column) -> &Dictionary
        ensures { result.now ≡ distinct (values_of self.now column) }
    {
        self.column(column).dictionary()
    }

    /// How many codes a column has.
    pub fn codes(&self, column: Column) -> usize
        ensures { result ≡ length (distinct (values_of self.now column)) }
    {
        self.dictionary(column).len()
    }

    /// The code of a row's value.
    pub fn code(&self, column: Column, position: usize) -> u32
        requires { position < length (values_of self.now column) }
        ensures { result ≡ slice_index (codes_of (values_of self.now column)) position }
    {
        let codes = self.codes_of(column);
        codes[position]
    }

    /// The text of a code; empty where it is the code of a number, or of nothing.
    pub fn text(&self, column: Column, code: u32) -> &str
        ensures { result.now ≡ text_of (slice_get (distinct (values_of self.now column)) code) }
    {
        self.dictionary(column).text(code)
    }

    /// The number of a code; 0 where it is the code of a text, or of nothing.
    pub fn number(&self, column: Column, code: u32) -> u64
        ensures { result ≡ number_of (slice_get (distinct (values_of self.now column)) code) }
    {
        self.dictionary(column).number(code)
    }

    /// Which rows of a dimension pass all tests.
    pub fn bitmap(&self, alloc: Global, table: Table, tests: &[Test]) -> Result<Bitmap, AllocError>
        ensures { IfOk result (λ bitmap. bitmap ≡ bits_of self.now table tests.now) }
    {
        let mut bits = vec![in alloc; true; self.positions(table)]?;
        for test in tests {
            let column = self.column(Column {
                table,
                place: test.column.place,
            });
            column.narrow(alloc, &test.cond, bits.as_mut_slice())?;
        }
        Ok(Bitmap::from_vec(bits))
    }
}
