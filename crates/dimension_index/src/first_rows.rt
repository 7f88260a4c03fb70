//! The index of the rows that begin a class.
ghost use Rattle.std.specs.Prelude.{◌≡◌, ◌<◌, ◌++◌, IfOk, OnOk, length, map, take};
ghost use Rattle.ssb_base.specs.Base.{IsSound};
ghost use Rattle.dimension_index.specs.Classes.{first_rows, rows_in};
ghost use Rattle.dimension_index.specs.Codes.{distinct, codes_of};
ghost use Rattle.dimension_index.specs.Keys.{keys_of};
ghost use Rattle.dimension_index.specs.Kept.{kept_columns};
ghost use Rattle.dimension_index.specs.Values.{values_of};

use crate::coded::CodedColumn;
use crate::dictionary::Dictionary;
use crate::kept::{kept_at, unread_columns};
use ssb_base::Base;
use ssb_schema::{Column, Table, query_columns};
use std::alloc::{AllocError, Global};
use std::marker::Model;
use std::sync::Arc;

/// How many rows of each dimension, from the first on.
#[derive(Clone, Copy)]
pub struct Extents {
    pub customers: usize,
    pub suppliers: usize,
    pub parts: usize,
    pub dates: usize,
}

/// The first rows of each dimension, in codes. Contracts see them as a base of their own, without lines.
#[derive(Drop)]
pub struct FirstRows {
    base: Arc<Base>,
    extents: Extents,
    // The kept columns, in the order of `specs/Kept.antt`.
    columns: Vec<CodedColumn>,
}

impl Model for FirstRows {
    ghost use Rattle.ssb_base.specs.Base.{Tables};
    ghost use Rattle.dimension_index.specs.FirstRows.{rows_of, AreFirstRows};

    ghost Value = { Tables };

    ghost view = { rows_of };

    ghost invariant = { AreFirstRows };
}

// The first so many of some rows; all, where there are fewer.
fn first<T>(rows: &[T], count: usize) -> &[T]
    ensures { result.now ≡ take count rows.now }
{
    rows.split_at(count.min(rows.len())).0
}

// A column of the first rows, in codes.
fn coded(
    alloc: Global,
    base: &Base,
    extents: Extents,
    column: Column,
) -> Result<CodedColumn, AllocError>
    ensures { IfOk result (λ coded. coded ≡ values_of (first_rows base.now extents) column) }
{
    base.soundness();
    let place = column.place;
    match column.table {
        Table::Customer => CodedColumn::of(
            alloc,
            first(base.customers().rows(), extents.customers),
            place,
        ),
        Table::Supplier => CodedColumn::of(
            alloc,
            first(base.suppliers().rows(), extents.suppliers),
            place,
        ),
        Table::Part => CodedColumn::of(alloc, first(base.parts().rows(), extents.parts), place),
        Table::Date => CodedColumn::of(alloc, first(base.dates().rows(), extents.dates), place),
        Table::Lineorder => Ok(CodedColumn::none(alloc)),
    }
}

// More columns of the first rows, in codes.
fn push_coded(
    alloc: Global,
    base: &Base,
    extents: Extents,
    columns: &[Column],
    kept: &mut Vec<CodedColumn>,
) -> Result<(), AllocError>
    ensures { OnOk result (kept.new.items ≡ kept.old.items
        ++ map (values_of (first_rows base.now extents)) columns.now) }
{
    for column in columns {
        let values = coded(alloc, base, extents, *column)?;
        kept.push(values)?;
    }
    Ok(())
}

impl FirstRows {
    /// So many first rows of each dimension of a base.
    pub fn new(alloc: Global, base: Arc<Base>, extents: Extents) -> Result<FirstRows, AllocError>
        ensures { IfOk result (λ rows. rows ≡ first_rows base.value extents) }
    {
        let mut columns = Vec::new(alloc);
        push_coded(alloc, &base, extents, query_columns(), &mut columns)?;
        push_coded(alloc, &base, extents, unread_columns(), &mut columns)?;
        Ok(FirstRows {
            base,
            extents,
            columns,
        })
    }

    /// The rows are those of a sound base. The law alone: it does nothing.
    pub fn soundness(&self)
        ensures { IsSound self.now }
    {
        self.base.soundness();
    }

    /// How many rows of a dimension there are; 0 for the fact table.
    pub fn positions(&self, table: Table) -> usize
        ensures { result ≡ length (keys_of self.now table) }
    {
        self.column(Column { table, place: 0 }).len()
    }

    /// A column of a dimension in codes. A column that no query reads has the number 0 in every row; one of the fact
    /// table has no rows.
    pub fn column(&self, column: Column) -> &CodedColumn
        ensures { result.now ≡ values_of self.now column }
    {
        &self.columns[kept_at(column)]
    }

    /// The codes of a column's values, by position.
    pub fn codes_of(&self, column: Column) -> &[u32]
        ensures { result.now ≡ codes_of (values_of self.now column) }
    {
        self.column(column).codes()
    }

    /// The distinct values of a column, by code.
    pub fn dictionary(&self, column: Column) -> &Dictionary
        ensures { result.now ≡ distinct (values_of self.now column) }
    {
        self.column(column).dictionary()
    }

    /// How many codes a column has.
    pub fn codes(&self, column: Column) -> usize
        ensures { result ≡ length (distinct (values_of self.now column)) }
    {
        self.dictionary(column).len()
    }
}
