//! Lines in codes.
ghost use Rattle.std.specs.Prelude.{◌≡◌, ◌++◌, List, Some, flat_map, slice_index, IfOk, OnOk};
ghost use Rattle.ssb_schema.specs.declared.fact.Fact.{Fact as PlainFact};
ghost use Rattle.ssb_schema.specs.Facts.{fact_of, facts_of};
ghost use Rattle.row_store.specs.Lines.{added_by};
ghost use Rattle.dimension_index.specs.Classes.{classes_of};
ghost use Rattle.dimension_index.specs.Keys.{position_of};
ghost use Rattle.fact_columns.specs.Coded.{AreCoded, AreCodesOf, IsCodeOf, IsCoded};

use crate::action::added;
use crate::place::{Place, terms};
use crate::place_columns::PlaceColumns;
use dimension_index::DimIndex;
use rayon::prelude::*;
use ssb_schema::{Action, Line, Table};
use std::alloc::{AllocError, Global};
use std::thread::Threads;

// How many lines are coded into one table.
const PIECE: usize = 16 * 1024;

// The position of the row of a dimension that has the key, and its class; an error where there is none. Inlined, since
// each line asks for four.
#[inline(always)]
fn found(index: &DimIndex, table: Table, key: u64) -> Result<(u32, u32), AllocError>
    ensures position { IfOk result (λ (position, class). position_of index.now table key ≡ Some position) }
    ensures class { IfOk result (λ (position, class).
        class ≡ slice_index (classes_of index.now.dimensions table) position) }
{
    match index.position(table, key) {
        Some(position) => Ok((position, index.class(table, position))),
        None => Err(AllocError),
    }
}

/// A line in codes; an error where the base lacks a row that it names.
pub fn coded(index: &DimIndex, line: &Line) -> Result<Place, AllocError>
    ensures { IfOk result (IsCodeOf index.now.dimensions (fact_of line.now)) }
{
    let fact = line.fact();
    let (customer, customer_class) = found(index, Table::Customer, fact.customer)?;
    let (supplier, supplier_class) = found(index, Table::Supplier, fact.supplier)?;
    let (part, part_class) = found(index, Table::Part, fact.part)?;
    let (date, date_class) = found(index, Table::Date, fact.date)?;
    Ok(Place {
        order: fact.order_key,
        customer,
        supplier,
        part,
        date,
        terms: terms(fact.quantity, fact.discount),
        price: fact.price,
        revenue: fact.revenue,
        cost: fact.cost,
        customer_class,
        supplier_class,
        part_class,
        date_class,
    })
}

// Lines in codes, in columns of their own.
#[tactic(auto, unfolding(crate::specs::Coded::IsCoded))]
fn table_of_piece(
    alloc: Global,
    index: &DimIndex,
    lines: &[Line],
) -> Result<PlaceColumns, AllocError>
    ensures { IsCoded index.now.dimensions lines.now result }
{
    let mut table = PlaceColumns::new(alloc);
    table.reserve(lines.len())?;
    for line in lines {
        table.push(coded(index, line)?);
    }
    Ok(table)
}

/// Lines in codes, in columns one behind another, by as many threads as there are processors; an error in place of
/// columns for which there is no memory, or where the base lacks a row that a line names.
pub fn coded_pieces(
    rt: &(impl Threads + Sync),
    alloc: Global,
    index: &DimIndex,
    lines: &[Line],
) -> Result<Vec<Result<PlaceColumns, AllocError>>, AllocError>
    ensures { IfOk result (λ pieces. AreCoded index.now.dimensions lines.now pieces.items) }
{
    lines
        .par_chunks(PIECE)
        .map(
            |lines: &[Line]| -> Result<PlaceColumns, AllocError>
                ensures { IsCoded index.entry.now.dimensions lines.now result }
            { table_of_piece(alloc, index, lines) },
        )
        .collect(rt, alloc)
}

// Puts lines in codes behind others.
fn code_lines(index: &DimIndex, lines: &[Line], fresh: &mut Vec<Place>) -> Result<(), AllocError>
    ensures { (before : List PlainFact) → AreCodesOf index.now.dimensions before fresh.old.items
        → OnOk result (AreCodesOf index.now.dimensions (before ++ facts_of lines.now) fresh.new.items) }
{
    for line in lines {
        fresh.push(coded(index, line)?)?;
    }
    Ok(())
}

/// All lines that the actions add, in codes.
pub fn coded_actions(
    alloc: Global,
    index: &DimIndex,
    actions: &[Action],
) -> Result<Vec<Place>, AllocError>
    ensures { IfOk result
        (λ fresh. AreCodesOf index.now.dimensions (facts_of (flat_map added_by actions.now)) fresh.items) }
{
    let mut fresh = Vec::new(alloc);
    for action in actions {
        code_lines(index, added(action), &mut fresh)?;
    }
    Ok(fresh)
}
