//! The grouping of a question, as the loops read it.
ghost use Rattle.std.specs.Prelude.{◌≡◌, ◌≤◌, ◌^◌, All, IfOk, length};
ghost use Rattle.dimension_index.specs.Codes.{codes_of};
ghost use Rattle.dimension_index.specs.Values.{values_of};
ghost use Rattle.shared_scan.specs.GroupColumns.{AreGroupColumns, IsGroupColumn};
ghost use Rattle.shared_scan.specs.Groupings.{HasParts, IsDenseGrouping, IsReadyGrouping, AreReadyGroupings};
ghost use Rattle.shared_scan.specs.Prepared.{positions_in};

use crate::parts::Parts;
use crate::ready::Ready;
use dimension_index::FirstRows;
use scan_kernel::{GroupColumn, Grouping, LineColumns};
use ssb_schema::{Column, Items, Table};
use std::alloc::{AllocError, Global};

/// Where the lines' rows of a table stand; no question looks up rows of the fact table, and any positions will do.
pub fn positions<'a>(lines: &LineColumns<'a>, table: Table) -> &'a [u32]
    ensures { result.now ≡ positions_in table lines.now }
{
    match table {
        Table::Customer => lines.customer,
        Table::Supplier => lines.supplier,
        Table::Part => lines.part,
        Table::Date => lines.date,
        Table::Lineorder => lines.date,
    }
}

/// One group column as the loops read it.
fn group_column<'a>(
    index: &'a FirstRows,
    lines: &LineColumns<'a>,
    column: Column,
    parts: &'a Items<u32>,
) -> GroupColumn<'a>
    ensures { IsGroupColumn index.now lines.now column parts.now result }
{
    GroupColumn {
        positions: positions(lines, column.table),
        codes: index.codes_of(column),
        parts: parts.as_slice(),
    }
}

/// The group columns of a question as the loops read them.
pub fn group_columns<'a>(
    alloc: Global,
    index: &'a FirstRows,
    lines: &LineColumns<'a>,
    columns: &[Column],
    parts: &'a [Items<u32>],
) -> Result<Vec<GroupColumn<'a>>, AllocError>
    requires { length parts.now ≡ length columns.now }
    ensures { IfOk result (λ groups. AreGroupColumns index.now lines.now columns.now parts.now groups.items) }
{
    let mut groups = Vec::with_capacity(alloc, columns.len())?;
    for place in 0..columns.len() {
        groups.push(group_column(index, lines, columns[place], &parts[place]))?;
    }
    Ok(groups)
}

/// The grouping of a question with a number for each group.
fn dense_grouping<'a>(
    alloc: Global,
    index: &'a FirstRows,
    lines: &LineColumns<'a>,
    ready: &'a Ready,
    parts: &'a [Items<u32>],
) -> Result<Grouping<'a>, AllocError>
    requires one_each { length parts.now ≡ length ready.now.plan.groups }
    requires few { ready.now.groups.size ≤ 2 ^ 32 }
    ensures { IfOk result (IsDenseGrouping index.now lines.now ready.now parts.now) }
{
    let columns = group_columns(alloc, index, lines, ready.plan.groups.as_slice(), parts)?;
    Ok(Grouping {
        measure: ready.plan.measure,
        columns,
        size: ready.groups.size as usize,
    })
}

/// The grouping of a question as the loops read it. Where its groups are summed up apart, one stands for all.
pub fn grouping<'a>(
    alloc: Global,
    index: &'a FirstRows,
    lines: &LineColumns<'a>,
    ready: &'a Ready,
) -> Result<Grouping<'a>, AllocError>
    requires { HasParts ready.now }
    ensures { IfOk result (IsReadyGrouping index.now lines.now ready.now) }
{
    match &ready.groups.parts {
        Parts::Narrow(parts) => dense_grouping(alloc, index, lines, ready, parts),
        Parts::Wide(_) => Ok(Grouping {
            measure: ready.plan.measure,
            columns: Vec::new(alloc),
            size: 1,
        }),
    }
}

/// The groupings of all questions as the loops read them.
pub fn groupings<'a>(
    alloc: Global,
    index: &'a FirstRows,
    lines: &LineColumns<'a>,
    all: &'a [Ready],
) -> Result<Vec<Grouping<'a>>, AllocError>
    requires { All HasParts all.now }
    ensures { IfOk result (λ groupings. AreReadyGroupings index.now lines.now all.now groupings.items) }
{
    let mut groupings = Vec::with_capacity(alloc, all.len())?;
    for ready in all {
        groupings.push(grouping(alloc, index, lines, ready)?)?;
    }
    Ok(groupings)
}
