//! The rows of a question whose groups are too many for a number each.
ghost use Rattle.std.specs.Prelude.{◌≡◌, ℕ, ◌<◌, ◌^◌, IfOk, Some, length, map, nat_eq};
ghost use Rattle.indexmap.specs.IndexMap.{get, keys, values};
ghost use Rattle.scan_kernel.specs.Masks.{questions_a_pass};
ghost use Rattle.scan_kernel.specs.declared.sparse.GroupSums.{GroupSums as Sums};
ghost use Rattle.scan_kernel.specs.Places.{CanSearch};
ghost use Rattle.scan_kernel.specs.Sparse.{as_group_column, as_group_columns};
ghost use Rattle.shared_scan.specs.GroupColumns.{AreGroupColumns, IsGroupColumn};
ghost use Rattle.shared_scan.specs.Parts.{parts_in};
ghost use Rattle.shared_scan.specs.Scanned.{IsScanned, net};
ghost use Rattle.shared_scan.specs.Summed.{AreRowsOver};

use crate::grouping::positions;
use crate::ready::Ready;
use crate::scan::Scan;
use crate::sums::difference;
use dimension_index::FirstRows;
use scan_kernel::{
    GroupSums, LineColumns, SparseColumn, SparseGrouping, SparseTotals, answer_sparse,
    sparse_totals,
};
use ssb_answers::ResultRow;
use ssb_schema::{Column, Items};
use std::alloc::{AllocError, Global};

/// One group column as the walk reads it.
fn sparse_column<'a>(
    index: &'a FirstRows,
    lines: &LineColumns<'a>,
    column: Column,
    parts: &'a Items<u128>,
) -> SparseColumn<'a>
    ensures { IsGroupColumn index.now lines.now column parts.now (as_group_column result) }
{
    SparseColumn {
        positions: positions(lines, column.table),
        codes: index.codes_of(column),
        parts: parts.as_slice(),
    }
}

/// The group columns of a question as the walk reads them.
fn sparse_columns<'a>(
    alloc: Global,
    index: &'a FirstRows,
    lines: &LineColumns<'a>,
    columns: &[Column],
    parts: &'a [Items<u128>],
) -> Result<Vec<SparseColumn<'a>>, AllocError>
    requires { length parts.now ≡ length columns.now }
    ensures { IfOk result (λ groups. AreGroupColumns index.now lines.now columns.now parts.now
        (as_group_columns groups.items)) }
{
    let mut groups = Vec::with_capacity(alloc, columns.len())?;
    for place in 0..columns.len() {
        groups.push(sparse_column(index, lines, columns[place], &parts[place]))?;
    }
    Ok(groups)
}

/// The groups that have lines: their numbers, how many lines, and what these sum up to.
#[derive(Drop)]
struct Listed {
    numbers: Vec<u128>,
    counts: Vec<u64>,
    sums: Vec<i64>,
}

/// The groups that have lines, in three lists.
fn list_groups(alloc: Global, totals: &SparseTotals) -> Result<Listed, AllocError>
    requires { (g : ℕ) (sums : Sums) → get nat_eq totals.now g ≡ Some sums → (sums.gain < 2 ^ 63)
        × (sums.loss < 2 ^ 63) }
    ensures numbers { IfOk result (λ list. list.numbers.items ≡ keys totals.now) }
    ensures counts { IfOk result (λ list. list.counts.items ≡ map (λ sums. sums.count) (values totals.now)) }
    ensures sums { IfOk result (λ list. list.sums.items ≡ map net (values totals.now)) }
{
    let mut numbers = Vec::with_capacity(alloc, totals.len())?;
    let mut counts = Vec::with_capacity(alloc, totals.len())?;
    let mut sums = Vec::with_capacity(alloc, totals.len())?;
    for at in 0..totals.len() {
        if let Some((number, group)) = totals.get_index(at) {
            numbers.push(*number)?;
            counts.push(group.count)?;
            sums.push(difference(group.gain, group.loss))?;
        }
    }
    Ok(Listed {
        numbers,
        counts,
        sums,
    })
}

/// The rows of a question, by one walk over the places that keeps the sums of the groups that it meets.
pub fn sparse_rows(
    alloc: Global,
    scan: Scan<'_>,
    ready: &Ready,
    parts: &[Items<u128>],
    number: usize,
) -> Result<Vec<ResultRow>, AllocError>
    requires few { number < questions_a_pass }
    requires covers { CanSearch scan.lines scan.masks.now }
    requires parts { parts_in ready.now.groups.parts ≡ parts.now }
    requires scanned { IsScanned scan.index.now scan.lines scan.masks.now number ready.now }
    ensures { IfOk result (λ rows. AreRowsOver scan.entry.index.now scan.entry.lines scan.entry.masks.now number
        ready.now rows.items) }
{
    let groups = ready.plan.groups.as_slice();
    let columns = sparse_columns(alloc, scan.index, &scan.lines, groups, parts)?;
    let grouping = SparseGrouping {
        measure: ready.plan.measure,
        columns: &columns,
    };
    let size = ready.groups.size;
    let totals = sparse_totals(alloc, &scan.lines, scan.masks, number, grouping, size)?;
    let list = list_groups(alloc, &totals)?;
    answer_sparse(
        alloc,
        &ready.plan,
        &ready.groups.columns,
        &list.numbers,
        &list.counts,
        &list.sums,
    )
}
