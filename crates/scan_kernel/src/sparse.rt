//! The totals of one question whose groups are too many for a number each: of the groups that lines have alone.
ghost use Rattle.std.specs.Prelude.{◌≡◌, ℕ, ◌<◌, ◌%◌, ◌^◌, All, IfOk, OnOk, length, slice_index, true};
ghost use Rattle.std.specs.List.{range_with_len, sum_by};
ghost use Rattle.scan_kernel.specs.Masks.{questions_a_pass};
ghost use Rattle.scan_kernel.specs.Places.{CanNumber, CanSearch, Covers, has_bit, mask_at, mask_in, group_at, gain_at};
ghost use Rattle.scan_kernel.specs.Places.{loss_at};
ghost use Rattle.scan_kernel.specs.Sparse.{as_group_column, as_group_columns, wide_part_at, sums_in, AddsLine};
ghost use Rattle.scan_kernel.specs.Sparse.{AreSparseTotals};
ghost use Rattle.scan_kernel.specs.Totals.{taken};

use crate::columns::LineColumns;
use crate::masks::Masks;
use indexmap::IndexMap;
use ssb_questions::Measure;
use ssb_schema::Items;
use std::alloc::{AllocError, Global};

/// A column that lines are grouped by, where the numbers of groups may need more than 64 bits.
#[derive(Clone, Copy)]
pub struct SparseColumn<'a> {
    /// Where the line's row of the dimension stands, by place.
    pub positions: &'a [u32],
    /// The code of the row's value in the column, by position.
    pub codes: &'a [u32],
    /// What a code adds to the number of the line's group.
    pub parts: &'a [u128],
}

/// What a question adds up, and in which groups.
#[derive(Clone, Copy)]
pub struct SparseGrouping<'a> {
    pub measure: Measure,
    pub columns: &'a [SparseColumn<'a>],
}

/// How many lines a group has, what they add to the measure and what they take away from it, each modulo 2^64.
#[derive(Clone, Copy)]
pub struct GroupSums {
    pub count: u64,
    pub gain: u64,
    pub loss: u64,
}

/// The sums of the groups that lines have, by number, in the order of first sight.
pub type SparseTotals = IndexMap<u128, GroupSums>;

/// The mask of a line's row.
fn row_mask(masks: &Option<Items<u16>>, positions: &[u32], place: usize) -> u16
    requires place { place < length positions.now }
    requires covers { Covers masks.now positions.now }
    ensures { result ≡ mask_in masks.now (slice_index positions.now place) }
{
    match masks {
        Some(masks) => masks.as_slice()[positions[place] as usize],
        None => u16::MAX,
    }
}

/// The mask of the line at a place.
fn mask_of(lines: &LineColumns<'_>, masks: &Masks, place: usize) -> u16
    requires place { place < length lines.now.customer.now }
    requires covers { CanSearch lines.now masks.now }
    ensures { result ≡ mask_at lines.now masks.now place }
{
    masks.terms.as_slice()[lines.terms[place] as usize]
        & row_mask(&masks.customers, lines.customer, place)
        & row_mask(&masks.suppliers, lines.supplier, place)
        & row_mask(&masks.parts, lines.part, place)
        & row_mask(&masks.dates, lines.date, place)
}

/// Whether a question takes the line at a place.
fn takes(lines: &LineColumns<'_>, masks: &Masks, number: usize, place: usize) -> bool
    requires few { number < questions_a_pass }
    requires place { place < length lines.now.customer.now }
    requires covers { CanSearch lines.now masks.now }
    ensures { result ≡ has_bit lines.now masks.now number place }
{
    (mask_of(lines, masks, place) >> number) & 1 == 1
}

/// What a column adds to the number of the line's group.
fn part_of(column: SparseColumn<'_>, place: usize) -> u128
    requires place { place < length column.positions.now }
    requires positions { All (λ position. position < length column.codes.now) column.positions.now }
    requires codes { All (λ code. code < length column.parts.now) column.codes.now }
    ensures { result ≡ wide_part_at place column.entry }
{
    column.parts[column.codes[column.positions[place] as usize] as usize]
}

/// The number of the line's group, modulo 2^128.
fn group_of(columns: &[SparseColumn<'_>], place: usize, count: usize) -> u128
    requires place { place < count }
    requires columns { All (λ column. CanNumber count (as_group_column column)) columns.now }
    ensures { result ≡ sum_by (wide_part_at place) columns.now % 2 ^ 128 }
{
    let mut number = 0u128;
    for column in columns {
        number = number.wrapping_add(part_of(*column, place));
    }
    number
}

/// What the line at a place adds to the measure.
fn gain_of(lines: &LineColumns<'_>, measure: Measure, place: usize) -> u64
    requires { place < length lines.now.customer.now }
    ensures { result ≡ gain_at lines.now measure place }
{
    match measure {
        Measure::PriceTimesDiscount => {
            u64::from(lines.price[place]) * u64::from(lines.terms[place] % 16)
        }
        Measure::Revenue | Measure::Profit => u64::from(lines.revenue[place]),
        Measure::Quantity => u64::from(lines.terms[place] / 16),
        Measure::ExtendedPrice => u64::from(lines.price[place]),
        Measure::SupplyCost => u64::from(lines.cost[place]),
        Measure::Lines => 1,
    }
}

/// What it takes away from the measure.
fn loss_of(lines: &LineColumns<'_>, measure: Measure, place: usize) -> u64
    requires { place < length lines.now.customer.now }
    ensures { result ≡ loss_at lines.now measure place }
{
    match measure {
        Measure::PriceTimesDiscount | Measure::Revenue => 0,
        Measure::Profit => u64::from(lines.cost[place]),
        Measure::Quantity | Measure::ExtendedPrice | Measure::SupplyCost | Measure::Lines => 0,
    }
}

/// The sums of a group, of which no line may have been seen.
fn sums_of(totals: &SparseTotals, group: u128) -> GroupSums
    ensures { result ≡ sums_in totals.now group }
{
    match totals.get(&group) {
        Some(sums) => *sums,
        None => GroupSums {
            count: 0,
            gain: 0,
            loss: 0,
        },
    }
}

/// Adds a line to its group.
fn add_line(totals: &mut SparseTotals, group: u128, gain: u64, loss: u64) -> Result<(), AllocError>
    ensures { OnOk result (AddsLine totals.old totals.new group gain loss) }
{
    let sums = sums_of(totals, group);
    let more = GroupSums {
        count: sums.count.wrapping_add(1),
        gain: sums.gain.wrapping_add(gain),
        loss: sums.loss.wrapping_add(loss),
    };
    match totals.insert(group, more) {
        Ok(_) => Ok(()),
        Err(_) => Err(AllocError),
    }
}

/// The totals of one question over all places, where each group's number is below `size`.
pub fn sparse_totals(
    alloc: Global,
    lines: &LineColumns<'_>,
    masks: &Masks,
    number: usize,
    grouping: SparseGrouping<'_>,
    size: u128,
) -> Result<SparseTotals, AllocError>
    requires few { number < questions_a_pass }
    requires covers { CanSearch lines.now masks.now }
    requires columns { All (λ column. CanNumber (length lines.now.customer.now) (as_group_column column))
        grouping.columns.now }
    requires groups { (place : ℕ) → place < length lines.now.customer.now
        → has_bit lines.now masks.now number place ≡ true
        → group_at (as_group_columns grouping.columns.now) place < size }
    ensures { IfOk result (λ totals. AreSparseTotals lines.now grouping.entry.measure
        (as_group_columns grouping.entry.columns.now)
        (taken lines.now masks.now number (range_with_len 0 (length lines.now.customer.now))) size totals) }
{
    let mut totals = IndexMap::new(alloc);
    let count = lines.customer.len();
    for place in 0..count {
        if takes(lines, masks, number, place) {
            let group = group_of(grouping.columns, place, count);
            let gain = gain_of(lines, grouping.measure, place);
            let loss = loss_of(lines, grouping.measure, place);
            add_line(&mut totals, group, gain, loss)?;
        }
    }
    Ok(totals)
}
