//! What one line is to a question: whether it is taken, the number of its group, and what it adds.
ghost use Rattle.std.specs.Prelude.{◌≡◌, ◌%◌, ◌^◌, slice_index};
ghost use Rattle.scan_kernel.specs.Places.{mask_in};
ghost use Rattle.shared_scan.specs.Standing.{line_mask, class_in, part_of_line, parts_of_line, group_of_line};
ghost use Rattle.shared_scan.specs.Standing.{gain_in, loss_in, IsSigned, IsChange};

use crate::parts::Parts;
use crate::ready::Ready;
use dimension_index::FirstRows;
use fact_columns::ScannedLine;
use scan_kernel::Masks;
use ssb_answers::Measure;
use ssb_schema::{Column, Items, Table};

/// The mask at a place; none of its bits is set past the end.
fn mask_at(masks: &[u16], at: usize) -> u16
    ensures { result ≡ slice_index masks.now at }
{
    match masks.get(at) {
        Some(mask) => *mask,
        None => 0,
    }
}

/// The mask of a class of rows: every bit where no question tests the dimension.
fn mask_in(masks: &Option<Items<u16>>, class: u32) -> u16
    ensures { result ≡ mask_in masks.now class }
{
    match masks {
        Some(masks) => mask_at(masks.as_slice(), class as usize),
        None => u16::MAX,
    }
}

/// Which questions take a line, as a bit for each.
pub fn line_mask(masks: &Masks, line: &ScannedLine) -> u16
    ensures { result ≡ line_mask masks.now line.now }
{
    mask_at(masks.terms.as_slice(), usize::from(line.terms))
        & mask_in(&masks.customers, line.customer)
        & mask_in(&masks.suppliers, line.supplier)
        & mask_in(&masks.parts, line.part)
        & mask_in(&masks.dates, line.date)
}

/// The number at a place; 0 past the end.
fn number_at(numbers: &[u32], at: u32) -> u32
    ensures { result ≡ slice_index numbers.now at }
{
    match numbers.get(at as usize) {
        Some(number) => *number,
        None => 0,
    }
}

/// The class of a line's row of a table; no question looks up rows of the fact table, and any class will do.
fn class_in(table: Table, line: &ScannedLine) -> u32
    ensures { result ≡ class_in table line.now }
{
    match table {
        Table::Customer => line.customer,
        Table::Supplier => line.supplier,
        Table::Part => line.part,
        Table::Date => line.date,
        Table::Lineorder => line.date,
    }
}

/// What a group column adds to the number of a line's group.
fn part_of_line(index: &FirstRows, column: &Column, part: &Items<u32>, line: &ScannedLine) -> u32
    ensures { result ≡ part_of_line index.now column.now part.now line.now }
{
    let code = number_at(index.codes_of(*column), class_in(column.table, line));
    number_at(part.as_slice(), code)
}

/// What all group columns add, modulo 2^64.
fn parts_of_line(
    index: &FirstRows,
    columns: &[Column],
    parts: &[Items<u32>],
    line: &ScannedLine,
) -> u64
    ensures { result ≡ parts_of_line index.now columns.now parts.now line.now % 2 ^ 64 }
{
    let mut group = 0u64;
    for at in 0..columns.len().min(parts.len()) {
        let column = &columns[at];
        let part = &parts[at];
        let added = part_of_line(index, column, part, line);
        group = group.wrapping_add(u64::from(added));
    }
    group
}

/// The number of a line's group; one group stands for all where they are summed up apart.
pub fn group_of_line(index: &FirstRows, ready: &Ready, line: &ScannedLine) -> u64
    ensures { result ≡ group_of_line index.now ready.now line.now }
{
    match &ready.groups.parts {
        Parts::Narrow(parts) => parts_of_line(index, ready.plan.groups.as_slice(), parts, line),
        Parts::Wide(_) => 0,
    }
}

/// What a line adds to the measure.
fn gain(measure: Measure, line: &ScannedLine) -> u64
    ensures { result ≡ gain_in measure line.now }
{
    match measure {
        Measure::PriceTimesDiscount => u64::from(line.price) * u64::from(line.terms % 16),
        Measure::Revenue => u64::from(line.revenue),
        Measure::Profit => u64::from(line.revenue),
        Measure::Quantity => u64::from(line.terms / 16),
        Measure::ExtendedPrice => u64::from(line.price),
        Measure::SupplyCost => u64::from(line.cost),
        Measure::Lines => 1,
    }
}

/// What it takes away from the measure.
fn loss(measure: Measure, line: &ScannedLine) -> u64
    ensures { result ≡ loss_in measure line.now }
{
    match measure {
        Measure::PriceTimesDiscount => 0,
        Measure::Revenue => 0,
        Measure::Profit => u64::from(line.cost),
        Measure::Quantity => 0,
        Measure::ExtendedPrice => 0,
        Measure::SupplyCost => 0,
        Measure::Lines => 0,
    }
}

/// What adds an amount, or takes it off, modulo 2^64.
fn signed(amount: u64, comes: bool) -> u64
    ensures { IsSigned comes amount result }
{
    if comes {
        return amount;
    }
    if amount == 0 {
        return 0;
    }
    u64::MAX - amount + 1
}

/// What a line that comes or goes changes of the three numbers of its group, modulo 2^64.
#[derive(Clone, Copy)]
pub struct Change {
    pub count: u64,
    pub gain: u64,
    pub loss: u64,
}

/// What a line changes.
pub fn change_of(measure: Measure, line: &ScannedLine, comes: bool) -> Change
    ensures { IsChange measure line.now comes result.count result.gain result.loss }
{
    Change {
        count: signed(1, comes),
        gain: signed(gain(measure, line), comes),
        loss: signed(loss(measure, line), comes),
    }
}
