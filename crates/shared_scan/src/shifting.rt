//! The totals of questions with a line more, or a line less.
ghost use Rattle.std.specs.Prelude.{◌≡◌, ◌<◌, ◌≤◌, length};
ghost use Rattle.scan_kernel.specs.Masks.{questions_a_pass};
ghost use Rattle.scan_kernel.specs.Sums.{add_at};
ghost use Rattle.shared_scan.specs.Standing.{Shifts, ShiftsLine, ShiftsWhere, ShiftsBatch, group_of_line};

use crate::numbering::has_bit;
use crate::of_line::{Change, change_of, group_of_line, line_mask};
use crate::ready::Ready;
use dimension_index::FirstRows;
use fact_columns::ScannedLine;
use scan_kernel::{Masks, Totals};

/// Adds to the number at a place, modulo 2^64.
fn add_at(numbers: &mut [u64], at: usize, delta: u64)
    requires { at < length numbers.old }
    ensures { numbers.new ≡ add_at numbers.old at delta }
{
    numbers[at] = numbers[at].wrapping_add(delta);
}

/// Adds to the number of a group, if there is one, modulo 2^64.
fn shift(numbers: &mut [u64], group: u64, delta: u64)
    ensures { Shifts group delta numbers.old numbers.new }
{
    if group >= numbers.len() as u64 {
        return;
    }
    add_at(numbers, group as usize, delta);
}

/// Changes the three numbers of a group.
fn shift_group(totals: &mut Totals, group: u64, change: Change)
    ensures counts { Shifts group change.count totals.old.counts.items totals.new.counts.items }
    ensures gains { Shifts group change.gain totals.old.gains.items totals.new.gains.items }
    ensures losses { Shifts group change.loss totals.old.losses.items totals.new.losses.items }
{
    shift(&mut totals.counts, group, change.count);
    shift(&mut totals.gains, group, change.gain);
    shift(&mut totals.losses, group, change.loss);
}

/// The totals of a question that takes a line, with the line more, or less.
fn shift_question(
    index: &FirstRows,
    ready: &Ready,
    line: &ScannedLine,
    comes: bool,
    totals: &mut Totals,
)
    ensures { ShiftsLine index.now ready.now line.now comes totals.old totals.new }
{
    let group = group_of_line(index, ready, line);
    let change = change_of(ready.plan.measure, line, comes);
    shift_group(totals, group, change);
}

/// The same, where it is said whether the question takes the line.
fn shift_where(
    index: &FirstRows,
    ready: &Ready,
    line: &ScannedLine,
    comes: bool,
    is_taken: bool,
    totals: &mut Totals,
)
    ensures { ShiftsWhere is_taken index.now ready.now line.now comes totals.old totals.new }
{
    if is_taken {
        shift_question(index, ready, line, comes, totals);
    }
}

/// The totals of a batch with a line more, or less.
pub fn shift_line(
    index: &FirstRows,
    masks: &Masks,
    all: &[Ready],
    line: &ScannedLine,
    comes: bool,
    totals: &mut [Totals],
)
    requires few { length all.now ≤ questions_a_pass }
    requires one_each { length totals.old ≡ length all.now }
    ensures len { length totals.new ≡ length totals.old }
    ensures shifted { ShiftsBatch index.now masks.now all.now line.now comes totals.old totals.new }
{
    let mask = line_mask(masks, line);
    if mask == 0 {
        return;
    }
    for number in 0..all.len() {
        let is_taken = has_bit(mask, number);
        let sums = &mut totals[number];
        shift_where(index, &all[number], line, comes, is_taken, sums);
    }
}
