//! The totals of a batch over all places, in as many threads as there are processors.
ghost use Rattle.std.specs.Prelude.{◌≡◌, ℕ, ◌<◌, ◌≤◌, ◌^◌, true, All, IfOk, IsPermutation, length, slice_index_or, vec_len};
ghost use Rattle.std.specs.List.{range_with_len};
ghost use Rattle.scan_kernel.specs.Masks.{questions_a_pass};
ghost use Rattle.scan_kernel.specs.Places.{CanSearch};
ghost use Rattle.scan_kernel.specs.Parts.{MergesTotals, MergesBatch};
ghost use Rattle.scan_kernel.specs.Sums.{Merges};
ghost use Rattle.scan_kernel.specs.Taken.{IsOfParts, IsOfPartsOk};
ghost use Rattle.scan_kernel.specs.declared.totals.Totals.{Totals};
ghost use Rattle.scan_kernel.specs.Totals.{CanScan, CanSumAll, AreBatchTotals};

use crate::columns::{Grouping, LineColumns};
use crate::input::ScanInput;
use crate::masks::Masks;
use crate::range::{no_batch_totals, range_totals};
use crate::taking::{Taken, part_count, take_in_threads};
use crate::totals::Totals;
use crate::wanted::all_wanted;
use std::alloc::{AllocError, Global};
use std::thread::Threads;

/// Adds each number to the one at the same place, modulo 2^64.
fn merge_column(into: &mut [u64], from: &[u64])
    requires { length from.now ≡ length into.old }
    ensures { Merges into.old from.now into.new }
{
    for group in 0..into.len() {
        into[group] = into[group].wrapping_add(from[group]);
    }
}

/// Adds the totals of one question over other places.
fn merge(into: &mut Totals, from: &Totals)
    requires { vec_len from.now.counts ≡ vec_len into.old.counts }
    ensures size { vec_len into.new.counts ≡ vec_len into.old.counts }
    ensures merged { MergesTotals into.old from.now into.new }
{
    merge_column(&mut into.counts, &from.counts);
    merge_column(&mut into.gains, &from.gains);
    merge_column(&mut into.losses, &from.losses);
}

/// Adds the totals of each question over other places.
fn merge_batch(into: &mut [Totals], from: &[Totals])
    requires all { length from.now ≡ length into.old }
    requires sizes { (k : ℕ) (r t : Totals) → k < length into.old
        → vec_len (slice_index_or from.now k r).counts ≡ vec_len (slice_index_or into.old k t).counts }
    ensures all { length into.new ≡ length into.old }
    ensures merged { MergesBatch (length into.old) into.old from.now into.new }
{
    for number in 0..into.len() {
        merge(&mut into[number], &from[number]);
    }
}

// What the threads took, added up.
fn join_taken(
    alloc: Global,
    input: ScanInput<'_>,
    takers: &[Result<Taken, AllocError>],
) -> Result<Taken, AllocError>
    requires scan { CanScan input.lines.now input.masks.now input.groupings.now }
    requires takers { All (IsOfPartsOk input.lines.now input.masks.now input.groupings.now) takers.now }
    ensures { IfOk result (IsOfParts input.entry.lines.now input.entry.masks.now input.entry.groupings.now) }
{
    let mut parts = Vec::new(alloc);
    let mut totals = no_batch_totals(alloc, input.groupings)?;
    for taker in takers {
        match taker {
            Ok(taken) => {
                parts.extend_from_slice(&taken.parts)?;
                merge_batch(&mut totals, &taken.totals);
            }
            Err(error) => return Err(*error),
        }
    }
    Ok(Taken { parts, totals })
}

// Whether these are all numbers below a count, each once.
fn are_all(mut parts: Vec<u32>, count: u32) -> bool
    ensures { result ≡ true → IsPermutation parts.items (range_with_len 0 count) }
{
    parts.sort_unstable();
    if parts.len() != count as usize {
        return false;
    }
    for number in 0..count {
        if parts[number as usize] != number {
            return false;
        }
    }
    true
}

/// The totals of each question over all places, in as many threads as there are processors.
pub fn parallel_totals(
    rt: &(impl Threads + Sync),
    alloc: Global,
    lines: &LineColumns<'_>,
    masks: &Masks,
    groupings: &[Grouping<'_>],
) -> Result<Vec<Totals>, AllocError>
    requires few { length groupings.now ≤ questions_a_pass }
    requires small { length lines.now.customer.now < 2 ^ 32 }
    requires covers { CanSearch lines.now masks.now }
    requires can_sum { CanSumAll lines.now masks.now groupings.now }
    ensures { IfOk result (λ v. AreBatchTotals lines.now masks.now groupings.now
        (range_with_len 0 (length lines.now.customer.now)) v.items) }
{
    let places = lines.customer.len();
    let wanted = all_wanted(alloc, lines, masks)?;
    let input = ScanInput {
        lines,
        masks,
        groupings,
        wanted: &wanted,
    };
    let takers = take_in_threads(rt, alloc, input)?;
    let Taken { parts, totals } = join_taken(alloc, input, &takers)?;
    if are_all(parts, part_count(places)) {
        return Ok(totals);
    }
    // No clause follows the threads: had they left a part out, or taken one twice, one thread would add all up here.
    range_totals(alloc, input, 0, places)
}
