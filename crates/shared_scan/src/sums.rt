//! The rows of questions from their totals.
ghost use Rattle.std.specs.Prelude.{◌≡◌, ℕ, List, ◌<◌, ◌≤◌, ◌^◌, ◌-ℤ◌, pos, IfOk, length, slice_index, slice_index_or};
ghost use Rattle.std.specs.Prelude.{vec_len};
ghost use Rattle.scan_kernel.specs.Masks.{questions_a_pass};
ghost use Rattle.scan_kernel.specs.Groups.{counts_of, size_of};
ghost use Rattle.scan_kernel.specs.Scan.{AnswersLines};
ghost use Rattle.ssb_questions.specs.Plan.{OrdersAllGroups};
ghost use Rattle.ssb_questions.specs.Queries.{plan_over};
ghost use Rattle.ssb_questions.specs.declared.query.Query.{Query};
ghost use Rattle.ssb_questions.specs.declared.value.Value.{Value as Constant};
ghost use Rattle.scan_kernel.specs.Places.{CanSearch};
ghost use Rattle.shared_scan.specs.TotalRows.{AreSmall, FitGroups, AreDenseRows, CanAnswer, CanAnswerAll, AreRowsOf};
ghost use Rattle.shared_scan.specs.TotalRows.{AreBatchRows};

use crate::parts::Parts;
use crate::ready::Ready;
use crate::scan::Scan;
use crate::sparse::sparse_rows;
use scan_kernel::{Totals, answer_rows};
use ssb_answers::{Plan, ResultRow, Rows, Value};
use ssb_schema::Items;
use std::alloc::{AllocError, Global};

/// A gain less a loss.
pub fn difference(gain: u64, loss: u64) -> i64
    requires gain { gain < 2 ^ 63 }
    requires loss { loss < 2 ^ 63 }
    ensures { result ≡ pos gain -ℤ pos loss }
{
    gain as i64 - loss as i64
}

/// What the lines of each group add to the measure, less what they take away.
fn differences(alloc: Global, gains: &[u64], losses: &[u64]) -> Result<Vec<i64>, AllocError>
    requires len { length losses.now ≡ length gains.now }
    requires gains { (g : ℕ) → slice_index gains.now g < 2 ^ 63 }
    requires losses { (g : ℕ) → slice_index losses.now g < 2 ^ 63 }
    ensures len { IfOk result (λ v. vec_len v ≡ length gains.now) }
    ensures each { IfOk result (λ v. (g : ℕ) → g < length gains.now
        → slice_index_or v.items g (pos 0) ≡ pos (slice_index gains.now g) -ℤ pos (slice_index losses.now g)) }
{
    let mut sums = Vec::with_capacity(alloc, gains.len())?;
    for group in 0..gains.len() {
        sums.push(difference(gains[group], losses[group]))?;
    }
    Ok(sums)
}

/// The rows of a plan from the totals of its question, where each group column lists its values by code.
fn rows_of(
    alloc: Global,
    plan: &Plan,
    columns: &[Items<Value>],
    totals: &Totals,
) -> Result<Vec<ResultRow>, AllocError>
    requires ordered { OrdersAllGroups plan.now }
    requires columns { length columns.now ≡ length plan.now.groups }
    requires counts { vec_len totals.now.counts ≡ size_of (counts_of columns.now) }
    requires small { AreSmall totals.now }
    ensures { (question : Query × List Constant) → plan.now ≡ plan_over question.0 question.1
        → IfOk result (λ rows. AnswersLines question columns.now (λ g. slice_index totals.now.counts.items g)
        (λ g. pos (slice_index totals.now.gains.items g) -ℤ pos (slice_index totals.now.losses.items g)) rows.items) }
{
    let sums = differences(alloc, &totals.gains, &totals.losses)?;
    let rows = answer_rows(alloc, plan, columns, &totals.counts, &sums)?;
    Ok(rows)
}

/// Each number is one of 64 bits.
fn fit_64_bits(numbers: &[u64])
    ensures { (g : ℕ) → slice_index numbers.now g < 2 ^ 64 }
{}

/// The rows of a question from totals that have a number for each of its groups.
fn dense_rows(alloc: Global, ready: &Ready, totals: &Totals) -> Result<Vec<ResultRow>, AllocError>
    requires plan { ready.now.plan ≡ plan_over ready.now.question.0 ready.now.question.1 }
    requires columns { vec_len ready.now.groups.columns ≡ length ready.now.plan.groups }
    requires fit { FitGroups ready.now totals.now }
    ensures { IfOk result (λ rows. AreDenseRows ready.now totals.now rows.items) }
{
    fit_64_bits(&totals.counts);
    fit_64_bits(&totals.gains);
    fit_64_bits(&totals.losses);
    rows_of(alloc, &ready.plan, &ready.groups.columns, totals)
}

/// A question that is made ready, with its rows.
pub fn question_rows(
    alloc: Global,
    scan: Scan<'_>,
    ready: &Ready,
    number: usize,
    totals: &Totals,
) -> Result<Rows, AllocError>
    requires few { number < questions_a_pass }
    requires covers { CanSearch scan.lines scan.masks.now }
    requires can { CanAnswer scan.index.now scan.lines scan.masks.now number ready.now totals.now }
    ensures { IfOk result (AreRowsOf scan.entry.index.now scan.entry.lines scan.entry.masks.now number ready.now
        totals.now) }
{
    let list = match &ready.groups.parts {
        Parts::Narrow(_) => dense_rows(alloc, ready, totals)?,
        Parts::Wide(parts) => sparse_rows(alloc, scan, ready, parts, number)?,
    };
    Ok(Rows {
        question: ready.question.share()?,
        list: Items::from_vec(list),
    })
}

/// Each question of a batch, with its rows.
pub fn batch_rows(
    alloc: Global,
    scan: Scan<'_>,
    all: &[Ready],
    totals: &[Totals],
) -> Result<Vec<Rows>, AllocError>
    requires len { length totals.now ≡ length all.now }
    requires few { length all.now ≤ questions_a_pass }
    requires covers { CanSearch scan.lines scan.masks.now }
    requires can { CanAnswerAll scan.index.now scan.lines scan.masks.now all.now totals.now }
    ensures { IfOk result (λ rows. AreBatchRows scan.entry.index.now scan.entry.lines scan.entry.masks.now all.now
        totals.now rows.items) }
{
    let mut rows = Vec::with_capacity(alloc, all.len())?;
    for number in 0..all.len() {
        rows.push(question_rows(alloc, scan, &all[number], number, &totals[number])?)?;
    }
    Ok(rows)
}
