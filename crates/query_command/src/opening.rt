//! The answers over the lines of a base, by passes over their columns.

ghost use Rattle.std.specs.Prelude.{◌≡◌, ◌≤◌, [], List, IfOk, length, map};
ghost use Rattle.fact_columns.specs.Stored.{columns_state};
ghost use Rattle.row_store.specs.History.{CommitRecord};
ghost use Rattle.row_store.specs.State.{StandsFor, state_of};
ghost use Rattle.scan_kernel.specs.Masks.{questions_a_pass};
ghost use Rattle.shared_scan.specs.Answers.{AreSnapshot, answers_after};
ghost use Rattle.query_command.specs.Reported.{answers_over, opened};

use crate::stopwatch::{Stopwatch, TimedStep};
use base_source::SourcedBase;
use dimension_index::index_of;
use fact_columns::Columns;
use scan_kernel::QUESTIONS_A_PASS;
use shared_scan::PreparedBatch;
use ssb_answers::{Answer, Rows};
use ssb_base::Base;
use ssb_questions::Question;
use std::alloc::{AllocError, Global};
use std::hash::RandomState;
use std::sync::Arc;
use std::thread::Threads;
use std::time::Clock;

// The lines of a base in columns.
fn columns_of<R: Threads + Sync + Clock>(
    rt: &R,
    alloc: Global,
    hashing: RandomState,
    base: Base,
    watch: &mut Stopwatch,
) -> Result<Columns, AllocError>
    ensures loaded { IfOk result (λ columns. columns_state columns ≡ state_of base []) }
    ensures snapshot { IfOk result (λ columns. AreSnapshot columns) }
{
    base.soundness();
    let base = Arc::new(alloc, base)?;
    let index = index_of(alloc, &base)?;
    watch.lap(rt, TimedStep::Index);
    let columns = Columns::new(rt, alloc, index, hashing)?;
    watch.lap(rt, TimedStep::Columns);
    Ok(columns)
}

// The rows of the questions, by one pass over the columns.
fn rows_of<R: Threads + Sync + Clock>(
    rt: &R,
    alloc: Global,
    columns: &Columns,
    questions: &[Question],
    watch: &mut Stopwatch,
) -> Result<Vec<Rows>, AllocError>
    requires few { length questions.now ≤ questions_a_pass }
    requires snapshot { AreSnapshot columns.now }
    ensures { (history : List CommitRecord) → StandsFor (columns_state columns.now) history
        → IfOk result (λ rows. rows.items ≡ answers_after columns.now.base history questions.now) }
{
    let batch = PreparedBatch::new(alloc, columns, questions)?;
    watch.lap(rt, TimedStep::Preparation);
    let rows = batch.scan(rt, alloc);
    watch.lap(rt, TimedStep::Scan);
    rows
}

// The rows of each question, in passes over the columns.
fn all_rows<R: Threads + Sync + Clock>(
    rt: &R,
    alloc: Global,
    columns: &Columns,
    questions: &[Question],
    watch: &mut Stopwatch,
) -> Result<Vec<Rows>, AllocError>
    requires snapshot { AreSnapshot columns.now }
    ensures { (history : List CommitRecord) → StandsFor (columns_state columns.now) history
        → IfOk result (λ rows. rows.items ≡ answers_after columns.now.base history questions.now) }
{
    let mut rows = Vec::new(alloc);
    let mut rest = questions;
    while !rest.is_empty() {
        let (pass, later) = rest.split_at(rest.len().min(QUESTIONS_A_PASS));
        let mut found = rows_of(rt, alloc, columns, pass, watch)?;
        rows.append(&mut found)?;
        rest = later;
    }
    Ok(rows)
}

// Rows as the answer after so many commits.
fn opened(after: u64, rows: Rows) -> Answer
    ensures { result ≡ opened after rows }
{
    Answer::Rows {
        question: rows.question,
        at: after,
        rows: rows.list,
    }
}

fn answers_of(alloc: Global, after: u64, rows: Vec<Rows>) -> Result<Vec<Answer>, AllocError>
    ensures { IfOk result (λ answers. answers.items ≡ map (opened after) rows.items) }
{
    rows.into_iter()
        .map(|rows| opened(after, rows))
        .collect(alloc)
}

/// The answers to questions over the lines of a base, by a pass for each sixteen of them, by as many threads as there
/// are processors. The orders of the columns are found by keys that are hashed with `hashing`.
pub fn opening_answers<R: Threads + Sync + Clock>(
    rt: &R,
    alloc: Global,
    hashing: RandomState,
    sourced: SourcedBase,
    questions: &[Question],
    watch: &mut Stopwatch,
) -> Result<Vec<Answer>, AllocError>
    ensures { IfOk result (λ answers. answers.items ≡ answers_over sourced.base sourced.after questions.now) }
{
    let columns = columns_of(rt, alloc, hashing, sourced.base, watch)?;
    let rows = all_rows(rt, alloc, &columns, questions, watch)?;
    answers_of(alloc, sourced.after, rows)
}
