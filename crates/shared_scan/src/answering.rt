//! The answers to questions over columns.
ghost use Rattle.std.specs.Prelude.{◌≡◌, ◌≤◌, List, IfOk, length};
ghost use Rattle.row_store.specs.History.{CommitRecord};
ghost use Rattle.row_store.specs.State.{StandsFor};
ghost use Rattle.fact_columns.specs.Stored.{columns_state};
ghost use Rattle.scan_kernel.specs.Masks.{questions_a_pass};
ghost use Rattle.shared_scan.specs.Answers.{AreSnapshot, answers_after};

use crate::prepared::PreparedBatch;
use fact_columns::Columns;
use ssb_answers::{Question, Rows};
use std::alloc::{AllocError, Global};
use std::thread::Threads;

/// For each of at most 16 questions, in order, its rows as if it had been alone: in one pass over the columns, by as
/// many threads as there are processors. Fails for want of memory alone.
pub fn answer<R: Threads + Sync>(
    rt: &R,
    alloc: Global,
    columns: &Columns,
    questions: &[Question],
) -> Result<Vec<Rows>, AllocError>
    requires few { length questions.now ≤ questions_a_pass }
    requires snapshot { AreSnapshot columns.now }
    ensures answers { (history : List CommitRecord) → StandsFor (columns_state columns.now) history
        → IfOk result (λ rows. rows.items ≡ answers_after columns.now.base history questions.now) }
{
    let batch = PreparedBatch::new(alloc, columns, questions)?;
    batch.scan(rt, alloc)
}
