//! A batch of questions made ready.
ghost use Rattle.std.specs.Prelude.{◌≡◌, ◌≤◌, List, IfOk, length};
ghost use Rattle.row_store.specs.History.{CommitRecord};
ghost use Rattle.row_store.specs.State.{StandsFor};
ghost use Rattle.fact_columns.specs.Stored.{columns_state};
ghost use Rattle.scan_kernel.specs.Masks.{questions_a_pass};
ghost use Rattle.shared_scan.specs.Answers.{AreSnapshot, answers_after};

use crate::batch_masks::batch_masks;
use crate::over_lines::scan_lines;
use crate::prepare::{plans_of, prepare_question};
use crate::ready::Ready;
use fact_columns::Columns;
use scan_kernel::Masks;
use ssb_answers::{Question, Rows};
use std::alloc::{AllocError, Global};
use std::marker::Model;
use std::thread::Threads;

/// At most 16 questions made ready for one pass over columns. Contracts see the columns and the questions.
#[derive(Drop)]
pub struct PreparedBatch<'a> {
    pub(crate) columns: &'a Columns,
    pub(crate) masks: Masks,
    pub(crate) questions: Vec<Ready>,
}

impl<'a> Model for PreparedBatch<'a> {
    ghost use Rattle.shared_scan.specs.Answers.{Prepared};
    ghost use Rattle.shared_scan.specs.PreparedBatch.{prepared, IsPrepared};

    ghost Value = { Prepared };

    ghost view = { prepared };

    ghost invariant = { IsPrepared };
}

impl<'a> PreparedBatch<'a> {
    /// The questions, made ready over the index of the columns.
    pub fn new(
        alloc: Global,
        columns: &'a Columns,
        questions: &[Question],
    ) -> Result<PreparedBatch<'a>, AllocError>
        requires few { length questions.now ≤ questions_a_pass }
        requires snapshot { AreSnapshot columns.now }
        ensures prepared { IfOk result (λ batch. batch ≡ record { columns = columns.now; questions = questions.now }) }
    {
        columns.soundness();
        let rows = columns.index().first_rows();
        rows.soundness();
        let plans = plans_of(alloc, questions)?;
        let masks = batch_masks(alloc, rows, &plans)?;
        let mut all = Vec::with_capacity(alloc, questions.len())?;
        for plan in plans {
            let number = all.len();
            all.push(prepare_question(alloc, rows, &masks, &questions[number], plan, number)?)?;
        }
        Ok(PreparedBatch {
            columns,
            masks,
            questions: all,
        })
    }

    /// For each question, in order, its rows as if it had been alone, by as many threads as there are processors. Fails
    /// for want of memory alone.
    pub fn scan<R: Threads + Sync>(&self, rt: &R, alloc: Global) -> Result<Vec<Rows>, AllocError>
        ensures answers { (history : List CommitRecord) → StandsFor (columns_state self.now.columns) history
            → IfOk result (λ rows. rows.items ≡ answers_after self.now.columns.base history self.now.questions) }
    {
        scan_lines(rt, alloc, self.columns.line_columns(), self)
    }
}
