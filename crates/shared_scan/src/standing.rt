//! Standing questions: their totals follow the live lines, so that to answer one takes no pass over the columns.
ghost use Rattle.std.specs.Prelude.{◌≡◌, ℕ, ◌<◌, ◌≤◌, List, All, Err, IfOk, IfSome, Some, length, position, slice_get};
ghost use Rattle.ssb_questions.specs.declared.query.Query.{Query as Asked};
ghost use Rattle.ssb_questions.specs.declared.value.Value.{Value as Constant};
ghost use Rattle.ssb_schema.specs.Facts.{facts_of};
ghost use Rattle.ssb_base.specs.Base.{Tables};
ghost use Rattle.row_store.specs.History.{CommitRecord, lines_after};
ghost use Rattle.row_store.specs.State.{StandsFor};
ghost use Rattle.ssb_answers.specs.Answer.{answer_of};
ghost use Rattle.fact_columns.specs.declared.scanned_line.ScannedLine.{ScannedLine as PlainLine};
ghost use Rattle.fact_columns.specs.Stored.{columns_state};
ghost use Rattle.scan_kernel.specs.Masks.{questions_a_pass};
ghost use Rattle.shared_scan.specs.Answers.{AreSnapshot};
ghost use Rattle.shared_scan.specs.Batch.{questions_of};
ghost use Rattle.fact_columns.specs.Watching.{live_lines};
ghost use Rattle.shared_scan.specs.GroupCounts.{HasFewGroups, IsFirstOfMany};
ghost use Rattle.shared_scan.specs.Standing.{HasNumbersOf, HaveNumbersOf, has_many_numbers};
ghost use Rattle.shared_scan.specs.Follows.{Follows, FollowsOver, Changes, position_in};
ghost use Rattle.shared_scan.specs.declared.standing_error.StandingError.TheVariants.{TooManyGroups};

use crate::grouping::{grouping, groupings};
use crate::parts::MOST_DENSE;
use crate::prepared::PreparedBatch;
use crate::ready::Ready;
use crate::scan::Scan;
use crate::shifting::shift_line;
use crate::standing_error::StandingError;
use crate::sums::question_rows;
use dimension_index::DimIndex;
use fact_columns::{Columns, ScannedLine, Watch};
use scan_kernel::{Masks, QUESTIONS_A_PASS, Totals, parallel_totals};
use ssb_answers::{Question, Rows};
use std::alloc::{AllocError, Global};
use std::sync::Arc;
use std::thread::Threads;

/// Questions that are made ready over an index.
#[derive(Drop)]
pub struct ReadyBatch {
    index: Arc<DimIndex>,
    masks: Masks,
    questions: Vec<Ready>,
}

/// At most 16 questions that are made ready, each with its totals over some lines.
pub struct Standing {
    batch: Arc<ReadyBatch>,
    totals: Vec<Totals>,
}

impl Drop for Standing {
    fn drop(self) {
        let Standing {
            batch: _,
            totals: _,
        } = self;
    }
}

// The same numbers.
fn copy_numbers(alloc: Global, totals: &Totals) -> Result<Totals, AllocError>
    ensures { IfOk result (HasNumbersOf totals.now) }
{
    Ok(Totals {
        counts: totals.counts.to_vec(alloc)?,
        gains: totals.gains.to_vec(alloc)?,
        losses: totals.losses.to_vec(alloc)?,
    })
}

// The same totals.
fn copy_totals(alloc: Global, totals: &[Totals]) -> Result<Vec<Totals>, AllocError>
    ensures { IfOk result (λ copy. HaveNumbersOf totals.now copy.items) }
{
    let mut copy = Vec::with_capacity(alloc, totals.len())?;
    for one in totals {
        copy.push(copy_numbers(alloc, one)?)?;
    }
    Ok(copy)
}

impl Standing {
    /// The questions with their totals over the live lines of columns, by one pass. The first question that may have
    /// more than 65,536 groups is an error.
    pub fn new<R: Threads + Sync>(
        rt: &R,
        alloc: Global,
        index: Arc<DimIndex>,
        columns: &Columns,
        questions: &[Question],
    ) -> Result<Standing, StandingError>
        requires few { length questions.now ≤ questions_a_pass }
        requires base { index.value ≡ columns.now.base }
        requires snapshot { AreSnapshot columns.now }
        ensures questions { IfOk result (λ standing. questions_of standing.batch.value.questions.items
            ≡ questions.now) }
        ensures follows { IfOk result (λ standing. FollowsOver standing columns.now.base
            (live_lines columns.now.places)) }
        ensures few_groups { IfOk result (λ _. All (HasFewGroups columns.now.base) questions.now) }
        ensures too_many { (place : ℕ) → result ≡ Err (TooManyGroups place)
            → IsFirstOfMany columns.now.base questions.now place }
    {
        let standing = Standing::made(rt, alloc, index, columns, questions)?;
        match standing.first_of_many_groups() {
            Some(number) => Err(StandingError::TooManyGroups(number)),
            None => Ok(standing),
        }
    }

    // The place of the first question that is numbered for more than 65,536 groups.
    fn first_of_many_groups(&self) -> Option<usize>
        ensures { result ≡ position has_many_numbers self.now.batch.value.questions.items }
    {
        let batch: &ReadyBatch = &self.batch;
        batch
            .questions
            .iter()
            .position(|ready| ready.groups.size > MOST_DENSE)
    }

    // The questions with their totals, however many groups they have.
    fn made<R: Threads + Sync>(
        rt: &R,
        alloc: Global,
        index: Arc<DimIndex>,
        columns: &Columns,
        questions: &[Question],
    ) -> Result<Standing, AllocError>
        requires few { length questions.now ≤ questions_a_pass }
        requires base { index.value ≡ columns.now.base }
        requires snapshot { AreSnapshot columns.now }
        ensures base { IfOk result (λ standing. standing.batch.value.index.value ≡ columns.now.base) }
        ensures questions { IfOk result (λ standing. questions_of standing.batch.value.questions.items
            ≡ questions.now) }
        ensures follows { IfOk result (λ standing. Follows standing (live_lines columns.now.places)) }
    {
        let batch = PreparedBatch::new(alloc, columns, questions)?;
        index.base().soundness();
        let rows = index.first_rows();
        rows.soundness();
        let lines = columns.line_columns();
        let totals = {
            let groupings = groupings(alloc, rows, &lines, &batch.questions)?;
            parallel_totals(rt, alloc, &lines, &batch.masks, &groupings)?
        };
        let batch = ReadyBatch {
            index,
            masks: batch.masks,
            questions: batch.questions,
        };
        Ok(Standing {
            batch: Arc::new(alloc, batch)?,
            totals,
        })
    }

    /// The same questions, which both share from then on, and the same totals.
    pub fn copy(&self, alloc: Global) -> Result<Standing, AllocError>
        ensures same { IfOk result (λ copy. copy.batch.value ≡ self.now.batch.value) }
        ensures follows { (base : Tables) (lines : List PlainLine) → FollowsOver self.now base lines
            → IfOk result (λ copy. FollowsOver copy base lines) }
    {
        Ok(Standing {
            batch: Arc::try_clone(&self.batch)?,
            totals: copy_totals(alloc, &self.totals)?,
        })
    }

    // The totals with a line more, or less.
    fn change(&mut self, line: &ScannedLine, comes: bool)
        ensures { Changes self.old self.new line.now comes }
    {
        let batch: &ReadyBatch = &self.batch;
        if batch.questions.len() > QUESTIONS_A_PASS || self.totals.len() != batch.questions.len() {
            return;
        }
        let rows = batch.index.first_rows();
        shift_line(
            rows,
            &batch.masks,
            &batch.questions,
            line,
            comes,
            &mut self.totals,
        );
    }

    /// Where a question stands among these: the first place, from 0, of one that is equal.
    pub fn position(&self, question: &Question) -> Option<usize>
        ensures position { result ≡ position_in self.now question.now }
        ensures within { IfSome result (λ number. number < length self.now.batch.value.questions.items) }
        ensures same { IfSome result (λ number. slice_get (questions_of self.now.batch.value.questions.items) number
            ≡ Some question.now) }
    {
        let batch: &ReadyBatch = &self.batch;
        batch
            .questions
            .iter()
            .position(|ready| ready.question == *question)
    }

    /// The rows of a question by the totals that follow the live lines of columns.
    pub fn rows(&self, alloc: Global, columns: &Columns, number: usize) -> Result<Rows, AllocError>
        requires there { number < length self.now.batch.value.questions.items }
        requires snapshot { AreSnapshot columns.now }
        requires follows { FollowsOver self.now columns.now.base (live_lines columns.now.places) }
        ensures answer { (history : List CommitRecord) (question : Asked × List Constant)
            → StandsFor (columns_state columns.now) history
            → slice_get (questions_of self.now.batch.value.questions.items) number ≡ Some question
            → IfOk result (λ rows. rows ≡ record {
              question = question;
              list = answer_of question columns.now.base.dimensions (facts_of (lines_after columns.now.base history));
            }) }
    {
        columns.soundness();
        let batch: &ReadyBatch = &self.batch;
        batch.index.base().soundness();
        let rows = batch.index.first_rows();
        rows.soundness();
        let lines = columns.line_columns();
        let ready = &batch.questions[number];
        let _grouping = grouping(alloc, rows, &lines, ready)?;
        let scan = Scan {
            index: rows,
            lines,
            masks: &batch.masks,
        };
        question_rows(alloc, scan, ready, number, &self.totals[number])
    }
}

impl Watch for Standing {
    ghost use Rattle.shared_scan.specs.Follows.{FollowsOver};

    ghost follows = { FollowsOver };

    fn come(&mut self, line: &ScannedLine) {
        self.change(line, true);
    }

    fn go(&mut self, line: &ScannedLine) {
        self.change(line, false);
    }
}
