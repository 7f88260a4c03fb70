//! Standing questions, in batches.
ghost use Rattle.std.specs.Prelude.{◌≡◌, ℕ, ◌==◌, List, All, Err, IfOk, IfSome, count_by, is_some, vec_len};
ghost use Rattle.ssb_base.specs.Base.{Tables};
ghost use Rattle.ssb_schema.specs.Facts.{facts_of};
ghost use Rattle.ssb_answers.specs.Answer.{answer_of};
ghost use Rattle.row_store.specs.History.{CommitRecord, lines_after};
ghost use Rattle.row_store.specs.State.{StandsFor};
ghost use Rattle.fact_columns.specs.declared.scanned_line.ScannedLine.{ScannedLine as PlainLine};
ghost use Rattle.fact_columns.specs.Stored.{columns_state};
ghost use Rattle.fact_columns.specs.Watching.{IsOneMore, live_lines};
ghost use Rattle.shared_scan.specs.Answers.{AreSnapshot};
ghost use Rattle.shared_scan.specs.Follows.{FollowsOver};
ghost use Rattle.shared_scan.specs.GroupCounts.{HasFewGroups, IsFirstOfMany};
ghost use Rattle.shared_scan.specs.declared.standing.Standing.{Standing as Follower};
ghost use Rattle.shared_scan.specs.declared.standing_error.StandingError.TheVariants.{TooManyGroups};
ghost use Rattle.standing_columns.specs.Standing.{AllFollow, each_once, place_of, questions_in, stands};

use crate::once::each_once;
use dimension_index::DimIndex;
use fact_columns::{Columns, ScannedLine, Watch};
use scan_kernel::QUESTIONS_A_PASS;
use shared_scan::{Standing, StandingError};
use ssb_answers::{Question, Rows};
use std::alloc::{AllocError, Global};
use std::sync::Arc;
use std::thread::Threads;

/// Questions that stand, with their totals over some lines. As a watch they follow the lines that come and go.
#[derive(Drop)]
pub struct StandingQuestions {
    batches: Vec<Standing>,
}

// The first place of a question that is equal.
fn place_of(asked: &[Question], question: &Question) -> Option<usize>
    ensures { result ≡ place_of asked.now question.now }
{
    asked.iter().position(|other| *other == *question)
}

impl StandingQuestions {
    /// The questions, of equal ones the first, with their totals over the live lines of columns, by a pass for each
    /// batch of them. The first question that has more than 65,536 groups is an error.
    pub fn new<R: Threads + Sync>(
        rt: &R,
        alloc: Global,
        index: &Arc<DimIndex>,
        columns: &Columns,
        questions: &[Question],
    ) -> Result<StandingQuestions, StandingError>
        requires base { index.now.value ≡ columns.now.base }
        requires snapshot { AreSnapshot columns.now }
        ensures questions { IfOk result (λ standing. questions_in standing.batches.items ≡ each_once questions.now) }
        ensures follow { IfOk result (λ standing. AllFollow standing columns.now.base (live_lines columns.now.places)) }
        ensures few_groups { IfOk result (λ _. All (HasFewGroups columns.now.base) questions.now) }
        ensures too_many { (place : ℕ) → result ≡ Err (TooManyGroups place)
            → IsFirstOfMany columns.now.base questions.now place }
    {
        let once = each_once(alloc, questions)?;
        let mut batches = Vec::new(alloc);
        let mut rest = once.as_slice();
        while !rest.is_empty() {
            let (batch, later) = rest.split_at(rest.len().min(QUESTIONS_A_PASS));
            match Standing::new(rt, alloc, Arc::try_clone(index)?, columns, batch) {
                Ok(standing) => batches.push(standing)?,
                Err(error) => match error {
                    StandingError::OutOfMemory => return Err(StandingError::OutOfMemory),
                    StandingError::TooManyGroups(number) => {
                        let place = place_of(questions, &batch[number]).unwrap();
                        return Err(StandingError::TooManyGroups(place));
                    }
                },
            }
            rest = later;
        }
        Ok(StandingQuestions { batches })
    }

    /// The same questions and totals.
    pub fn copy(&self, alloc: Global) -> Result<StandingQuestions, AllocError>
        ensures questions { IfOk result (λ copy. questions_in copy.batches.items
            ≡ questions_in self.now.batches.items) }
        ensures follow { (base : Tables) (lines : List PlainLine) → AllFollow self.now base lines
            → IfOk result (λ copy. AllFollow copy base lines) }
    {
        let mut batches = Vec::with_capacity(alloc, self.batches.len())?;
        for batch in &self.batches {
            batches.push(batch.copy(alloc)?)?;
        }
        Ok(StandingQuestions { batches })
    }

    /// Whether no question stands.
    pub fn is_empty(&self) -> bool
        ensures { result ≡ (vec_len self.now.batches == 0) }
    {
        self.batches.is_empty()
    }

    /// Whether a question stands.
    pub fn stands(&self, question: &Question) -> bool
        ensures { result ≡ stands self.now question.now }
    {
        self.batches
            .iter()
            .any(|batch| batch.position(question).is_some())
    }

    /// How many of these questions stand.
    pub fn count(&self, questions: &[Question]) -> usize
        ensures { result ≡ count_by (stands self.now) questions.now }
    {
        questions
            .iter()
            .filter(|question| self.stands(question))
            .count()
    }

    /// The rows of a question by its totals, which follow the live lines of columns; None where it does not stand.
    pub fn rows(
        &self,
        alloc: Global,
        columns: &Columns,
        question: &Question,
    ) -> Result<Option<Rows>, AllocError>
        requires snapshot { AreSnapshot columns.now }
        requires follow { AllFollow self.now columns.now.base (live_lines columns.now.places) }
        ensures stands { IfOk result (λ found. is_some found ≡ stands self.now question.now) }
        ensures rows { (history : List CommitRecord) → StandsFor (columns_state columns.now) history
            → IfOk result (λ found. IfSome found (λ rows. rows ≡ record {
              question = question.now;
              list = answer_of question.now columns.now.base.dimensions
                  (facts_of (lines_after columns.now.base history));
            })) }
    {
        for batch in &self.batches {
            if let Some(number) = batch.position(question) {
                return Ok(Some(batch.rows(alloc, columns, number)?));
            }
        }
        Ok(None)
    }
}

// Each batch follows a line that comes.
fn all_come(batches: &mut [Standing], line: &ScannedLine)
    ensures { (base : Tables) (fewer more : List PlainLine) → IsOneMore line.now fewer more
        → All (λ (batch : Follower). FollowsOver batch base fewer) batches.old
        → All (λ (batch : Follower). FollowsOver batch base more) batches.new }
{
    for batch in batches.iter_mut() {
        batch.come(line);
    }
}

// Each batch follows a line that goes.
fn all_go(batches: &mut [Standing], line: &ScannedLine)
    ensures { (base : Tables) (fewer more : List PlainLine) → IsOneMore line.now fewer more
        → All (λ (batch : Follower). FollowsOver batch base more) batches.old
        → All (λ (batch : Follower). FollowsOver batch base fewer) batches.new }
{
    for batch in batches.iter_mut() {
        batch.go(line);
    }
}

impl Watch for StandingQuestions {
    ghost use Rattle.standing_columns.specs.Standing.{AllFollow};

    ghost follows = { AllFollow };

    fn come(&mut self, line: &ScannedLine) {
        all_come(&mut self.batches, line);
    }

    fn go(&mut self, line: &ScannedLine) {
        all_go(&mut self.batches, line);
    }
}
