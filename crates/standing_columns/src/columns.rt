//! The columns with their standing questions, as a replica.
ghost use Rattle.std.specs.Prelude.{◌≡◌, ◌≤◌, ℕ, [], All, Err, IfOk, MatchResult, OnErr, length};
ghost use Rattle.row_store.specs.State.{state_after, state_of};
ghost use Rattle.fact_columns.specs.Stored.{columns_state};
ghost use Rattle.shared_scan.specs.Answers.{AreSnapshot};
ghost use Rattle.shared_scan.specs.GroupCounts.{HasFewGroups, IsFirstOfMany};
ghost use Rattle.shared_scan.specs.declared.standing_error.StandingError.TheVariants.{TooManyGroups};

use crate::questions::StandingQuestions;
use dimension_index::DimIndex;
use fact_columns::Columns;
use row_store::{Commit, Replica};
use shared_scan::StandingError;
use ssb_answers::Question;
use std::alloc::{AllocError, Global};
use std::hash::RandomState;
use std::marker::Model;
use std::sync::Arc;
use std::thread::Threads;

/// Columns, and the totals of standing questions over their live lines. Contracts see the columns.
pub struct StandingColumns {
    pub(crate) columns: Columns,
    pub(crate) standing: StandingQuestions,
    alloc: Global,
}

impl Drop for StandingColumns {
    fn drop(self) {
        let StandingColumns {
            columns: _,
            standing: _,
            alloc: _,
        } = self;
    }
}

impl Model for StandingColumns {
    ghost use Rattle.fact_columns.specs.Stored.{Stored};
    ghost use Rattle.standing_columns.specs.Kept.{AreKept};

    ghost Value = { Stored };

    ghost view = { λ s. s.columns };

    ghost invariant = { AreKept };
}

impl StandingColumns {
    /// The loaded lines of an index's base, no commits, and these questions, of equal ones the first, which stand from
    /// then on. The first question that has more than 65,536 groups is an error. Orders are found by keys that are
    /// hashed with `hashing`.
    pub fn loaded<R: Threads + Sync>(
        rt: &R,
        alloc: Global,
        index: Arc<DimIndex>,
        hashing: RandomState,
        questions: &[Question],
    ) -> Result<StandingColumns, StandingError>
        ensures columns { IfOk result (λ standing. columns_state standing ≡ state_of index.value []) }
        ensures few_groups { IfOk result (λ _. All (HasFewGroups index.value) questions.now) }
        ensures too_many { (place : ℕ) → result ≡ Err (TooManyGroups place)
            → IsFirstOfMany index.value questions.now place }
    {
        index.base().soundness();
        let columns = Columns::new(rt, alloc, Arc::try_clone(&index)?, hashing)?;
        StandingColumns::new(rt, alloc, &index, columns, questions)
    }

    /// The columns, with questions, of equal ones the first, which stand from then on. The first question that has more
    /// than 65,536 groups is an error.
    pub fn new<R: Threads + Sync>(
        rt: &R,
        alloc: Global,
        index: &Arc<DimIndex>,
        columns: Columns,
        questions: &[Question],
    ) -> Result<StandingColumns, StandingError>
        requires base { index.now.value ≡ columns.base }
        requires snapshot { AreSnapshot columns }
        ensures columns { IfOk result (λ standing. standing ≡ columns) }
        ensures few_groups { IfOk result (λ _. All (HasFewGroups columns.base) questions.now) }
        ensures too_many { (place : ℕ) → result ≡ Err (TooManyGroups place)
            → IsFirstOfMany columns.base questions.now place }
    {
        let standing = StandingQuestions::new(rt, alloc, index, &columns, questions)?;
        Ok(StandingColumns {
            columns,
            standing,
            alloc,
        })
    }

    /// How many of these questions are answered from totals. Contracts see the columns alone, so that no clause of those
    /// above depends on what stands: this clause bounds the number, which `StandingQuestions::count` says exactly.
    pub fn count_standing(&self, questions: &[Question]) -> usize
        ensures { result ≤ length questions.now }
    {
        self.standing.count(questions)
    }

    /// The columns.
    pub fn columns(&self) -> &Columns
        ensures { result.now ≡ self.now }
    {
        &self.columns
    }
}

impl Replica for StandingColumns {
    ghost state = { columns_state };

    fn absorb(&mut self, commit: &Commit) -> Result<(), AllocError>
        ensures state { MatchResult result
            (λ _. columns_state self.new ≡ state_after (columns_state self.old) commit.now)
            (λ _. columns_state self.new ≡ columns_state self.old) }
        ensures unchanged { OnErr result (self.new ≡ self.old) }
    {
        // Lines are read for nobody where nothing stands.
        if self.standing.is_empty() {
            return self.columns.absorb(commit);
        }
        self.columns.absorb_watched(commit, &mut self.standing)
    }

    fn commits(&self) -> u64 {
        self.columns.commits()
    }

    fn copy(&self) -> Result<StandingColumns, AllocError> {
        Ok(StandingColumns {
            columns: self.columns.copy()?,
            standing: self.standing.copy(self.alloc)?,
            alloc: self.alloc,
        })
    }
}
