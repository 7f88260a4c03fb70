//! A base as a server takes it: its rows by order, and its columns with the questions that stand.
ghost use Rattle.std.specs.Prelude.{◌≡◌, ℕ, All, Err, IfOk};
ghost use Rattle.shared_scan.specs.GroupCounts.{HasFewGroups, IsFirstOfMany};
ghost use Rattle.shared_scan.specs.declared.standing_error.StandingError.TheVariants.{TooManyGroups};

use dimension_index::index_of;
use row_store::RowStore;
use server_figures::LiveFigures;
use ssb_base::Base;
use ssb_questions::Question;
use standing_columns::{StandingColumns, StandingError};
use std::alloc::Global;
use std::hash::RandomState;
use std::marker::Model;
use std::sync::Arc;
use std::thread::Threads;

/// The loaded lines of a base, twice: as rows that take refreshes, and in columns with questions that stand; and the
/// figures in which the server over them counts what it does. Contracts see the base.
#[derive(Drop)]
pub struct Loaded {
    pub(crate) rows: RowStore,
    pub(crate) columns: StandingColumns,
    pub(crate) base: Arc<Base>,
    pub(crate) figures: Arc<LiveFigures>,
}

impl Model for Loaded {
    ghost use Rattle.ssb_base.specs.Base.{Tables};
    ghost use Rattle.ssb_server.specs.Opening.{IsLoaded};

    ghost Value = { Tables };

    ghost view = { λ loaded. loaded.rows.base };

    ghost invariant = { IsLoaded };
}

impl Loaded {
    /// The rows and the columns of a base, with these questions, of equal ones the first, which stand from then on. The
    /// first question that has more than 65,536 groups is an error. `hashing` keys the maps of orders.
    pub fn new(
        rt: &(impl Threads + Sync),
        alloc: Global,
        hashing: RandomState,
        base: &Arc<Base>,
        standing: &[Question],
    ) -> Result<Loaded, StandingError>
        ensures base { IfOk result (λ loaded. loaded ≡ base.now.value) }
        ensures few_groups { IfOk result (λ _. All (HasFewGroups base.now.value) standing.now) }
        ensures too_many { (place : ℕ) → result ≡ Err (TooManyGroups place)
            → IsFirstOfMany base.now.value standing.now place }
    {
        let index = index_of(alloc, base)?;
        let rows = RowStore::new(alloc, Arc::try_clone(base)?, hashing)?;
        let columns = StandingColumns::loaded(rt, alloc, index, hashing, standing)?;
        let figures = Arc::new(alloc, LiveFigures::new())?;
        Ok(Loaded {
            rows,
            columns,
            base: Arc::try_clone(base)?,
            figures,
        })
    }

    /// The same, but that the server counts in these figures, which others may share.
    pub fn counted_in(self, figures: Arc<LiveFigures>) -> Loaded
        ensures { result ≡ self }
    {
        let Loaded {
            rows,
            columns,
            base,
            figures: _,
        } = self;
        Loaded {
            rows,
            columns,
            base,
            figures,
        }
    }
}
