//! The warehouse after some commits of a trace, in columns.

ghost use Rattle.std.specs.Prelude.{◌≡◌, ◌≤◌, ◌++◌, List, length, take, IfOk, OnOk};
ghost use Rattle.row_store.specs.History.{CommitRecord};
ghost use Rattle.row_store.specs.State.{StandsFor, state_of};
ghost use Rattle.fact_columns.specs.Stored.{columns_state};

use fact_columns::Columns;
use row_store::{Commit, Replica};
use std::alloc::AllocError;

// Takes these commits, one after another.
fn absorb_all(columns: &mut Columns, commits: &[Commit]) -> Result<(), AllocError>
    ensures { (history : List CommitRecord) → StandsFor (columns_state columns.old) history
        → OnOk result (columns_state columns.new ≡ state_of columns.old.base (history ++ commits.now)) }
{
    for commit in commits {
        columns.absorb(commit)?;
    }
    Ok(())
}

/// Takes the commits that the columns want of the first `at`.
pub(crate) fn advance(
    columns: &mut Columns,
    commits: &[Commit],
    at: usize,
) -> Result<(), AllocError>
    requires stands { StandsFor (columns_state columns.old) (take columns.old.commits commits.now) }
    requires ahead { columns.old.commits ≤ at }
    requires within { at ≤ length commits.now }
    ensures { OnOk result (columns_state columns.new ≡ state_of columns.old.base (take at commits.now)) }
{
    let taken = columns.commits() as usize;
    absorb_all(columns, &commits[taken..at])
}
