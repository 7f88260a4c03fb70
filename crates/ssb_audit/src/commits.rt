//! The commits of a trace, one after another.

ghost use Rattle.std.specs.Prelude.{◌≡◌, ◌+◌, ◌-◌, ◌<◌, ◌^◌, OnOk};
ghost use Rattle.row_store.specs.History.{with_commit};
ghost use Rattle.row_store.specs.Legal.{IsLegal};
ghost use Rattle.ssb_audit.specs.Traces.{Tells, refused_commit, first_from, commit_fault};

use crate::fault::AuditFault;
use row_store::{ApplyError, Commit, RowStore};
use ssb_base::Base;
use std::alloc::Global;
use std::hash::RandomState;
use std::sync::Arc;

// Makes the commit at a place, counted from 0, the next one of the store.
fn replay(store: &mut RowStore, place: usize, commit: &Commit) -> Result<(), AuditFault>
    requires { place < 2 ^ 64 - 1 }
    ensures applied { OnOk result (store.new ≡ with_commit store.old commit.now) }
    ensures fault { Tells result (refused_commit store.old.base store.old.log place commit.now) }
{
    let refresh = Arc::try_clone(&commit.refresh)?;
    match store.apply(commit.client, refresh) {
        Ok(_) => Ok(()),
        Err(ApplyError::Refused(_)) => Err(AuditFault::CommitRefused(place as u64 + 1)),
        Err(ApplyError::OutOfMemory) => Err(AuditFault::OutOfMemory),
    }
}

/// Whether each commit is accepted after those before it.
pub(crate) fn check_commits(
    alloc: Global,
    base: Arc<Base>,
    hashing: RandomState,
    commits: &[Commit],
) -> Result<(), AuditFault>
    ensures legal { OnOk result (IsLegal base.value commits.now) }
    ensures fault { Tells result (first_from (commit_fault base.value commits.now) 0 commits.now) }
{
    let mut store = RowStore::new(alloc, base, hashing)?;
    for (place, commit) in commits.iter().enumerate() {
        replay(&mut store, place, commit)?;
    }
    store.soundness();
    Ok(())
}
