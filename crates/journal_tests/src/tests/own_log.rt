//! A log in memory, of which each look sees some commits more.
ghost use Rattle.std.specs.Prelude.{◌≡◌, ◌≤◌, ◌<◌, ◌^◌, List, length, take, map, IfOk};
ghost use Rattle.std.specs.List.{AllByRecursion};
ghost use Rattle.ssb_journal.specs.Counts.{nothing_said};
ghost use Rattle.ssb_trace.specs.Allowed.{IsClient};
ghost use Rattle.journal_tests.specs.OwnCommits.{own};

use row_store::Commit;
use ssb_journal::LogSource;
use ssb_schema::Refresh;
use std::alloc::{AllocError, Global};
use std::sync::{Arc, Wait};

/// How many commits more a look sees.
pub(crate) const A_LOOK: usize = 8;

/// A log of client 1.
#[derive(Drop)]
pub(crate) struct OwnLog<'a> {
    refreshes: &'a [Arc<Refresh>],
    seen: usize,
    ghost inside: { seen ≤ length refreshes.now },
}

impl<'a> OwnLog<'a> {
    /// The log that will have the commits of these refreshes, and of which none was seen.
    pub(crate) fn new(refreshes: &'a [Arc<Refresh>]) -> OwnLog<'a>
        ensures { result.seen ≡ 0 }
    {
        OwnLog { refreshes, seen: 0 }
    }
}

/// The commits of client 1 with these refreshes.
pub(crate) fn own_commits(
    alloc: Global,
    refreshes: &[Arc<Refresh>],
) -> Result<Vec<Commit>, AllocError>
    ensures commits { IfOk result (λ commits. commits.items ≡ map (λ refresh. own refresh.value) refreshes.now) }
    ensures clients { IfOk result (λ commits. AllByRecursion (λ commit. IsClient commit.client) commits.items) }
{
    let mut commits = Vec::new(alloc);
    for refresh in refreshes {
        commits.push(Commit {
            client: 1,
            refresh: Arc::try_clone(refresh)?,
        })?;
    }
    Ok(commits)
}

impl<'a> LogSource for OwnLog<'a> {
    ghost log = { λ l. map (λ refresh. own refresh.value) (take l.seen l.refreshes.now) };

    ghost begun = { nothing_said };

    #[tactic(auto, using(crate::proofs::OwnLaws::seen_grows))]
    fn commits_from<R: Wait>(
        &mut self,
        _rt: &R,
        alloc: Global,
        taken: u64,
    ) -> Result<Vec<Commit>, AllocError> {
        self.seen = self.seen.saturating_add(A_LOOK).min(self.refreshes.len());
        own_commits(alloc, &self.refreshes[taken as usize..self.seen])
    }
}
