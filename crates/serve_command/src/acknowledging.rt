//! What a session waits for before it tells its client of commits.

ghost use Rattle.std.specs.Prelude.{◌≤◌};

use journal::Disk;
use ssb_journal::{FailedAppend, LogSource, OnDisk, SharedJournal};
use std::alloc::Global;
use std::sync::{Mutex, Wait};
use stream_sessions::{Acknowledges, Evidence, NotAcknowledged};

/// The evidence that commits are on a disk of this type: it is made of an [`OnDisk`] alone, and that of a journal that
/// keeps them.
#[derive(Drop)]
pub struct Durable<D> {
    on_disk: OnDisk<D>,
}

impl<D> Evidence for Durable<D> {
    ghost covers = { λ durable commits. commits ≤ durable.on_disk.commits };
}

/// A journal that sessions share. Its evidence is that commits are on the disk.
#[derive(Drop)]
pub(crate) struct JournalAcknowledger<D: Disk + Drop, L: LogSource + Drop> {
    pub(crate) journal: SharedJournal<D, L>,
}

impl<D: Disk + Drop, L: LogSource + Drop> Acknowledges<Durable<D>> for JournalAcknowledger<D, L> {
    type Failure = FailedAppend<D>;

    fn acknowledge<R: Wait>(
        &self,
        rt: &R,
        alloc: Global,
        commits: u64,
    ) -> Result<Durable<D>, NotAcknowledged> {
        match self.journal.reach(rt, alloc, commits) {
            Ok(on_disk) => Ok(Durable { on_disk }),
            Err(_) => Err(NotAcknowledged),
        }
    }

    fn failure<R: Wait>(&self, rt: &R) -> Option<FailedAppend<D>> {
        self.journal.failure(rt)
    }

    fn takes_refreshes(&self) -> bool {
        true
    }
}

/// What the file of a journal keeps that cannot be written: nothing is appended, so no refresh is taken.
#[derive(Drop)]
pub(crate) struct KeptAlone<D> {
    // Behind a lock, since threads share no disk that they could call at once.
    pub(crate) on_disk: Mutex<OnDisk<D>>,
}

impl<D: Disk> Acknowledges<Durable<D>> for KeptAlone<D> {
    type Failure = FailedAppend<D>;

    fn acknowledge<R: Wait>(
        &self,
        rt: &R,
        _alloc: Global,
        commits: u64,
    ) -> Result<Durable<D>, NotAcknowledged> {
        match self.on_disk.lock(rt).of_first(commits) {
            Some(on_disk) => Ok(Durable { on_disk }),
            None => Err(NotAcknowledged),
        }
    }

    fn failure<R: Wait>(&self, _rt: &R) -> Option<FailedAppend<D>> {
        None
    }

    fn takes_refreshes(&self) -> bool {
        false
    }
}
