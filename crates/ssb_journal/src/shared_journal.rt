//! A journal that threads share: whoever needs a commit on the disk appends for all, or waits for the one who does.
ghost use Rattle.std.specs.Prelude.{◌≤◌, IfOk};
ghost use Rattle.ssb_journal.specs.Turns.{HasEnough, TellsFailure};

use crate::failed_append::FailedAppend;
use crate::journaled_log::{JournaledLog, LeftLog};
use crate::on_disk::OnDisk;
use crate::source::LogSource;
use journal::{Disk, DiskError};
use std::alloc::Global;
use std::mem;
use std::sync::{Condvar, Mutex, Wait};
use thiserror::Error;

/// The journal has failed: nobody may be told anything more.
#[derive(Clone, Copy, Debug, PartialEq, Eq, Error)]
#[error("journal write failed")]
pub struct JournalFailed {
    /// Why the append failed: its disk, its length, or memory. None where the log has not so many commits.
    pub cause: Option<DiskError>,
}

// Where the journal is.
#[derive(Drop)]
enum Whereabouts<D, J, F> {
    // Here, for the next who needs more commits on the disk.
    Here(J),
    // With one who appends. So many commits were on the disk before.
    Away(OnDisk<D>),
    // It has failed, and this is left of it.
    Failed(FailedAppend<D>, F),
    // With one who looks at it, or it was given up: there is nothing more.
    Nowhere,
}

// What is left to do for one who needs commits on the disk.
#[derive(Drop)]
enum JournalTurn<D, J> {
    // Nothing: they are.
    Reached(OnDisk<D>),
    // To append, for all.
    Append(J),
    // To wait for the one who appends.
    Wait,
    // To give up.
    Failed(JournalFailed),
}

impl<D: Disk + Drop, L: LogSource + Drop> Whereabouts<D, JournaledLog<D, L>, LeftLog<D, L>> {
    // The turn of one who needs so many commits. Who is to append takes the journal away.
    fn turn(&mut self, commits: u64) -> JournalTurn<D, JournaledLog<D, L>>
        ensures { HasEnough commits result }
    {
        match mem::replace(self, Whereabouts::Nowhere) {
            Whereabouts::Here(log) => {
                let on_disk = log.on_disk();
                if on_disk.commits() >= commits {
                    *self = Whereabouts::Here(log);
                    return JournalTurn::Reached(on_disk);
                }
                *self = Whereabouts::Away(on_disk);
                JournalTurn::Append(log)
            },
            Whereabouts::Away(on_disk) => {
                let turn = match on_disk.of_first(commits) {
                    Some(reached) => JournalTurn::Reached(reached),
                    None => JournalTurn::Wait,
                };
                *self = Whereabouts::Away(on_disk);
                turn
            },
            Whereabouts::Failed(failed, left) => {
                let cause = Some(failed.cause());
                *self = Whereabouts::Failed(failed, left);
                JournalTurn::Failed(JournalFailed { cause })
            },
            Whereabouts::Nowhere => JournalTurn::Failed(JournalFailed { cause: None }),
        }
    }

    // The evidence that it has failed, where it has.
    fn failure(&self) -> Option<FailedAppend<D>>
        ensures { TellsFailure self.now result }
    {
        match self {
            Whereabouts::Failed(failed, _) => Some(failed.again()),
            _ => None,
        }
    }

    // What is left of it, where nobody has it out.
    fn give_up(&mut self) -> Option<LeftLog<D, L>> {
        match mem::replace(self, Whereabouts::Nowhere) {
            Whereabouts::Here(log) => Some(log.into_left()),
            Whereabouts::Failed(_, left) => Some(left),
            Whereabouts::Away(on_disk) => {
                *self = Whereabouts::Away(on_disk);
                None
            },
            Whereabouts::Nowhere => None,
        }
    }
}

/// A journal that threads share. Who needs commits on the disk appends for all; the others wait, and what is committed
/// meanwhile is the next group.
#[derive(Drop)]
pub struct SharedJournal<D: Disk + Drop, L: LogSource + Drop> {
    place: Mutex<Whereabouts<D, JournaledLog<D, L>, LeftLog<D, L>>>,
    changed: Condvar,
}

impl<D: Disk + Drop, L: LogSource + Drop> SharedJournal<D, L> {
    /// Shares a journal.
    pub fn new(log: JournaledLog<D, L>) -> SharedJournal<D, L> {
        SharedJournal {
            place: Mutex::new(Whereabouts::Here(log)),
            changed: Condvar::new(),
        }
    }

    // Puts the journal back, and wakes all who wait.
    fn put_back<R: Wait>(&self, rt: &R, place: Whereabouts<D, JournaledLog<D, L>, LeftLog<D, L>>) {
        *self.place.lock(rt) = place;
        self.changed.notify_all();
    }

    // Appends for all, where so many commits are needed.
    fn append_for_all<R: Wait>(
        &self,
        rt: &R,
        alloc: Global,
        log: JournaledLog<D, L>,
        commits: u64,
    ) -> Result<OnDisk<D>, JournalFailed>
        ensures { IfOk result (λ on_disk. commits ≤ on_disk.commits) }
    {
        let log = match log.append_new(rt, alloc) {
            Ok(log) => log,
            Err((error, left)) => {
                let failed = FailedAppend::of(error, &left);
                self.put_back(rt, Whereabouts::Failed(failed, left));
                return Err(JournalFailed { cause: Some(error) });
            },
        };
        let on_disk = log.on_disk();
        self.put_back(rt, Whereabouts::Here(log));
        if on_disk.commits() < commits {
            return Err(JournalFailed { cause: None });
        }
        Ok(on_disk)
    }

    /// Waits until so many commits are on the disk, and gives the evidence; where nobody appends, it appends itself.
    /// `Err` where the journal fails or has failed, or the log has not so many commits.
    pub fn reach<R: Wait>(
        &self,
        rt: &R,
        alloc: Global,
        commits: u64,
    ) -> Result<OnDisk<D>, JournalFailed>
        ensures { IfOk result (λ on_disk. commits ≤ on_disk.commits) }
    {
        let mut place = self.place.lock(rt);
        for _ in rt.forever() {
            match place.turn(commits) {
                JournalTurn::Reached(on_disk) => return Ok(on_disk),
                JournalTurn::Append(taken) => {
                    drop(place);
                    return self.append_for_all(rt, alloc, taken, commits);
                },
                JournalTurn::Wait => place = self.changed.wait(rt, place),
                JournalTurn::Failed(failed) => return Err(failed),
            }
        }
        unreachable!()
    }

    /// The evidence that an append has failed, where one has: from then on nothing is appended.
    pub fn failure<R: Wait>(&self, rt: &R) -> Option<FailedAppend<D>> {
        self.place.lock(rt).failure()
    }

    /// What is left of the journal and its log, when no thread shares it any more. It waits until nobody has it out.
    pub fn into_left<R: Wait>(self, rt: &R) -> LeftLog<D, L> {
        let mut place = self.place.lock(rt);
        for _ in rt.forever() {
            match place.give_up() {
                Some(left) => return left,
                None => place = self.changed.wait(rt, place),
            }
        }
        unreachable!()
    }
}
