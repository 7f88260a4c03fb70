//! A journal beside the log whose commits it keeps.
ghost use Rattle.std.specs.Prelude.{◌≡◌, ◌⊎◌, ◌<◌, ◌^◌, length, drop, true, false, IfOk, IfErr};
ghost use Rattle.std.specs.List.{AllByRecursion};
ghost use Rattle.journal.specs.Disk.{LeavesOnly};
ghost use Rattle.row_store.specs.History.{IsPrefix};
ghost use Rattle.ssb_trace.specs.Allowed.{IsClient};
ghost use Rattle.ssb_journal.specs.Counts.{HaveFirst, IsLeft, KeepsBeginning, KeepsFirst, KeepsSince};
ghost use Rattle.ssb_journal.specs.Kept.{HasNoRoom};

use crate::appending::append_commits;
use crate::on_disk::OnDisk;
use crate::source::LogSource;
use journal::{Disk, DiskError, Journal};
use row_store::Commit;
use std::alloc::Global;
use std::marker::Model;
use std::sync::Wait;

/// An open journal beside a log: it keeps the first commits of the log, each once and in order. Contracts see its disk,
/// the log, and how many commits it keeps.
#[derive(Drop)]
pub struct JournaledLog<D: Disk, L: LogSource> {
    journal: Journal<D>,
    source: L,
    count: u64,
}

impl<D: Disk, L: LogSource> Model for JournaledLog<D, L> {
    ghost use Rattle.ssb_journal.specs.Counts.{Journaled, KeepsFirst, KeepsSince};

    ghost Value = { Journaled D L };

    ghost view = { λ log. record { disk = log.journal; source = log.source; count = log.count } };

    ghost invariant = { λ log. KeepsFirst log.count (L.log log.source) (D.seen log.journal)
        × KeepsSince L.begun (D.moment log.journal) (D.left_since log.journal) log.count (L.log log.source) };
}

/// What is left of a journal beside a log, when nothing is appended any more: the disk, the log, and how many of its
/// commits are on the disk, whatever crashes. They are those that the disk has promised.
#[derive(Drop)]
pub struct LeftLog<D: Disk, L: LogSource> {
    disk: D,
    source: L,
    count: u64,
    is_whole: bool,
}

impl<D: Disk, L: LogSource> Model for LeftLog<D, L> {
    ghost use Rattle.ssb_journal.specs.Counts.{LeftJournal, HaveFirst, IsLeft, KeepsSince};

    ghost Value = { LeftJournal D L };

    ghost view = { λ left. record { disk = left.disk; source = left.source; count = left.count; whole = left.is_whole } };

    ghost invariant = { λ left. IsLeft (D.may_leave left.disk) (D.seen left.disk) left.count (L.log left.source)
        left.is_whole × KeepsSince L.begun (D.moment left.disk) (D.left_since left.disk) left.count
        (L.log left.source) × HaveFirst left.count (L.log left.source) (D.promised left.disk) };
}

impl<D: Disk, L: LogSource> LeftLog<D, L> {
    /// The disk, the log, how many of its commits are on the disk, and whether the journal was written to the end.
    pub fn into_parts(self) -> (D, L, u64, bool)
        ensures same { self ≡ record { disk = result.0; source = result.1; count = result.2; whole = result.3 } }
        ensures left { IsLeft (D.may_leave result.0) (D.seen result.0) result.2 (L.log result.1) result.3 }
        ensures since { KeepsSince L.begun (D.moment result.0) (D.left_since result.0) result.2 (L.log result.1) }
        ensures promised { HaveFirst result.2 (L.log result.1) (D.promised result.0) }
    {
        let LeftLog {
            disk,
            source,
            count,
            is_whole,
        } = self;
        (disk, source, count, is_whole)
    }
}

// Appends the commits that a look at the log has given, and the journal lacks.
fn append_given<D: Disk + Drop, L: LogSource + Drop>(
    alloc: Global,
    journal: Journal<D>,
    source: L,
    count: u64,
    commits: Vec<Commit>,
) -> Result<JournaledLog<D, L>, (DiskError, LeftLog<D, L>)>
    requires kept { KeepsFirst count (L.log source) (D.seen journal) }
    requires since { KeepsSince L.begun (D.moment journal) (D.left_since journal) count (L.log source) }
    requires given { commits.items ≡ drop count (L.log source) }
    requires clients { AllByRecursion (λ commit. IsClient commit.client) commits.items }
    requires few { length (L.log source) < 2 ^ 64 }
    ensures same { IfOk result (λ after. after.source ≡ source) }
    ensures whole { IfOk result (λ after. after.count ≡ length (L.log source)) }
    ensures any_moment { IfOk result (λ after. LeavesOnly D.moment D.left_since journal after.disk
        (KeepsBeginning count (L.log source))) }
    ensures same_err { IfErr result (λ e. (e.1.source ≡ source) × (e.1.count ≡ count)) }
    ensures cut_off { IfErr result (λ e. e.1.whole ≡ false) }
    ensures any_moment_err { IfErr result (λ e. LeavesOnly D.moment D.left_since journal e.1.disk
        (KeepsBeginning count (L.log source))) }
    ensures failed { IfErr result (λ e. e.0 ≡ DiskError.Failed → D.faults journal < D.faults e.1.disk) }
    ensures full { IfErr result (λ e. e.0 ≡ DiskError.Full → HasNoRoom (D.seen journal) commits.items) }
{
    let more = commits.len() as u64;
    let kept = count + more;
    match append_commits(alloc, journal, commits, kept) {
        Ok(journal) => Ok(JournaledLog {
            journal,
            source,
            count: kept,
        }),
        Err((error, disk)) => Err((
            error,
            LeftLog {
                disk,
                source,
                count,
                is_whole: false,
            },
        )),
    }
}

impl<D: Disk + Drop, L: LogSource + Drop> JournaledLog<D, L> {
    /// A journal beside a log that begins with the commits that it keeps.
    pub fn new(journal: Journal<D>, source: L, count: u64) -> JournaledLog<D, L>
        requires kept { KeepsFirst count (L.log source) (D.seen journal) }
        requires since { KeepsSince L.begun (D.moment journal) (D.left_since journal) count (L.log source) }
        ensures { result ≡ record { disk = journal; source = source; count = count } }
    {
        JournaledLog {
            journal,
            source,
            count,
        }
    }

    /// The evidence of the commits that it keeps: its disk has promised them.
    pub fn on_disk(&self) -> OnDisk<D>
        ensures commits { result.commits ≡ self.now.count }
        ensures promised { HaveFirst self.now.count (L.log self.now.source) (D.promised self.now.disk) }
    {
        OnDisk::of(self.journal.disk(), self.count)
    }

    /// Looks at the log, and appends all of its commits that the journal lacks, as one group: then they are on the
    /// disk. An `Err` hands the disk and the log back: the commits that were on the disk still are.
    pub fn append_new<R: Wait>(
        self,
        rt: &R,
        alloc: Global,
    ) -> Result<JournaledLog<D, L>, (DiskError, LeftLog<D, L>)>
        ensures whole { IfOk result (λ after. after.count ≡ length (L.log after.source)) }
        ensures grown { IfOk result (λ after. IsPrefix (L.log self.source) (L.log after.source)) }
        // A crash at any moment of the call leaves a journal of the first commits of the log, no fewer than before.
        ensures any_moment { IfOk result (λ after. (after.disk ≡ self.disk)
            ⊎ LeavesOnly D.moment D.left_since self.disk after.disk (KeepsBeginning self.count (L.log after.source))) }
        ensures grown_err { IfErr result (λ e. IsPrefix (L.log self.source) (L.log e.1.source)) }
        ensures same_err { IfErr result (λ e. e.1.count ≡ self.count) }
        ensures cut_off { IfErr result (λ e. e.1.whole ≡ false) }
        ensures any_moment_err { IfErr result (λ e. LeavesOnly D.moment D.left_since self.disk e.1.disk
            (KeepsBeginning self.count (L.log e.1.source))) }
        // It does not give up by itself.
        ensures failed { IfErr result (λ e. e.0 ≡ DiskError.Failed → D.faults self.disk < D.faults e.1.disk) }
        ensures full { IfErr result (λ e. e.0 ≡ DiskError.Full
            → HasNoRoom (D.seen self.disk) (drop self.count (L.log e.1.source))) }
    {
        let JournaledLog {
            journal,
            mut source,
            count,
        } = self;
        match source.commits_from(rt, alloc, count) {
            Ok(commits) if commits.is_empty() => Ok(JournaledLog {
                journal,
                source,
                count,
            }),
            Ok(commits) => append_given(alloc, journal, source, count, commits),
            Err(_) => Err((
                DiskError::OutOfMemory,
                LeftLog {
                    disk: journal.into_disk(),
                    source,
                    count,
                    is_whole: false,
                },
            )),
        }
    }

    /// What is left of it when nothing is appended any more.
    pub fn into_left(self) -> LeftLog<D, L>
        ensures { result ≡ record { disk = self.disk; source = self.source; count = self.count; whole = true } }
    {
        let JournaledLog {
            journal,
            source,
            count,
        } = self;
        LeftLog {
            disk: journal.into_disk(),
            source,
            count,
            is_whole: true,
        }
    }
}
