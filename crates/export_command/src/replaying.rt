//! The commits of a journal's file, made again as that is read.

ghost use Rattle.std.specs.Prelude.{◌≡◌, ◌≤◌, ◌++◌, ℕ, List, [], true, false, length, IfOk, IfErr, OnOk};
ghost use Rattle.export_command.specs.Exported.{IsJournalRefusal};
ghost use Rattle.export_command.specs.Histories.{IsBatchFault, IsWithin, count_of_next, first_of, reaches};
ghost use Rattle.export_command.specs.Standing.{Follows};
ghost use Rattle.journal.specs.Disk.{BeginsAsRead};
ghost use Rattle.ssb_journal.specs.Kept.{BeginsWithCommits};

use crate::fault::ExportFault;
use crate::fault::ExportRefusal::Journal;
use crate::standing_orders::StandingOrders;
use journal::UnreadDisk;
use journal_opening::OpeningFault;
use row_store::{Commit, RowStore};
use ssb_files::JobFault::Found;
use ssb_journal::{JournalReader, replay};
use std::alloc::Global;
use std::thread::Threads;

/// A journal's file as far as it was read, and whether that is to its end.
#[derive(Drop)]
pub(crate) struct ReadPart<'a, U: UnreadDisk> {
    pub(crate) journal: JournalReader<'a, U>,
    pub(crate) is_whole: bool,
}

// Makes more commits again, and forgets them but for the orders that stand.
fn make_again(
    store: &mut RowStore,
    orders: &mut StandingOrders,
    commits: &[Commit],
) -> Result<(), ExportFault>
    requires { Follows store.old.base store.old.log orders.old }
    ensures store { OnOk result (store.new ≡ record { base = store.old.base; log = store.old.log ++ commits.now }) }
    ensures orders { OnOk result (Follows store.new.base store.new.log orders.new) }
    ensures fault { IfErr result (IsBatchFault store.old.base (store.old.log ++ commits.now)) }
{
    if let Err(fault) = replay(store, commits) {
        return Err(Found(Journal(OpeningFault::Replay(fault))));
    }
    store.soundness();
    let count = store.len();
    orders.follow(commits)?;
    store.forget(count as u64);
    Ok(())
}

// How many of the next commits are made again, where so many were.
fn next_count(most: Option<u64>, made: u64, next: usize) -> usize
    requires { IsWithin most made }
    ensures count { result ≡ count_of_next most made next }
    ensures within { result ≤ next }
{
    match most {
        Some(most) => ((most - made) as usize).min(next),
        None => next,
    }
}

// Whether as many were made again as are asked for.
fn is_reached(most: Option<u64>, made: u64) -> bool
    ensures { result ≡ reaches most made }
{
    match most {
        Some(most) => most <= made,
        None => false,
    }
}

/// Makes the first commits of a journal's file again, as that is read: so many, and then it is read no further; or all.
/// They are forgotten but for the orders that stand. Of two faults the first in the file is told.
pub(crate) fn replay_first<'a, U: UnreadDisk + Drop>(
    rt: &(impl Threads + Sync),
    alloc: Global,
    store: &mut RowStore,
    orders: &mut StandingOrders,
    journal: JournalReader<'a, U>,
    most: Option<u64>,
) -> Result<ReadPart<'a, U>, ExportFault>
    requires none { journal.commits ≡ [] }
    requires new { store.old.log ≡ [] }
    requires orders { Follows store.old.base store.old.log orders.old }
    ensures store { IfOk result (λ read. store.new
        ≡ record { base = store.old.base; log = first_of most read.journal.commits }) }
    ensures orders { OnOk result (Follows store.new.base store.new.log orders.new) }
    ensures marks { IfOk result (λ read. read.journal.marks ≡ journal.entry.marks) }
    ensures known { IfOk result (λ read. U.holds read.journal.unread ≡ U.holds journal.entry.unread) }
    ensures end { IfOk result (λ read. read.is_whole ≡ true → read.journal.is_done ≡ true) }
    ensures enough { IfOk result (λ read. read.is_whole ≡ false
        → reaches most (length read.journal.commits) ≡ true) }
    // Each file that begins with what was read begins with a journal of the commits so far.
    ensures kept { IfOk result (λ read. read.is_whole ≡ false → (file : List ℕ)
        → BeginsAsRead (U.taken read.journal.unread) (U.is_ended read.journal.unread) file
        → BeginsWithCommits journal.entry.marks read.journal.commits file) }
    ensures fault { IfErr result (IsJournalRefusal store.old.base journal.entry.marks (U.holds journal.entry.unread)) }
{
    let mut journal = journal;
    loop {
        let (next, found) = match journal.next(rt, alloc) {
            Ok(next) => next,
            Err((fault, _)) => return Err(Found(Journal(OpeningFault::Kept(fault)))),
        };
        let Some(commits) = found else {
            return Ok(ReadPart {
                journal: next,
                is_whole: true,
            });
        };
        let count = next_count(most, store.len() as u64, commits.len());
        make_again(store, orders, &commits[..count])?;
        if is_reached(most, store.len() as u64) {
            return Ok(ReadPart {
                journal: next,
                is_whole: false,
            });
        }
        journal = next;
    }
}
