//! The tables after the first commits of a journal's file.

ghost use Rattle.std.specs.Prelude.{◌≡◌, ℕ, List, [], true, false, length, IfOk, IfErr};
ghost use Rattle.export_command.specs.Histories.{AreTablesAt, AreThere, IsHistoryRefusal, IsMost, first_of, reaches};
ghost use Rattle.journal.specs.Disk.{BeginsAsRead};
ghost use Rattle.ssb_base.specs.Base.{Tables};
ghost use Rattle.ssb_journal.specs.Kept.{BeginsWithCommits};

use crate::exporting::ExportSource;
use crate::fault::ExportFault;
use crate::fault::ExportRefusal::{Commit, Journal};
use crate::moment::Moment;
use crate::replaying::{ReadPart, replay_first};
use crate::standing_orders::StandingOrders;
use crate::tables_after::TablesAfter;
use journal::UnreadDisk;
use journal_opening::{NoSuchCommit, OpeningFault};
use row_store::RowStore;
use ssb_files::Fault;
use ssb_files::JobFault::{Found, Program};
use ssb_journal::{OpenedJournal, open};
use std::alloc::Global;
use std::hash::RandomState;
use std::thread::Threads;

/// The tables after commits of a history, and how many commits that are.
#[derive(Drop)]
pub struct TablesAt {
    pub tables: TablesAfter,
    pub after: u64,
}

// After how many commits of the history tables are, where so many of a journal's file were made again. It may have
// fewer than are asked for where it was read to its end.
fn end_of<'a, U: UnreadDisk + Drop>(
    part: ReadPart<'a, U>,
    moment: Moment,
    most: Option<u64>,
    made: u64,
) -> Result<u64, ExportFault>
    requires most { IsMost moment.past moment.at most }
    requires made { made ≡ length (first_of most part.journal.commits) }
    requires end { part.is_whole ≡ true → part.journal.is_done ≡ true }
    requires enough { part.is_whole ≡ false → reaches most (length part.journal.commits) ≡ true }
    requires kept { part.is_whole ≡ false → (file : List ℕ)
        → BeginsAsRead (U.taken part.journal.unread) (U.is_ended part.journal.unread) file
        → BeginsWithCommits part.journal.marks part.journal.commits file }
    ensures there { IfOk result (AreThere part.entry.journal.marks (U.holds part.entry.journal.unread) moment.past
        moment.at (first_of most part.entry.journal.commits)) }
    ensures fault { IfErr result (λ fault. (base : Tables) → IsHistoryRefusal base part.entry.journal.marks
        (U.holds part.entry.journal.unread) moment.past moment.at fault) }
{
    let ReadPart { journal, is_whole } = part;
    // No history is so long that its commits have no number.
    let Some(after) = moment.past.checked_add(made) else {
        return Err(Program(Fault::OutOfMemory));
    };
    if !is_whole {
        return Ok(after);
    }
    let OpenedJournal {
        found: _,
        kept: _,
        torn: _,
    } = journal.finish();
    let Some(number) = moment.at else {
        return Ok(after);
    };
    if after < number {
        return Err(Found(Commit(NoSuchCommit { number })));
    }
    Ok(after)
}

/// The tables after commits of a journal's file, up to a moment, which are applied as that is read: it is read no
/// further than the groups that are read together with the last one. Of two faults the first in the file is told.
pub fn read_history<'a, U: UnreadDisk + Drop>(
    rt: &(impl Threads + Sync),
    alloc: Global,
    hashing: RandomState,
    source: ExportSource<'a, U>,
    moment: Moment,
) -> Result<TablesAt, ExportFault>
    requires unread { U.taken source.file ≡ [] }
    ensures tables { IfOk result (λ read. AreTablesAt source.entry.base.value source.entry.marks.now
        (U.holds source.entry.file) moment.past moment.at read.tables read.after) }
    ensures fault { IfErr result (IsHistoryRefusal source.entry.base.value source.entry.marks.now
        (U.holds source.entry.file) moment.past moment.at) }
{
    let most = moment.most()?;
    let ExportSource { base, marks, file } = source;
    let journal = match open(alloc, marks, file) {
        Ok(journal) => journal,
        Err((fault, _)) => return Err(Found(Journal(OpeningFault::Kept(fault)))),
    };
    let mut store = RowStore::new(alloc, base, hashing)?;
    let mut orders = StandingOrders::new(alloc, hashing);
    let part = match replay_first(rt, alloc, &mut store, &mut orders, journal, most) {
        Ok(part) => part,
        Err(fault) => return Err(fault),
    };
    store.soundness();
    let after = end_of(part, moment, most, store.len() as u64)?;
    let tables = TablesAfter::new(store, orders);
    Ok(TablesAt { tables, after })
}
