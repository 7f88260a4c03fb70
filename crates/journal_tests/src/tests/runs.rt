//! Journals on disks that tear: they are begun, and what a file keeps is looked at.
ghost use Rattle.std.specs.Prelude.{◌≡◌, [], take, IfOk};
ghost use Rattle.journal.specs.Groups.{recovered, AreTorn};
ghost use Rattle.ssb_journal.specs.Opening.{IsKept};
ghost use Rattle.ssb_journal.specs.Counts.{KeepsFirst};
ghost use Rattle.journal_tests.specs.TearingDisks.{disk_bytes};

use crate::tests::own_log::{A_LOOK, OwnLog, own_commits};
use crate::{TearingDisk, UnreadTearing};
use journal::{Journal, KeepsTorn};
use row_store::Commit;
use ssb_audit::Trace;
use ssb_journal::{
    JournaledLog, OpenedJournal, SharedJournal, TableMark, append_commits, begin, open,
};
use ssb_schema::{Items, Refresh, Table};
use ssb_text::TableLayout;
use ssb_trace::write_trace;
use std::alloc::{AllocError, Global};
use std::io;
use std::sync::{Arc, Wait};
use std::test::Fail;
use std::thread::Threads;
use test_fixtures::adding;

// How many groups a run appends.
const GROUPS: usize = 25;

/// How many commits that are.
pub(crate) const COMMITS: usize = A_LOOK * GROUPS;

/// So many calls make a new journal: a cut, a closed gate, the group of the head and its gate, with a sync behind each.
pub(crate) const NEW: usize = 8;

/// So many calls append a group: two writes, and a sync behind each.
pub(crate) const A_GROUP: usize = 4;

/// So many calls make a run.
pub(crate) const CALLS: usize = NEW + A_GROUP * GROUPS;

/// By what the journal knows its only table.
pub(crate) fn marks() -> [TableMark; 1] {
    [TableMark {
        table: Table::Customer,
        bytes: 31800,
        rows: 300,
        checksum: [7; 16],
        layout: TableLayout::benchmark(),
    }]
}

/// The refreshes of a run: one adds order 1, the next order 2, and so on.
pub(crate) fn refreshes(alloc: Global) -> Result<Vec<Arc<Refresh>>, Fail> {
    let mut refreshes = Vec::new(alloc);
    for key in 1..=COMMITS {
        refreshes.push(adding(alloc, key as u64)?)?;
    }
    Ok(refreshes)
}

// What a crash has torn is kept in memory.
struct InMemory;

impl KeepsTorn for InMemory {
    type Kept = Vec<u8>;

    ghost bytes = { λ kept. kept.items };

    fn keep_torn(&self, torn: Vec<u8>) -> io::Result<Vec<u8>> {
        Ok(torn)
    }
}

// A file that was read to its end, as a journal over tables of these marks, and the commits that it keeps.
fn read_all(
    rt: &(impl Threads + Sync),
    alloc: Global,
    marks: &[TableMark],
    file: UnreadTearing,
) -> Result<(OpenedJournal<TearingDisk>, Vec<Commit>), Fail>
    requires { take file.place (disk_bytes file.disk) ≡ [] }
    ensures kept { IfOk result (λ read. IsKept marks.now (recovered (disk_bytes read.0.found)) read.0.kept) }
    ensures torn { IfOk result (λ read. AreTorn (disk_bytes read.0.found) read.0.torn.items) }
    ensures commits { IfOk result (λ read. read.1.items ≡ read.0.kept.commits.items) }
{
    let Ok(mut reader) = open(alloc, marks, file) else {
        return Err(Fail::from("not opened"));
    };
    let mut commits = Vec::new(alloc);
    loop {
        let Ok((next, found)) = reader.next(rt, alloc) else {
            return Err(Fail::from("not read"));
        };
        reader = next;
        let Some(mut batch) = found else {
            return Ok((reader.finish(), commits));
        };
        commits.append(&mut batch)?;
    }
}

// A new journal of no commits.
fn new_journal(
    rt: &(impl Threads + Sync),
    alloc: Global,
    marks: &[TableMark],
    refused: Option<usize>,
) -> Result<Journal<TearingDisk>, Fail>
    ensures { IfOk result (λ journal. KeepsFirst 0 [] (disk_bytes journal)) }
{
    let (opened, _) = read_all(rt, alloc, marks, UnreadTearing::new(alloc, b"", refused)?)?;
    let OpenedJournal { found, kept, torn } = opened;
    if !kept.is_new {
        return Err(Fail::from("not new"));
    }
    let torn = InMemory.keep_torn(torn)?;
    match begin::<TearingDisk, InMemory>(alloc, marks, found, true, &torn) {
        Ok(journal) => Ok(journal),
        Err((error, _)) => Err(Fail::from(error)),
    }
}

/// A new journal beside a log. One call of its disk may be refused, the one before which there are so many.
pub(crate) fn new_log<'a>(
    rt: &(impl Threads + Sync),
    alloc: Global,
    refreshes: &'a [Arc<Refresh>],
    refused: Option<usize>,
) -> Result<JournaledLog<TearingDisk, OwnLog<'a>>, Fail> {
    let journal = new_journal(rt, alloc, &marks(), refused)?;
    Ok(JournaledLog::new(journal, OwnLog::new(refreshes), 0))
}

// The text of the first commits of the log, so many, as docs/FORMATS.md has commits in a trace.
fn text_of_first(alloc: Global, commits: usize) -> Result<String, AllocError> {
    let mut text = String::new(alloc);
    for key in 1..=commits {
        let commit = format!(in alloc;
            "commit|1\nadd\nline|{key}|1|3|4|3|19971215|o|0|1|10|10|0|10|2000|0|19971215|AIR\nend\n"
        )?;
        text.push_str(commit.as_str())?;
    }
    Ok(text)
}

/// How many commits a file keeps: it is opened again, and they are the first of the log.
pub(crate) fn kept_in(
    rt: &(impl Threads + Sync),
    alloc: Global,
    bytes: &[u8],
) -> Result<usize, Fail> {
    let (_, commits) = read_all(rt, alloc, &marks(), UnreadTearing::new(alloc, bytes, None)?)?;
    let count = commits.len();
    let trace = Trace {
        commits: Items::from_vec(commits),
        answers: Items::from_vec(Vec::new(alloc)),
    };
    let mut text = Vec::new(alloc);
    write_trace(&mut text, &trace)?;
    if text.as_slice() != text_of_first(alloc, count)?.as_bytes() {
        return Err(Fail::from("other commits"));
    }
    Ok(count)
}

/// The journal of a file that is opened again.
pub(crate) fn mended(
    rt: &(impl Threads + Sync),
    alloc: Global,
    bytes: &[u8],
) -> Result<Journal<TearingDisk>, Fail> {
    let marks = marks();
    let (opened, _) = read_all(rt, alloc, &marks, UnreadTearing::new(alloc, bytes, None)?)?;
    let OpenedJournal { found, kept, torn } = opened;
    let torn = InMemory.keep_torn(torn)?;
    match begin::<TearingDisk, InMemory>(alloc, &marks, found, kept.is_new, &torn) {
        Ok(journal) => Ok(journal),
        Err((error, _)) => Err(Fail::from(error)),
    }
}

/// The disk of a journal that no thread shares any more.
pub(crate) fn disk_left(
    rt: &impl Wait,
    shared: SharedJournal<TearingDisk, OwnLog<'_>>,
) -> TearingDisk {
    let (disk, _, _, _) = shared.into_left(rt).into_parts();
    disk
}

/// The disk of a file that is opened again, to whose commits these are appended.
pub(crate) fn gone_on(
    rt: &(impl Threads + Sync),
    alloc: Global,
    bytes: &[u8],
    more: &[Arc<Refresh>],
) -> Result<TearingDisk, Fail> {
    let journal = mended(rt, alloc, bytes)?;
    match append_commits(alloc, journal, own_commits(alloc, more)?, 0) {
        Ok(journal) => Ok(journal.into_disk()),
        Err((error, _)) => Err(Fail::from(error)),
    }
}
