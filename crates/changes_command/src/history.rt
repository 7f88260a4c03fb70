//! The changes of a journal's commits, written as its file is read.

ghost use Rattle.std.specs.Prelude.{◌≡◌, ◌+◌, ◌++◌, [], None, true, length, IfOk, IfErr, OnOk};
ghost use Rattle.std.specs.Io.KnownBytes.{Appends, Keeps};
ghost use Rattle.journal_opening.specs.Kept.{IsKnown};
ghost use Rattle.row_store.specs.History.{lines_after};
ghost use Rattle.row_store.specs.Refusals.{refusal_of};
ghost use Rattle.ssb_files.specs.declared.fault.Fault.TheVariants as common;
ghost use Rattle.ssb_files.specs.declared.job.JobFault.TheVariants as job;
ghost use Rattle.changes_command.specs.Signed.{asked_of, changes_behind, changes_by_all, signed};
ghost use Rattle.changes_command.specs.SignedText.{heads_text, lines_text};
ghost use Rattle.changes_command.specs.Written.{IsCommitsFault, IsFileRefusal, IsTooFar, IsWrittenUpTo, Reaches, TellsTorn};

use crate::asked::AskedChanges;
use crate::fault::ChangesRefusal::Journal;
use crate::fault::{ChangesFault, ChangesRefusal};
use crate::format::{ChangesFormat, heads};
use crate::signed::{ChangesStart, Sign};
use crate::writing::{write_commit, write_lines};
use journal::{Disk, Found as FoundFile, UnreadDisk};
use journal_opening::{NoSuchCommit, OpeningFault};
use row_store::{Commit, RowStore};
use ssb_base::Base;
use ssb_files::Fault;
use ssb_files::JobFault::{Found, Program};
use ssb_journal::{HeadForm, JournalReader, OpenedJournal, TableMark, open, replay};
use ssb_schema::{Line, Refresh};
use ssb_text::{WriteFault, write_bytes};
use std::alloc::Global;
use std::hash::RandomState;
use std::io::Write;
use std::sync::Arc;
use std::thread::Threads;

/// Loaded tables, and a journal's file over them, of which nothing was read.
#[derive(Drop)]
pub struct ChangesSource<'a, U: UnreadDisk + Drop> {
    pub base: Arc<Base>,
    /// By what the journal's head knows the tables.
    pub marks: &'a [TableMark],
    /// The journal's file.
    pub file: U,
    /// Its groups are read together until they have so many bytes. With 1 each is written as it comes.
    pub together: usize,
}

/// A journal's file that was read to its end, and is as it was; how many commits it has, and how many these are with
/// those that came before; the form of its head, and how many bytes stand behind its last whole group.
#[derive(Drop)]
pub struct ReadHistory<D: Disk> {
    pub found: FoundFile<D>,
    pub commits: u64,
    pub after: u64,
    pub form: HeadForm,
    pub torn: usize,
}

/// Has a writer hand on what it holds.
pub(crate) fn hand_on<W: Write>(out: &mut W) -> Result<(), ChangesFault>
    ensures kept { Keeps (W.contents out.old) (W.contents out.new) }
    ensures fault { IfErr result (λ fault. fault ≡ job.Program common.WriteFailed) }
{
    match out.flush() {
        Ok(()) => Ok(()),
        Err(_) => Err(Program(Fault::WriteFailed)),
    }
}

// A journal's file that is read, and until how many bytes its groups are read together.
#[derive(Drop)]
struct Reading<'a, U: UnreadDisk> {
    journal: JournalReader<'a, U>,
    together: usize,
}

// Writes what stands above the lines.
fn write_heads<W: Write>(out: &mut W, format: ChangesFormat) -> Result<(), ChangesFault>
    ensures written { OnOk result (Appends (W.contents out.old) (W.contents out.new) (heads_text format)) }
    ensures fault { IfErr result (λ fault. fault ≡ job.Program common.WriteFailed) }
{
    match write_bytes(out, heads(format).as_bytes()) {
        Ok(()) => Ok(()),
        Err(_) => Err(Program(Fault::WriteFailed)),
    }
}

// Writes the loaded lines, where they are asked for, and hands them on.
fn write_loaded<W: Write>(
    out: &mut W,
    asked: AskedChanges,
    lines: &[Line],
) -> Result<(), ChangesFault>
    ensures written { OnOk result (Appends (W.contents out.old) (W.contents out.new)
        (lines_text asked.format (asked_of asked.start (signed asked.past Sign.Came lines.now)))) }
    ensures fault { IfErr result (λ fault. fault ≡ job.Program common.WriteFailed) }
{
    if !asked.start.asks(asked.past) {
        return Ok(());
    }
    match write_lines(out, asked.format, asked.past, Sign::Came, lines) {
        Ok(()) => hand_on(out),
        Err(_) => Err(Program(Fault::WriteFailed)),
    }
}

// Writes what the next commit changes, where that is asked for, and the refresh is not refused.
fn write_accepted<W: Write>(
    out: &mut W,
    asked: AskedChanges,
    store: &RowStore,
    refresh: &Refresh,
) -> Result<(), ChangesFault>
    ensures written { OnOk result (refusal_of store.now.base store.now.log refresh.now ≡ None
        → Appends (W.contents out.old) (W.contents out.new) (lines_text asked.format (asked_of asked.start (changes_by_all
        (asked.past + length store.now.log + 1) (lines_after store.now.base store.now.log) refresh.now)))) }
    ensures fault { IfErr result (λ fault. fault ≡ job.Program common.WriteFailed) }
{
    let number = asked.with(store.len() as u64) + 1;
    if !asked.start.asks(number) {
        return Ok(());
    }
    match store.check(refresh) {
        Ok(()) => match write_commit(out, asked.format, store, number, refresh.actions()) {
            Ok(()) => Ok(()),
            Err(_) => Err(Program(Fault::WriteFailed)),
        },
        Err(_) => Ok(()),
    }
}

// Makes more commits of a journal again, behind those that a row store has, and writes what they change, where that is
// asked for. The first commit that is refused is told.
fn write_commits<W: Write>(
    out: &mut W,
    asked: AskedChanges,
    store: &mut RowStore,
    commits: &[Commit],
) -> Result<(), ChangesFault>
    ensures written { OnOk result (Appends (W.contents out.old) (W.contents out.new) (lines_text asked.format (asked_of asked.start
        (changes_behind (asked.past + length store.old.log) (lines_after store.old.base store.old.log)
        commits.now)))) }
    ensures store { OnOk result (store.new ≡ record { base = store.old.base; log = store.old.log ++ commits.now }) }
    ensures fault { IfErr result (IsCommitsFault store.old.base (store.old.log ++ commits.now)) }
{
    for place in 0..commits.len() {
        let commit = &commits[place];
        write_accepted(out, asked, store, &commit.refresh)?;
        if let Err(fault) = replay(store, &commits[place..place + 1]) {
            return Err(Found(Journal(OpeningFault::Replay(fault))));
        }
        store.soundness();
    }
    Ok(())
}

// The same of all commits of a journal's file, as that is read, and hands it on; they are forgotten.
fn write_all<'a, U: UnreadDisk + Drop, W: Write>(
    rt: &(impl Threads + Sync),
    alloc: Global,
    out: &mut W,
    asked: AskedChanges,
    store: &mut RowStore,
    reading: Reading<'a, U>,
) -> Result<JournalReader<'a, U>, ChangesFault>
    requires none { store.old.log ≡ [] }
    requires unread { reading.journal.commits ≡ [] }
    ensures written { IfOk result (λ read. Appends (W.contents out.old) (W.contents out.new) (lines_text asked.format
        (asked_of asked.start (changes_behind asked.past store.old.base.lines read.commits)))) }
    ensures store { IfOk result (λ read. store.new ≡ record { base = store.old.base; log = read.commits }) }
    ensures marks { IfOk result (λ read. read.marks ≡ reading.entry.journal.marks) }
    ensures known { IfOk result (λ read. U.holds read.unread ≡ U.holds reading.entry.journal.unread) }
    ensures end { IfOk result (λ read. read.is_done ≡ true) }
    ensures fault { IfErr result (IsFileRefusal store.old.base reading.entry.journal.marks
        (U.holds reading.entry.journal.unread) asked.past asked.start) }
{
    let Reading {
        mut journal,
        together,
    } = reading;
    loop {
        let (next, found) = match journal.next_within(rt, alloc, together) {
            Ok(next) => next,
            Err((fault, _)) => return Err(Found(Journal(OpeningFault::Kept(fault)))),
        };
        let Some(commits) = found else {
            return Ok(next);
        };
        write_commits(out, asked, store, &commits)?;
        hand_on(out)?;
        let count = store.len();
        store.forget(count as u64);
        journal = next;
    }
}

// Whether there are as many commits as come before those that are asked for.
fn check_reaches(start: ChangesStart, commits: u64) -> Result<(), ChangesFault>
    ensures reaches { OnOk result (Reaches start commits) }
    ensures fault { IfErr result (IsTooFar start commits) }
{
    match start {
        ChangesStart::Behind(number) if commits < number => {
            Err(Found(ChangesRefusal::Commit(NoSuchCommit { number })))
        }
        _ => Ok(()),
    }
}

/// Writes the changes of a journal's commits that are asked for, below the heads of the format, as its file is read, in
/// the order of the commits, and hands on those of groups that were read together. Each piece of a line is one `write`, so a caller buffers. The
/// commits are made again over the tables, and forgotten: they take no memory. Of two faults the first in the file is
/// told; what commits before it change was written. A commit that came before the journal's is refused at first.
pub fn write_history<'a, U: UnreadDisk + Drop, W: Write>(
    rt: &(impl Threads + Sync),
    alloc: Global,
    hashing: RandomState,
    source: ChangesSource<'a, U>,
    asked: AskedChanges,
    out: &mut W,
) -> Result<ReadHistory<U::Whole>, ChangesFault>
    requires unread { U.taken source.file ≡ [] }
    ensures written { IfOk result (λ read. IsWrittenUpTo source.entry.base.value source.entry.marks.now
        (U.Whole.seen read.found) asked.past asked.start asked.format read.after (W.contents out.old) (W.contents out.new)) }
    ensures known { IfOk result (λ read. IsKnown (U.holds source.entry.file) (U.Whole.seen read.found)) }
    ensures torn { IfOk result (λ read. TellsTorn (U.Whole.seen read.found) read.torn) }
    ensures fault { IfErr result (IsFileRefusal source.entry.base.value source.entry.marks.now
        (U.holds source.entry.file) asked.past asked.start) }
{
    asked.check_begins()?;
    let ChangesSource {
        base,
        marks,
        file,
        together,
    } = source;
    let journal = match open(alloc, marks, file) {
        Ok(journal) => journal,
        Err((fault, _)) => return Err(Found(Journal(OpeningFault::Kept(fault)))),
    };
    write_heads(out, asked.format)?;
    write_loaded(out, asked, base.lines())?;
    let mut store = RowStore::new(alloc, base, hashing)?;
    let reading = Reading { journal, together };
    let journal = write_all(rt, alloc, out, asked, &mut store, reading)?;
    store.soundness();
    let after = asked.with(store.len() as u64);
    let OpenedJournal { found, kept, torn } = journal.finish();
    check_reaches(asked.start, after)?;
    Ok(ReadHistory {
        found,
        commits: kept.count,
        after,
        form: kept.form,
        torn: torn.len(),
    })
}
