//! `changes --feed`: the changes of a journal whose groups come as a stream.

ghost use Rattle.std.specs.Prelude.{◌≡◌, ◌≢◌, ℕ, List, [], IfErr, IfOk, OnOk};
ghost use Rattle.journal_opening.specs.Kept.{IsKnown};
ghost use Rattle.ssb_base.specs.Base.{Tables};
ghost use Rattle.ssb_journal.specs.declared.head.TableMark.{TableMark};
ghost use Rattle.ssb_schema.specs.declared.table.Table.{Table};
ghost use Rattle.ssb_text.specs.Layouts.{AreRows};
ghost use Rattle.changes_command.specs.Fed.{EndsWhole, Feeds, IsFeedRefusal, TellsFeedFault, TellsStreamFault};
ghost use Rattle.changes_command.specs.Status.{feeding_status};
ghost use Rattle.changes_command.specs.Written.{IsWritten, TellsFileFault};
ghost use Rattle.changes_command.specs.declared.signed.ChangesStart.{ChangesStart};

use crate::asked::AskedChanges;
use crate::changing::tell_read;
use crate::fault::ChangesFault;
use crate::fault::ChangesRefusal::Journal;
use crate::feed_fault::{FeedFault, FeedJobFault, FeedRefusal};
use crate::feed_stream::FeedStream;
use crate::history::{ChangesSource, ReadHistory, hand_on, write_history};
use journal::UnreadDisk;
use journal_opening::{OpeningFault, table_marks};
use ssb_files::JobFault::{Found, Program};
use ssb_files::{LoadedFor, TableBytes, checked_base_of};
use ssb_journal::{JournalFault, JournalOpenFault};
use ssb_text::TableFiles;
use std::alloc::Global;
use std::hash::RandomState;
use std::io::{Read, Write};
use std::sync::Arc;
use std::thread::Threads;

/// The stream, which changes are asked for, and what is told.
#[derive(Drop)]
pub struct FeedPlace<'b, G: Read + Drop> {
    /// The groups of a journal, as `ship` writes them.
    pub input: G,
    /// The bytes of the tables, which are counted while these are loaded.
    pub bytes: &'b TableBytes,
    /// Which changes are written, and how.
    pub asked: AskedChanges,
    /// Whether it is told how many commits have come.
    pub tells: bool,
}

// What is told of a stream where this is told of a journal's file.
fn of_file(fault: ChangesFault) -> FeedJobFault
    ensures { (base : Tables) (marks : List TableMark) (stream : List ℕ) (past : ℕ) (start : ChangesStart)
        → TellsFileFault base marks stream past start fault → TellsStreamFault base marks stream past start result }
{
    match fault {
        Program(fault) => Program(fault),
        Found(Journal(OpeningFault::Kept(JournalOpenFault::Journal(JournalFault::NotAJournal)))) =>
            { Found(FeedRefusal::Feed(FeedFault::NotAFeed)) }
        Found(Journal(OpeningFault::Kept(JournalOpenFault::Journal(JournalFault::Damaged(1))))) => {
            Found(FeedRefusal::Feed(FeedFault::NotAFeed))
        }
        Found(fault) => Found(FeedRefusal::Changes(fault)),
    }
}

/// Writes the changes of a stream's commits that are asked for, as `write_history` does of a file. That the stream ends
/// within a group is told when what its commits change was written.
pub fn write_feed<'a, U: UnreadDisk + Drop, W: Write>(
    rt: &(impl Threads + Sync),
    alloc: Global,
    hashing: RandomState,
    source: ChangesSource<'a, U>,
    asked: AskedChanges,
    out: &mut W,
) -> Result<ReadHistory<U::Whole>, FeedJobFault>
    requires unread { U.taken source.file ≡ [] }
    ensures written { IfOk result (λ read. IsWritten source.entry.base.value source.entry.marks.now
        (U.Whole.seen read.found) asked.past asked.start asked.format (W.contents out.old) (W.contents out.new)) }
    ensures whole { IfOk result (λ read. EndsWhole (U.Whole.seen read.found)) }
    ensures known { IfOk result (λ read. IsKnown (U.holds source.entry.file) (U.Whole.seen read.found)) }
    ensures fault { IfErr result (IsFeedRefusal source.entry.base.value source.entry.marks.now
        (U.holds source.entry.file) asked.past asked.start) }
{
    match write_history(rt, alloc, hashing, source, asked, out) {
        Ok(read) if read.torn > 0 => Err(Found(FeedRefusal::Feed(FeedFault::FeedEnded))),
        Ok(read) => Ok(read),
        Err(fault) => Err(of_file(fault)),
    }
}

/// Writes the changes of a stream's commits that are asked for over the base that the tables spell, as signed lines, those
/// of each group as it comes, and tells on `err` how many commits have come. The tables are read first.
pub fn follow<R: Threads + Sync + AllocGlobal, I: Read + Drop, G: Read + Drop, W: Write, E: Write>(
    rt: &R,
    hashing: RandomState,
    tables: TableFiles<I>,
    feed: FeedPlace<'_, G>,
    out: &mut W,
    err: &mut E,
) -> Result<(), FeedJobFault>
    ensures written { OnOk result ((texts : Table → List ℕ) → AreRows I.remaining tables texts
        → Feeds texts (G.remaining feed.entry.input) feed.entry.asked.past feed.entry.asked.start
        feed.entry.asked.format (W.contents out.old) (W.contents out.new)) }
    ensures fault { IfErr result (λ fault. (texts : Table → List ℕ) → AreRows I.remaining tables texts
        → TellsFeedFault texts (G.remaining feed.entry.input) feed.entry.asked.past feed.entry.asked.start fault) }
    ensures words { IfErr result (λ fault. feeding_status fault ≢ 2) }
    ensures trace { IfErr result (λ fault. feeding_status fault ≢ 3) }
{
    let alloc = rt.alloc();
    let layout = tables.layout;
    let FeedPlace {
        input,
        bytes,
        asked,
        tells,
    } = feed;
    let read = checked_base_of(rt, alloc, tables, LoadedFor::Serving)?;
    let (base, checksums) = read;
    let marks = table_marks(&base, layout, bytes, &checksums);
    let base = Arc::new(alloc, base)?;
    let source = ChangesSource {
        base,
        marks: &marks,
        file: FeedStream::new(input),
        together: 1,
    };
    match write_feed(rt, alloc, hashing, source, asked, out) {
        Ok(read) => {
            tell_read(err, &read, tells);
            Ok(())
        }
        Err(fault) => {
            // What commits before the fault changed is handed on.
            let _ = hand_on(out);
            Err(fault)
        }
    }
}

/// Writes the changes, as `follow` does, and tells a fault on a line of `err`.
///
/// The result is the exit status: 0 where all were written, and the stream ends where a group does; 1 where the data or
/// the stream is refused, or has no such commit, and else 4.
pub fn run_feed<
    R: Threads + Sync + AllocGlobal,
    I: Read + Drop,
    G: Read + Drop,
    W: Write,
    E: Write,
>(
    rt: &R,
    hashing: RandomState,
    tables: TableFiles<I>,
    feed: FeedPlace<'_, G>,
    out: &mut W,
    err: &mut E,
) -> u8
    ensures written { result ≡ 0 → (texts : Table → List ℕ) → AreRows I.remaining tables texts
        → Feeds texts (G.remaining feed.entry.input) feed.entry.asked.past feed.entry.asked.start
        feed.entry.asked.format (W.contents out.old) (W.contents out.new) }
    ensures others { result ≢ 0 → result ≢ 1 → result ≡ 4 }
{
    match follow(rt, hashing, tables, feed, out, err) {
        Ok(()) => 0,
        Err(fault) => fault.tell(err),
    }
}
