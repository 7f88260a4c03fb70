//! `changes`: the changes of a journal's commits, over table files.

ghost use Rattle.std.specs.Prelude.{◌≡◌, ◌≢◌, ℕ, List, IfErr, IfOk, OnOk};
ghost use Rattle.ssb_schema.specs.declared.table.Table.{Table};
ghost use Rattle.ssb_text.specs.Layouts.{AreRows};
ghost use Rattle.changes_command.specs.Status.{changes_status};
ghost use Rattle.changes_command.specs.Written.{Changes, ChangesUpTo, TellsChangesFault};

use crate::asked::AskedChanges;
use crate::fault::ChangesFault;
use crate::fault::ChangesRefusal::Journal;
use crate::history::{ChangesSource, ReadHistory, hand_on, write_history};
use journal::Disk;
use journal_opening::{OpeningFault, OpensJournal, table_marks, tell_form};
use ssb_files::JobFault::Found;
use ssb_files::{LoadedFor, TableBytes, checked_base_of};
use ssb_journal::MOST_TOGETHER;
use ssb_text::TableFiles;
use std::hash::RandomState;
use std::io::{Read, Write};
use std::sync::Arc;
use std::thread::Threads;

/// Where the journal is, which changes are asked for, and what is told.
#[derive(Drop)]
pub struct ChangesPlace<'j, 'b, P> {
    /// The journal's file, which is there.
    pub journal: &'j P,
    /// The bytes of the tables, which are counted while these are loaded.
    pub bytes: &'b TableBytes,
    /// Which changes are written, and how.
    pub asked: AskedChanges,
    /// Whether it is told how many commits the journal has.
    pub tells: bool,
}

/// Tells that the journal's tables are not checked, if they are not; and if it is asked for, how many commits the
/// journal has, and how many bytes stand behind them.
pub(crate) fn tell_read<D: Disk, E: Write>(
    err: &mut E,
    read: &ReadHistory<D>,
    tells_commits: bool,
) {
    tell_form(err, read.form);
    if !tells_commits {
        return;
    }
    let commits = read.commits;
    let _ = match read.torn {
        0 => writeln!(err, "ssb_live: journal: {commits} commits"),
        torn => writeln!(
            err,
            "ssb_live: journal: {commits} commits, {torn} bytes torn"
        ),
    };
}

/// Writes the changes of a journal's commits that are asked for over the base that the tables spell, as signed lines.
/// The tables are read first, and then the journal, which is as it was.
pub fn write_changes<R: Threads + Sync + AllocGlobal, P: OpensJournal, I: Read + Drop, W: Write>(
    rt: &R,
    hashing: RandomState,
    tables: TableFiles<I>,
    place: &ChangesPlace<'_, '_, P>,
    out: &mut W,
) -> Result<ReadHistory<P::Disk>, ChangesFault>
    ensures written { IfOk result (λ read. (texts : Table → List ℕ) → AreRows I.remaining tables texts
        → ChangesUpTo texts (P.holds place.now.journal.now) place.now.asked.past place.now.asked.start
        place.now.asked.format read.after (W.contents out.old) (W.contents out.new)) }
    ensures fault { IfErr result (λ fault. (texts : Table → List ℕ) → AreRows I.remaining tables texts
        → TellsChangesFault texts (P.holds place.now.journal.now) (P.is_taken place.now.journal.now)
        (P.is_missing place.now.journal.now) place.now.asked.past place.now.asked.start fault) }
    ensures words { IfErr result (λ fault. changes_status fault ≢ 2) }
    ensures trace { IfErr result (λ fault. changes_status fault ≢ 3) }
{
    let alloc = rt.alloc();
    let layout = tables.layout;
    let read = checked_base_of(rt, alloc, tables, LoadedFor::Serving)?;
    let (base, checksums) = read;
    let marks = table_marks(&base, layout, place.bytes, &checksums);
    let base = Arc::new(alloc, base)?;
    let file = match place.journal.open(alloc) {
        Ok(file) => file,
        Err(error) => return Err(Found(Journal(OpeningFault::File(error)))),
    };
    let source = ChangesSource {
        base,
        marks: &marks,
        file,
        together: MOST_TOGETHER,
    };
    match write_history(rt, alloc, hashing, source, place.asked, out) {
        Ok(read) => {
            hand_on(out)?;
            Ok(read)
        }
        Err(fault) => {
            // What commits before the fault changed is handed on.
            let _ = hand_on(out);
            Err(fault)
        }
    }
}

/// Writes the changes, as `write_changes` does, and tells on `err` how many commits the journal has.
pub fn changes<
    R: Threads + Sync + AllocGlobal,
    P: OpensJournal,
    I: Read + Drop,
    W: Write,
    E: Write,
>(
    rt: &R,
    hashing: RandomState,
    tables: TableFiles<I>,
    place: &ChangesPlace<'_, '_, P>,
    out: &mut W,
    err: &mut E,
) -> Result<(), ChangesFault>
    ensures written { OnOk result ((texts : Table → List ℕ) → AreRows I.remaining tables texts
        → Changes texts (P.holds place.now.journal.now) place.now.asked.past place.now.asked.start
        place.now.asked.format (W.contents out.old) (W.contents out.new)) }
    ensures fault { IfErr result (λ fault. (texts : Table → List ℕ) → AreRows I.remaining tables texts
        → TellsChangesFault texts (P.holds place.now.journal.now) (P.is_taken place.now.journal.now)
        (P.is_missing place.now.journal.now) place.now.asked.past place.now.asked.start fault) }
    ensures words { IfErr result (λ fault. changes_status fault ≢ 2) }
    ensures trace { IfErr result (λ fault. changes_status fault ≢ 3) }
{
    match write_changes(rt, hashing, tables, place, out) {
        Ok(read) => {
            tell_read(err, &read, place.tells);
            Ok(())
        }
        Err(fault) => Err(fault),
    }
}

/// Writes the changes, as `changes` does, and tells a fault on a line of `err`.
///
/// The result is the exit status: 0 where all were written, 1 where the data or the journal is refused, or has no such
/// commit, and else 4.
pub fn run_changes<
    R: Threads + Sync + AllocGlobal,
    P: OpensJournal,
    I: Read + Drop,
    W: Write,
    E: Write,
>(
    rt: &R,
    hashing: RandomState,
    tables: TableFiles<I>,
    place: &ChangesPlace<'_, '_, P>,
    out: &mut W,
    err: &mut E,
) -> u8
    ensures written { result ≡ 0 → (texts : Table → List ℕ) → AreRows I.remaining tables texts
        → Changes texts (P.holds place.now.journal.now) place.now.asked.past place.now.asked.start
        place.now.asked.format (W.contents out.old) (W.contents out.new) }
    ensures others { result ≢ 0 → result ≢ 1 → result ≡ 4 }
{
    match changes(rt, hashing, tables, place, out, err) {
        Ok(()) => 0,
        Err(fault) => fault.tell(err),
    }
}
