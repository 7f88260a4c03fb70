//! `changes` of a store.

ghost use Rattle.std.specs.Prelude.{◌≡◌, ◌≢◌, ℕ, List, IfErr, IfOk, OnOk};
ghost use Rattle.changes_command.specs.Status.{changes_status};
ghost use Rattle.export_command.specs.Status.{export_status};
ghost use Rattle.ssb_schema.specs.declared.table.Table.{Table};
ghost use Rattle.ssb_text.specs.Layouts.{AreRows};
ghost use Rattle.store_command.specs.Moments.{WritesStoreChanges};
ghost use Rattle.store_command.specs.Status.{store_status};

use crate::fault::{StoreJobFault, StoreRefusal};
use crate::reading::{check_none_missing, of_history};
use changes_command::{
    AskedChanges, ChangesFault, ChangesFormat, ChangesPlace, ChangesRefusal, ChangesStart,
    write_changes,
};
use export_command::{ExportFault, ExportRefusal};
use journal_file::JournalFile;
use ssb_files::JobFault::{Found, Program};
use ssb_files::TableBytes;
use ssb_text::TableFiles;
use std::alloc::Global;
use std::hash::RandomState;
use std::io::{Read, Write};
use std::rt::Files;
use std::thread::Threads;
use store_folder::{FoundStore, StoreFault, StorePlace, StoreUse, sizes_path};

/// A store whose changes are written, which of them, and how.
#[derive(Drop)]
pub struct StoreChanges<'a, F: Files> {
    /// The files among which the store is.
    pub files: &'a F,
    /// The store's folder.
    pub store: &'a str,
    /// What was found in it: its newest tables, or the newest that are after at most as many commits as come before
    /// those that are asked for.
    pub found: &'a FoundStore,
    /// Which changes are written, by the numbers of the store.
    pub start: ChangesStart,
    /// How they are written.
    pub format: ChangesFormat,
    /// The bytes of the store's tables, which are counted while these are loaded.
    pub bytes: &'a TableBytes,
    /// Whether it is told how many commits the store has.
    pub tells: bool,
}

// What an export tells of a journal where changes tell this.
fn as_export(fault: ChangesFault) -> ExportFault
    ensures { export_status result ≡ changes_status fault }
{
    match fault {
        Program(fault) => Program(fault),
        Found(ChangesRefusal::Journal(fault)) => Found(ExportRefusal::Journal(fault)),
        Found(ChangesRefusal::Commit(fault)) => Found(ExportRefusal::Commit(fault)),
    }
}

// Which changes are asked for, behind the commits that the tables are after. No store has so many that a number is
// wanting: the server refuses it, too.
fn asked_changes<F: Files>(
    alloc: Global,
    place: &StoreChanges<'_, F>,
) -> Result<AskedChanges, StoreJobFault>
    ensures start { IfOk result (λ asked. asked.start ≡ place.now.start) }
    ensures format { IfOk result (λ asked. asked.format ≡ place.now.format) }
    ensures words { IfErr result (λ fault. store_status fault ≢ 2) }
    ensures trace { IfErr result (λ fault. store_status fault ≢ 3) }
{
    let after = place.found.after();
    match AskedChanges::new(after, place.start, place.format) {
        Some(asked) => Ok(asked),
        None => {
            let path = sizes_path(alloc, place.store, after)?;
            Err(Found(StoreRefusal::Store(StoreFault::Damaged(path))))
        }
    }
}

// Tells how many commits the store has, and how many bytes stand behind the last whole group, where that is asked for.
fn tell_commits<E: Write>(err: &mut E, commits: u64, torn: usize, is_asked: bool) {
    if !is_asked {
        return;
    }
    let _ = match torn {
        0 => writeln!(err, "ssb_live: store: {commits} commits"),
        torn => writeln!(err, "ssb_live: store: {commits} commits, {torn} bytes torn"),
    };
}

// Writes the changes of the commits behind the tables that were found, and tells how many the store has then.
fn write_store_changes<R, F, I: Read + Drop, W: Write, E: Write>(
    rt: &R,
    hashing: RandomState,
    tables: TableFiles<I>,
    place: &StoreChanges<'_, F>,
    out: &mut W,
    err: &mut E,
) -> Result<(), StoreJobFault>
where
    R: Threads + Sync + AllocGlobal,
    F: Files,
    F::File: JournalFile,
    ensures written { OnOk result ((texts : Table → List ℕ) → AreRows I.remaining tables texts
        → WritesStoreChanges texts place.now.start place.now.format (W.contents out.old) (W.contents out.new)) }
    ensures words { IfErr result (λ fault. store_status fault ≢ 2) }
    ensures trace { IfErr result (λ fault. store_status fault ≢ 3) }
{
    let alloc = rt.alloc();
    let asked = asked_changes(alloc, place)?;
    let journal = StorePlace::new(
        place.files,
        alloc,
        place.store,
        place.found,
        StoreUse::Reading,
    )?;
    let changes = ChangesPlace {
        journal: &journal,
        bytes: place.bytes,
        asked,
        tells: place.tells,
    };
    match write_changes(rt, hashing, tables, &changes, out) {
        Ok(read) => {
            check_none_missing(place.found, read.after)?;
            tell_commits(err, read.after, read.torn, place.tells);
            Ok(())
        }
        Err(fault) => Err(of_history(place.found, as_export(fault))),
    }
}

/// Writes the changes of a store's commits that are asked for, as signed lines, by their numbers in the store, and tells
/// a fault on a line of `err`. The readers are of the files of the tables that were found.
///
/// The exit status is 0 where all were written, 1 where the store is refused, or has no such commit, and else 4. What
/// commits before a fault changed was written.
pub fn run_store_changes<R, F, I: Read + Drop, W: Write, E: Write>(
    rt: &R,
    hashing: RandomState,
    tables: TableFiles<I>,
    place: &StoreChanges<'_, F>,
    out: &mut W,
    err: &mut E,
) -> u8
where
    R: Threads + Sync + AllocGlobal,
    F: Files,
    F::File: JournalFile,
    ensures written { result ≡ 0 → (texts : Table → List ℕ) → AreRows I.remaining tables texts
        → WritesStoreChanges texts place.now.start place.now.format (W.contents out.old) (W.contents out.new) }
    ensures others { result ≢ 0 → result ≢ 1 → result ≡ 4 }
{
    match write_store_changes(rt, hashing, tables, place, out, err) {
        Ok(()) => 0,
        Err(fault) => fault.tell(err),
    }
}
