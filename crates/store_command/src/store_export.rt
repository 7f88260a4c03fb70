//! `export` of a store.

ghost use Rattle.std.specs.Prelude.{IfOk};
ghost use Rattle.table_folder.specs.FilesFolder.{IsUntouched};

use crate::fault::{StoreJobFault, of_export};
use crate::reading::{check_none_missing, read_commits, read_up_to};
use crate::tables::LoadedTables;
use export_command::{export_into, fill_folder, find_folder};
use journal_file::JournalFile;
use journal_opening::table_marks;
use ssb_files::{LoadedFor, TableBytes, checked_base_of};
use ssb_text::TableFiles;
use std::alloc::Global;
use std::hash::RandomState;
use std::io::{Read, Write};
use std::rt::Files;
use std::thread::Threads;
use store_folder::{FoundStore, StorePlace, StoreUse};
use table_folder::FilesFolder;

/// A store whose tables are exported, and where they go.
#[derive(Drop)]
pub struct StoreExport<'a, F: Files> {
    /// The files among which the store is, and the folder.
    pub files: &'a F,
    /// The store's folder.
    pub store: &'a str,
    /// What was found in it, up to the same commit.
    pub found: &'a FoundStore,
    /// The number of the last commit; none: the last one of the store.
    pub at: Option<u64>,
    /// The folder for the tables, which is not there or is empty.
    pub folder: &'a str,
    /// The bytes of the store's tables, which are counted while these are loaded.
    pub bytes: &'a TableBytes,
    /// Whether it is told how many commits there are.
    pub tells: bool,
}

// A base of tables that were found, by what a journal's head knows them, and where they go.
#[derive(Drop)]
struct FoundTables<'a, F: Files> {
    loaded: LoadedTables,
    folder: FilesFolder<'a, F>,
}

// Looks at the folder, and then loads the tables that were found.
fn load_found<'a, F: Files, I: Read + Drop>(
    rt: &(impl Threads + Sync),
    alloc: Global,
    tables: TableFiles<I>,
    place: &StoreExport<'a, F>,
) -> Result<FoundTables<'a, F>, StoreJobFault>
    ensures { IfOk result (λ found. IsUntouched found.folder) }
{
    let folder = match find_folder(place.files, alloc, place.folder) {
        Ok(folder) => folder,
        Err(fault) => return Err(of_export(fault)),
    };
    let layout = tables.layout;
    let read = checked_base_of(rt, alloc, tables, LoadedFor::Serving)?;
    let (base, checksums) = read;
    let marks = table_marks(&base, layout, place.bytes, &checksums);
    let loaded = LoadedTables { base, marks };
    Ok(FoundTables { loaded, folder })
}

// Writes the tables after all commits.
fn export_all<'a, R, F, E: Write>(
    rt: &R,
    hashing: RandomState,
    tables: FoundTables<'a, F>,
    journal: &StorePlace<'a, F>,
    tells: bool,
    err: &mut E,
) -> Result<(), StoreJobFault>
where
    R: Threads + Sync + AllocGlobal,
    F: Files + AllocGlobal,
    F::File: JournalFile,
    requires { IsUntouched tables.folder }
{
    let FoundTables { loaded, mut folder } = tables;
    let LoadedTables { base, marks } = loaded;
    let read = match read_commits(rt, hashing, journal, base, &marks) {
        Ok(read) => read,
        Err(fault) => return Err(fault),
    };
    let found = journal.found;
    check_none_missing(found, found.after().saturating_add(read.commits()))?;
    match export_into(rt.alloc(), read, &mut folder, err, tells) {
        Ok(()) => Ok(()),
        Err(fault) => Err(of_export(fault)),
    }
}

// Writes the tables after the commits up to a number, and tells of them.
fn export_up_to<'a, R, F>(
    rt: &R,
    hashing: RandomState,
    tables: FoundTables<'a, F>,
    journal: &StorePlace<'a, F>,
    number: u64,
) -> Result<(), StoreJobFault>
where
    R: Threads + Sync + AllocGlobal,
    F: Files + AllocGlobal,
    F::File: JournalFile,
    requires { IsUntouched tables.folder }
{
    let FoundTables { loaded, mut folder } = tables;
    let LoadedTables { base, marks } = loaded;
    let read = read_up_to(rt, hashing, journal, base, &marks, number)?;
    match fill_folder(rt.alloc(), &read.tables, &mut folder) {
        Ok(()) => Ok(()),
        Err(fault) => Err(of_export(fault)),
    }
}

// Writes the tables of a store, of which those that were found are given, into the folder.
fn export_store<R, F, I: Read + Drop, E: Write>(
    rt: &R,
    hashing: RandomState,
    tables: TableFiles<I>,
    place: &StoreExport<'_, F>,
    err: &mut E,
) -> Result<(), StoreJobFault>
where
    R: Threads + Sync + AllocGlobal,
    F: Files + AllocGlobal,
    F::File: JournalFile,
{
    let alloc = rt.alloc();
    let tables = load_found(rt, alloc, tables, place)?;
    let journal = StorePlace::new(
        place.files,
        alloc,
        place.store,
        place.found,
        StoreUse::Reading,
    )?;
    let Some(number) = place.at else {
        return export_all(rt, hashing, tables, &journal, place.tells, err);
    };
    export_up_to(rt, hashing, tables, &journal, number)?;
    if place.tells {
        let _ = writeln!(err, "ssb_live: export: tables after {number} commits");
    }
    Ok(())
}

/// Exports the tables of a store after all of its commits, or after so many, and tells a fault on a line of `err`. The
/// readers are of the files of the tables that were found.
///
/// The exit status is 0 where the folder has all tables, 1 where the folder or the store is refused and nothing was
/// made, and else 4.
pub fn run_store_export<R, F, I: Read + Drop, E: Write>(
    rt: &R,
    hashing: RandomState,
    tables: TableFiles<I>,
    place: &StoreExport<'_, F>,
    err: &mut E,
) -> u8
where
    R: Threads + Sync + AllocGlobal,
    F: Files + AllocGlobal,
    F::File: JournalFile,
{
    match export_store(rt, hashing, tables, place, err) {
        Ok(()) => 0,
        Err(fault) => fault.tell(err),
    }
}
