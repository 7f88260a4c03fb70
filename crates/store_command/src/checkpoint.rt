//! `checkpoint`: newer tables of a store's closed segments.

ghost use Rattle.std.specs.Prelude.{◌≡◌, ◌<◌, ◌∷◌, IfOk, OnOk};
ghost use Rattle.store_core.specs.Calls.{Named, Sure, tables_known};
ghost use Rattle.store_core.specs.declared.calls.StoreCall.TheVariants.{WriteTables};
ghost use Rattle.store_folder.specs.Steps.{found_calls};

use crate::fault::{StoreJobFault, StoreRefusal, of_export};
use crate::finding::find;
use crate::making::written;
use crate::putting::{free_folder, put_sizes};
use crate::reading::read_commits;
use crate::tables::{LoadedTables, load_tables};
use export_command::{JournalTables, export_into};
use journal_file::{FileDisk, JournalFile, OpenError};
use ssb_base::Base;
use ssb_files::JobFault::Found;
use ssb_journal::TableMark;
use std::alloc::{AllocError, Global};
use std::fs::OpenOptions;
use std::hash::RandomState;
use std::io::{self, ErrorKind, Write};
use std::rt::Files;
use std::thread::Threads;
use store_folder::{
    FoundStore, Sizes, StoreFault, StoreFile, StoreNumbers, StorePlace, StoreSteps, StoreUse,
    checkpoint_lock_path, list_store, tables_path,
};

// What a checkpoint has done: after how many commits the newer tables are, and how many segments they are of.
#[derive(Clone, Copy)]
struct Folded {
    after: u64,
    segments: usize,
}

fn open_lock<F: Files>(files: &F, path: &str) -> Result<F::File, OpenError>
where
    F::File: JournalFile,
{
    let file = OpenOptions::new()
        .read(true)
        .write(true)
        .create(true)
        .open(files, path)?;
    file.lock_alone()?;
    Ok(file)
}

// The lock against another checkpoint.
fn lock<F: Files>(files: &F, alloc: Global, folder: &str) -> Result<F::File, StoreJobFault>
where
    F::File: JournalFile,
{
    let path = checkpoint_lock_path(alloc, folder)?;
    match open_lock(files, path.as_str()) {
        Ok(file) => Ok(file),
        Err(OpenError::InUse) => Err(Found(StoreRefusal::InUse)),
        Err(_) => Err(Found(StoreRefusal::CannotWrite(path))),
    }
}

// The tables after a store's closed segments, over its newest ones. There are as many commits as the names tell.
fn read_closed<'m, 'f, R: Threads + Sync + AllocGlobal, F: Files>(
    rt: &R,
    hashing: RandomState,
    journal: &StorePlace<'f, F>,
    base: Base,
    marks: &'m [TableMark],
) -> Result<JournalTables<'m, FileDisk<StoreFile<'f, F>>>, StoreJobFault>
where
    F::File: JournalFile,
{
    let read = match read_commits(rt, hashing, journal, base, marks) {
        Ok(read) => read,
        Err(fault) => return Err(fault),
    };
    let last = journal.found.last();
    if journal.found.after().checked_add(read.commits()) != Some(last) {
        return Err(Found(StoreRefusal::Store(StoreFault::Gap(last))));
    }
    Ok(read)
}

// Writes the tables after the closed segments into the folder of their number.
fn write_newer<R, F, E: Write>(
    rt: &R,
    hashing: RandomState,
    steps: &mut StoreSteps<'_, F>,
    journal: &StorePlace<'_, F>,
    path: &str,
    err: &mut E,
) -> Result<(), StoreJobFault>
where
    R: Threads + Sync + AllocGlobal,
    F: Files + AllocGlobal,
    F::File: JournalFile,
    requires found { steps.old ≡ found_calls journal.now.found.now.sizes.after journal.now.found.now.last }
    requires closed { journal.now.found.now.sizes.after < journal.now.found.now.last }
    ensures { OnOk result (steps.new ≡ WriteTables journal.now.found.now.last ∷ steps.old) }
{
    let alloc = rt.alloc();
    let files = journal.files;
    let last = journal.found.last();
    written(alloc, path, steps.clear_tables(last))?;
    let mut newer = free_folder(files, alloc, path)?;
    let old = tables_path(alloc, journal.folder, journal.found.after())?;
    let LoadedTables { base, marks } = load_tables(rt, files, old.as_str())?;
    let read = match read_closed(rt, hashing, journal, base, &marks) {
        Ok(read) => read,
        Err(fault) => return Err(fault),
    };
    match export_into(alloc, read, &mut newer, err, false) {
        Ok(()) => {
            steps.note_written(last, &newer);
            Ok(())
        }
        Err(fault) => Err(of_export(fault)),
    }
}

// Writes the tables after the closed segments, of which there are some, and tells of them.
fn fold<R, F, E: Write>(
    rt: &R,
    hashing: RandomState,
    steps: &mut StoreSteps<'_, F>,
    found: &FoundStore,
    err: &mut E,
) -> Result<Folded, StoreJobFault>
where
    R: Threads + Sync + AllocGlobal,
    F: Files + AllocGlobal,
    F::File: JournalFile,
    requires found { steps.old ≡ found_calls found.now.sizes.after found.now.last }
    requires closed { found.now.sizes.after < found.now.last }
{
    let alloc = rt.alloc();
    let (files, folder) = (steps.files(), steps.folder());
    let after = found.last();
    let path = tables_path(alloc, folder, after)?;
    let journal = StorePlace::new(files, alloc, folder, found, StoreUse::Folding)?;
    write_newer(rt, hashing, steps, &journal, path.as_str(), err)?;
    let LoadedTables { base: _, marks } = load_tables(rt, files, path.as_str())?;
    let sizes = Sizes::new(alloc, after, found.sizes().of.clone()?, &marks)?;
    written(alloc, path.as_str(), put_sizes(steps, &sizes))?;
    Ok(Folded {
        after,
        segments: found.closed().len(),
    })
}

// The number of the oldest tables that are kept: of the whole ones before the newest, these are the first that are after
// at most so many commits, or the oldest.
fn find_kept<F: Files>(
    steps: &mut StoreSteps<'_, F>,
    tables: &[u64],
    newest: u64,
    most: u64,
) -> io::Result<u64>
    ensures { IfOk result (λ kept. tables_known steps.new ≡ Named kept) }
{
    if !steps.find_tables(newest)? {
        return Err(io::Error::from(ErrorKind::NotFound));
    }
    let mut kept = newest;
    for after in tables.iter().rev() {
        if *after < newest && steps.find_tables(*after)? {
            kept = *after;
            if kept <= most {
                return Ok(kept);
            }
        }
    }
    Ok(kept)
}

// Takes away the tables and the segments before tables that are there whatever crashes.
fn drop_before<F: Files>(
    steps: &mut StoreSteps<'_, F>,
    numbers: &StoreNumbers,
    kept: u64,
) -> io::Result<()>
    requires { tables_known steps.old ≡ Sure kept }
{
    for tables in &numbers.tables {
        if *tables < kept {
            steps.drop_tables(*tables, kept)?;
        }
    }
    for segment in &numbers.segments {
        if *segment < kept {
            steps.drop_segment(*segment, kept)?;
        }
    }
    steps.sync_names()
}

// Takes away what lies before the newest tables and those before them, or before those of a commit from which on all
// is kept. What is kept stays with all segments behind it: a start that has found older tables may load them still.
fn drop_older<F: Files>(
    alloc: Global,
    steps: &mut StoreSteps<'_, F>,
    newest: u64,
    keep_from: Option<u64>,
) -> io::Result<()> {
    let numbers = list_store(steps.files(), alloc, steps.folder())?;
    let most = keep_from.unwrap_or(u64::MAX);
    let kept = find_kept(steps, &numbers.tables, newest, most)?;
    // A checkpoint that was cut off may have named them, and no more.
    steps.sync_name(kept)?;
    drop_before(steps, &numbers, kept)
}

/// Which store gets newer tables, what is kept of it, and what is told.
#[derive(Drop)]
pub struct CheckpointPlace<'a, F: Files> {
    /// The files among which the store is.
    pub files: &'a F,
    /// The store's folder.
    pub folder: &'a str,
    /// A commit from which on all moments are kept, by its number: the tables that are after at most so many commits
    /// stay, and all behind them.
    pub keep_from: Option<u64>,
    /// Whether it is told what was done.
    pub tells: bool,
}

// Finds the store whose lock is held, and begins the steps on it.
fn begin<'a, F: Files>(
    files: &'a F,
    alloc: Global,
    folder: &'a str,
) -> Result<(StoreSteps<'a, F>, FoundStore), StoreJobFault>
where
    F::File: JournalFile,
    ensures { IfOk result (λ begun. begun.0 ≡ found_calls begun.1.sizes.after begun.1.last) }
{
    match StoreSteps::find(files, alloc, folder) {
        Ok(begun) => Ok(begun),
        Err(fault) => Err(Found(StoreRefusal::Store(fault))),
    }
}

// Makes newer tables, where a segment is closed, and takes away what no start needs.
fn checkpoint<R, F, E: Write>(
    rt: &R,
    hashing: RandomState,
    place: &CheckpointPlace<'_, F>,
    err: &mut E,
) -> Result<Option<Folded>, StoreJobFault>
where
    R: Threads + Sync + AllocGlobal,
    F: Files + AllocGlobal,
    F::File: JournalFile,
{
    let alloc = rt.alloc();
    let (files, folder) = (place.files, place.folder);
    // The lock's file is made in a store alone; behind it no other checkpoint changes what is found.
    find(files, alloc, folder, None)?;
    let held = lock(files, alloc, folder)?;
    let (mut steps, found) = begin(files, alloc, folder)?;
    // Where segments are closed, the last one is not that of the tables.
    let folded = if found.after() < found.last() {
        Some(fold(rt, hashing, &mut steps, &found, err)?)
    } else {
        None
    };
    let dropped = drop_older(alloc, &mut steps, found.last(), place.keep_from);
    held.drop();
    written(alloc, folder, dropped)?;
    Ok(folded)
}

// Tells what was done.
fn tell_folded<E: Write>(err: &mut E, folded: Option<Folded>) {
    let _ = match folded {
        Some(Folded { after, segments: 1 }) => {
            writeln!(
                err,
                "ssb_live: checkpoint: tables after {after} commits, 1 segment"
            )
        }
        Some(Folded { after, segments }) => writeln!(
            err,
            "ssb_live: checkpoint: tables after {after} commits, {segments} segments"
        ),
        None => writeln!(err, "ssb_live: checkpoint: nothing to fold"),
    };
}

/// Makes newer tables of a store's newest ones and its closed segments, and takes away what lies before the newest
/// tables and those before them, and before those of a commit from which on all is kept, beside a server of the store
/// too; and tells on `err` what it has done, where that is asked for, and a fault.
///
/// The exit status is 0 where the store has no closed segment any more, 1 where the store is refused or another
/// checkpoint is under way, and else 4: then nothing is lost.
pub fn run_checkpoint<R, F, E: Write>(
    rt: &R,
    hashing: RandomState,
    place: &CheckpointPlace<'_, F>,
    err: &mut E,
) -> u8
where
    R: Threads + Sync + AllocGlobal,
    F: Files + AllocGlobal,
    F::File: JournalFile,
{
    let folded = match checkpoint(rt, hashing, place, err) {
        Ok(folded) => folded,
        Err(fault) => return fault.tell(err),
    };
    if place.tells {
        tell_folded(err, folded);
    }
    0
}
