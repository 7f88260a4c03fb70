//! `store`: a new store of five tables.

ghost use Rattle.std.specs.Prelude.{◌≡◌, [], ◌∷◌, IsOk, OnOk};
ghost use Rattle.store_core.specs.declared.calls.StoreCall.TheVariants.{BeginSegment, FindNothing, SyncNames};
ghost use Rattle.table_folder.specs.FilesFolder.{IsFilled};

use crate::fault::{StoreJobFault, StoreRefusal, of_export};
use crate::no_commits::NoCommits;
use crate::putting::{free_folder, put_sizes};
use crate::tables::{LoadedTables, load_tables};
use export_command::{ExportPlace, export};
use journal_file::{JournalFile, sync_name};
use ssb_files::JobFault::{Found, Program};
use ssb_files::{Fault, TableBytes};
use ssb_journal::{HeadForm, TableMark, head_of, seal};
use ssb_text::TableFiles;
use std::alloc::{AllocError, Global};
use std::fs;
use std::hash::RandomState;
use std::io::{self, ErrorKind, Read, Write};
use std::rt::Files;
use std::thread::Threads;
use store_folder::{SegmentHead, Sizes, StoreSteps, tables_path};
use table_folder::{FilesFolder, TableFolder};

// How many digits a checksum has.
const DIGITS: usize = 32;

// Which store these first tables make: the digits of the checksum of the head of a journal over them.
fn store_of(alloc: Global, marks: &[TableMark]) -> Result<Vec<u8>, AllocError> {
    let head = seal(alloc, &head_of(alloc, HeadForm::Checksums, marks)?)?;
    head.get(..DIGITS).unwrap_or(&[]).to_vec(alloc)
}

// Looks whether the folder is not there or is empty, and makes it. It tells whether it was not there.
fn make_folder<F: Files>(files: &F, alloc: Global, folder: &str) -> Result<bool, StoreJobFault> {
    free_folder(files, alloc, folder)?;
    let made = match fs::create_dir(files, folder) {
        Ok(()) => match sync_name(files, folder) {
            Ok(()) => Ok(true),
            Err(error) => Err(error),
        },
        Err(error) if error.kind() == ErrorKind::AlreadyExists => Ok(false),
        Err(error) => Err(error),
    };
    written(alloc, folder, made)
}

/// A folder that could not be written is told by its path.
pub(crate) fn written<T>(
    alloc: Global,
    folder: &str,
    done: io::Result<T>,
) -> Result<T, StoreJobFault>
    ensures { OnOk result (IsOk done) }
{
    match done {
        Ok(value) => Ok(value),
        Err(error) if error.kind() == ErrorKind::OutOfMemory => Err(Program(Fault::OutOfMemory)),
        Err(_) => Err(Found(StoreRefusal::CannotWrite(String::from_str(alloc, folder)?))),
    }
}

// Makes the first segment, which has a name when the first tables get theirs.
fn make_first_segment<F: Files>(
    steps: &mut StoreSteps<'_, F>,
    head: &SegmentHead<'_>,
) -> io::Result<()>
where
    F::File: JournalFile,
    requires new { steps.old ≡ FindNothing ∷ [] }
    requires first { head.now.after ≡ 0 }
    ensures { OnOk result (steps.new ≡ SyncNames ∷ BeginSegment 0 0 ∷ FindNothing ∷ []) }
{
    steps.begin_segment(0, head)?;
    steps.sync_names()
}

// Makes the first segment, and tells of the first tables, which are written.
fn begin_store<R: Threads + Sync + AllocGlobal, F: Files + AllocGlobal>(
    rt: &R,
    steps: &mut StoreSteps<'_, F>,
    tables: &FilesFolder<'_, F>,
) -> Result<(), StoreJobFault>
where
    F::File: JournalFile,
    requires new { steps.old ≡ FindNothing ∷ [] }
    requires filled { IsFilled tables.now }
{
    let alloc = rt.alloc();
    let folder = steps.folder();
    let LoadedTables { base: _, marks } = load_tables(rt, steps.files(), tables.path())?;
    let of = store_of(alloc, &marks)?;
    let head = SegmentHead {
        after: 0,
        of: &of,
        before: 0,
    };
    written(alloc, folder, make_first_segment(steps, &head))?;
    steps.note_written(0, tables);
    let sizes = Sizes::new(alloc, 0, of.clone()?, &marks)?;
    written(alloc, folder, put_sizes(steps, &sizes))
}

fn make_store<R, F, I: Read + Drop, E: Write>(
    rt: &R,
    hashing: RandomState,
    files: &F,
    tables: TableFiles<I>,
    bytes: &TableBytes,
    folder: &str,
    err: &mut E,
) -> Result<(), StoreJobFault>
where
    R: Threads + Sync + AllocGlobal,
    F: Files + AllocGlobal,
    F::File: JournalFile,
{
    let alloc = rt.alloc();
    let is_made = make_folder(files, alloc, folder)?;
    let path = tables_path(alloc, folder, 0)?;
    let place = ExportPlace {
        journal: &NoCommits,
        files,
        folder: path.as_str(),
        bytes,
        tells: false,
    };
    let tables = match export(rt, hashing, tables, &place, err) {
        Ok(tables) => tables,
        Err(fault) => {
            // It is empty, or has parts of tables, which `95 NotEmpty` tells of the next time.
            if is_made {
                let _ = fs::remove_dir(files, folder);
            }
            return Err(of_export(fault));
        }
    };
    let mut steps = StoreSteps::begin(files, alloc, folder);
    begin_store(rt, &mut steps, &tables)
}

/// Makes a new store of five tables in a folder that is not there or is empty, and tells a fault on a line of `err`.
/// The tables are read before anything of them is written.
///
/// The exit status is 0 where the store is there, 1 where the folder or the data is refused, and else 4.
pub fn run_store<R, F, I: Read + Drop, E: Write>(
    rt: &R,
    hashing: RandomState,
    files: &F,
    tables: TableFiles<I>,
    bytes: &TableBytes,
    folder: &str,
    err: &mut E,
) -> u8
where
    R: Threads + Sync + AllocGlobal,
    F: Files + AllocGlobal,
    F::File: JournalFile,
{
    match make_store(rt, hashing, files, tables, bytes, folder, err) {
        Ok(()) => 0,
        Err(fault) => fault.tell(err),
    }
}
