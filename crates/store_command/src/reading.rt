//! The commits of a store, made again over its tables.

ghost use Rattle.std.specs.Prelude.{◌≢◌, IfErr};
ghost use Rattle.export_command.specs.Status.{export_status};
ghost use Rattle.store_command.specs.Status.{store_status};

use crate::fault::{StoreJobFault, StoreRefusal, of_export};
use export_command::ExportRefusal::{Commit, Journal};
use export_command::{
    ExportFault, ExportSource, JournalTables, Moment, TablesAt, read_history, read_journal,
};
use journal_file::{FileDisk, JournalFile};
use journal_opening::{OpeningFault, OpensJournal};
use ssb_base::Base;
use ssb_files::JobFault::Found;
use ssb_journal::TableMark;
use std::hash::RandomState;
use std::rt::Files;
use std::sync::Arc;
use std::thread::Threads;
use store_folder::{FoundStore, StoreFault, StoreFile, StorePlace};

/// The fault of a job that meets this one as it reads commits of a store up to a moment. Where the store has a later
/// segment, the commit that is not there is missing.
pub(crate) fn of_history(found: &FoundStore, fault: ExportFault) -> StoreJobFault
    ensures words { export_status fault ≢ 2 → store_status result ≢ 2 }
    ensures trace { export_status fault ≢ 3 → store_status result ≢ 3 }
{
    let last = found.last();
    match fault {
        Found(Commit(fault)) if fault.number <= last => {
            Found(StoreRefusal::Store(StoreFault::Gap(last)))
        }
        fault => of_export(fault),
    }
}

/// Commits are missing where all behind tables were read, and lead to fewer than come before the last segment: the
/// folder is a copy of files of mixed moments.
pub(crate) fn check_none_missing(found: &FoundStore, after: u64) -> Result<(), StoreJobFault>
    ensures words { IfErr result (λ fault. store_status fault ≢ 2) }
    ensures trace { IfErr result (λ fault. store_status fault ≢ 3) }
{
    let last = found.last();
    if after < last {
        return Err(Found(StoreRefusal::Store(StoreFault::Gap(last))));
    }
    Ok(())
}

/// The tables after the commits of a store's place, over those that were found.
pub(crate) fn read_commits<'m, 'f, R: Threads + Sync + AllocGlobal, F: Files>(
    rt: &R,
    hashing: RandomState,
    journal: &StorePlace<'f, F>,
    base: Base,
    marks: &'m [TableMark],
) -> Result<JournalTables<'m, FileDisk<StoreFile<'f, F>>>, StoreJobFault>
where
    F::File: JournalFile,
{
    let alloc = rt.alloc();
    let base = Arc::new(alloc, base)?;
    let file = match journal.open(alloc) {
        Ok(file) => file,
        Err(error) => return Err(of_export(Found(Journal(OpeningFault::File(error))))),
    };
    match read_journal(rt, alloc, hashing, ExportSource { base, marks, file }) {
        Ok(read) => Ok(read),
        Err(fault) => Err(of_export(fault)),
    }
}

/// The same after those up to a commit.
pub(crate) fn read_up_to<'m, 'f, R: Threads + Sync + AllocGlobal, F: Files>(
    rt: &R,
    hashing: RandomState,
    journal: &StorePlace<'f, F>,
    base: Base,
    marks: &'m [TableMark],
    number: u64,
) -> Result<TablesAt, StoreJobFault>
where
    F::File: JournalFile,
{
    let alloc = rt.alloc();
    let base = Arc::new(alloc, base)?;
    let file = match journal.open(alloc) {
        Ok(file) => file,
        Err(error) => return Err(of_export(Found(Journal(OpeningFault::File(error))))),
    };
    let moment = Moment {
        past: journal.found.after(),
        at: Some(number),
    };
    match read_history(
        rt,
        alloc,
        hashing,
        ExportSource { base, marks, file },
        moment,
    ) {
        Ok(read) => Ok(read),
        Err(fault) => Err(of_history(journal.found, fault)),
    }
}
