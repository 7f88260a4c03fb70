//! The store of a folder.

ghost use Rattle.std.specs.Prelude.{◌≢◌, ◌≤◌, IfErr, IfOk, IfSome};
ghost use Rattle.store_command.specs.Status.{store_status, IsRefusedOrFailed};

use crate::fault::{StoreJobFault, StoreRefusal};
use journal_file::JournalFile;
use ssb_files::JobFault::Found;
use std::alloc::Global;
use std::rt::Files;
use store_folder::{FoundStore, find_store};

/// The store in this folder: its newest tables, or the newest that are after at most so many commits.
pub fn find<F: Files>(
    files: &F,
    alloc: Global,
    folder: &str,
    at: Option<u64>,
) -> Result<FoundStore, StoreJobFault>
where
    F::File: JournalFile,
    ensures up_to { IfOk result (λ found. IfSome at (λ number. found.sizes.after ≤ number)) }
    ensures words { IfErr result (λ fault. store_status fault ≢ 2) }
    ensures statuses { IfErr result (λ fault. IsRefusedOrFailed (store_status fault)) }
{
    match find_store(files, alloc, folder, at) {
        Ok(found) => Ok(found),
        Err(fault) => Err(Found(StoreRefusal::Store(fault))),
    }
}
