//! The pipes that a job waits for: what is told of them, and their locks.

use arguments::{ExportedWord, Job};
use journal_file::JournalFile;
use serve_command::{EndPaths, MOST_CLIENTS, PipeFault, PipeLocks};
use ssb_files::{Fault, report_table_pipes};
use std::io::{self, Print, Write};
use std::rt::Files;

// The folder whose tables a job loads, unless it shows nothing meanwhile.
fn loaded_folder<'a>(job: &Job<'a>) -> Option<&'a str> {
    let (folder, quiet) = match job {
        Job::Script | Job::Ship(_) | Job::Checkpoint(_) => return None,
        Job::Query(words) => (words.source.files()?.data, words.quiet),
        Job::Explain(words) => (words.data?, words.quiet),
        Job::Run(words) => (words.source.files()?.data, words.quiet),
        Job::Serve(words) => (words.data, words.quiet),
        Job::Audit(words) => (words.source.files()?.data, words.quiet),
        Job::Export(words) => match words.exported {
            ExportedWord::Journal(tables, _) => (tables.data, words.quiet),
            ExportedWord::Store(_) => return None,
        },
        Job::Changes(words) => (words.changed.files()?.data, words.quiet),
        Job::Store(words) => (words.data, words.quiet),
    };
    // Those of a store are files.
    if quiet || folder.is_empty() {
        return None;
    }
    Some(folder)
}

/// Reports the tables of a job that are pipes, before they are opened.
pub(crate) fn report_pipes<F: Files + AllocGlobal, E: Write>(
    files: &F,
    job: &Job<'_>,
    err: &mut E,
) -> Result<(), Fault> {
    match loaded_folder(job) {
        Some(folder) => report_table_pipes(files, folder, err),
        None => Ok(()),
    }
}

/// Locks the pipes of a live server, until the result is dropped. Where there are too many clients, that is told
/// elsewhere, and no pipe is locked.
pub(crate) fn lock_pipes<F: Files + AllocGlobal, E: Print>(
    files: &F,
    clients: &[EndPaths],
    errors: &E,
) -> Result<PipeLocks<F::File>, PipeFault>
where
    F::File: JournalFile,
{
    let pipes = if clients.len() <= MOST_CLIENTS {
        clients
    } else {
        &[]
    };
    PipeLocks::take(files, pipes, &mut io::writer(errors))
}
