//! A journal's file that another process writes, read without a lock.
ghost use Rattle.std.specs.Prelude.{◌≡◌, ◌≤◌, [], true, None, length, IfOk, IfErr};
ghost use Rattle.journal.specs.Groups.{recovered};
ghost use Rattle.journal.specs.Reading.{HasFirst};
ghost use Rattle.journal_file.specs.Missing.{NamesMissing};
ghost use Rattle.journal_file.specs.Watched.{seen_by, seen_by_first, AreCounted};

use crate::file_disk::{JournalFile, OpenError};
use ghost_list::GhostList;
use journal::{DiskError, GrowingFile};
use std::alloc::Global;
use std::fs::{self, OpenFile};
use std::io::{self, ErrorKind, Read};
use std::os::unix::fs::FileExt;
use std::rt::Files;

/// What one read has taken of a file, and from which place on.
#[derive(Drop)]
pub struct ReadPart {
    pub at: usize,
    pub bytes: Vec<u8>,
}

/// A file of the operating system that another process may write. It is not locked. After a call that fails, each
/// further one fails.
#[derive(Drop)]
pub struct WatchedFile<O: Drop> {
    file: O,
    is_failed: bool,
    is_ended: bool,
    // What was read; no memory holds it. How many reads there were, and how many of them were synced.
    parts: GhostList<ReadPart>,
    count: usize,
    synced: usize,
    ghost counted: { AreCounted parts.items count synced },
}

// Reads from a place on, until the bytes are full or the file ends: how many were read.
fn fill_at<O: FileExt>(file: &O, bytes: &mut [u8], at: usize) -> io::Result<usize>
    ensures few { IfOk result (λ count. count ≤ length bytes.old) }
    ensures size { length bytes.new ≡ length bytes.old }
{
    let mut filled = 0usize;
    for _ in 0..u64::MAX {
        if filled >= bytes.len() {
            break;
        }
        let place = (at as u64).saturating_add(filled as u64);
        match file.read_at(&mut bytes[filled..], place) {
            Ok(0) => break,
            Ok(count) => filled += count,
            Err(error) if error.kind() == ErrorKind::Interrupted => {},
            Err(error) => return Err(error),
        }
    }
    Ok(filled)
}

impl<O: Read + OpenFile + JournalFile + Drop> WatchedFile<O> {
    ghost use Rattle.std.specs.Prelude.{◌≡◌, []};

    /// Opens a journal's file that is there, to be read alone. Nothing was read of it.
    pub fn open<R: Files<File = O>>(
        files: &R,
        alloc: Global,
        path: &str,
    ) -> Result<WatchedFile<O>, OpenError>
        ensures unread { IfOk result (λ file. file.parts.items ≡ []) }
        ensures missing { IfErr result (NamesMissing path.now) }
    {
        let mut file = match fs::open(files, path) {
            Ok(file) => file,
            Err(error) => return Err(OpenError::of_path(alloc, path, error)),
        };
        // The system opens a folder to be read, and tells only of a read what it is.
        file.read(&mut [])?;
        Ok(WatchedFile {
            file,
            is_failed: false,
            is_ended: false,
            parts: GhostList::new(),
            count: 0,
            synced: 0,
        })
    }
}

impl<O: Read + OpenFile + JournalFile + Drop> GrowingFile for WatchedFile<O> {
    ghost seen = { λ f. seen_by f.parts.items };

    // What was synced stays.
    ghost may_leave = { λ f. HasFirst (recovered (seen_by_first f.synced f.parts.items)) };

    ghost is_ended = { λ f. f.is_ended ≡ true };

    // What it holds is in no contract.
    ghost holds = { λ _. None };

    ghost as_known = { λ _. tt };

    fn read_behind(&mut self, alloc: Global, at: usize, most: usize) -> Result<Vec<u8>, DiskError> {
        if self.is_failed {
            return Err(DiskError::Failed);
        }
        let mut bytes = vec![in alloc; 0; most]?;
        let Ok(filled) = fill_at(&self.file, bytes.as_mut_slice(), at) else {
            self.is_failed = true;
            return Err(DiskError::Failed);
        };
        let Some(count) = self.count.checked_add(1) else {
            return Err(DiskError::Full);
        };
        bytes.truncate(filled);
        let part = ReadPart { at, bytes };
        self.is_ended = filled < most;
        self.parts.push(&part);
        self.count = count;
        let ReadPart { at: _, bytes } = part;
        Ok(bytes)
    }

    fn sync(&mut self) -> Result<(), DiskError> {
        if !self.is_failed && self.file.sync_data().is_ok() {
            self.synced = self.count;
            Ok(())
        } else {
            self.is_failed = true;
            Err(DiskError::Failed)
        }
    }
}
