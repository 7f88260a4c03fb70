//! Each method makes one call of the system, and then notes it with its answer.
ghost use Rattle.std.specs.Prelude.{◌≡◌, ◌+◌, length, true, None, IfOk, IfErr};
ghost use Rattle.journal.specs.Calls.{seen_after, left_after, left_during, promised_after, failures, counts, only};
ghost use Rattle.journal.proofs.CallLaws.{may_be_read, still_left};
ghost use Rattle.journal_file.specs.FileDisk.{IsFresh};
ghost use Rattle.journal_file.specs.Missing.{NamesMissing, IsOfAFile};
ghost use Rattle.journal_file.specs.Parts.{bytes_of, calls_on, KeepsPromises};
ghost use Rattle.journal_file.specs.declared.file_disk.OpenError.TheVariants.{Io};

use crate::no_journal::NoJournal;
use crate::transcript::Transcript;
use ghost_list::GhostList;
use journal::{Disk, DiskError, UnreadDisk};
use std::alloc::Global;
use std::fs::{self, File, OpenFile, OpenOptions, TryLockError};
use std::io::{self, ErrorKind, Read};
use std::os::unix::fs::FileExt;
use std::path::Path;
use std::rt::Files;
use thiserror::Error;

/// Why a journal's file could not be opened.
#[derive(Debug, Drop, Error)]
pub enum OpenError {
    /// The system refuses a call, or memory ran out.
    #[error(transparent)]
    Io(io::Error),
    /// Another process, or another handle of this one, has the file.
    #[error("94 InUse")]
    InUse,
    /// There is no such file, and none is made.
    #[error("{0}")]
    NoJournal(NoJournal<String>),
}

impl From<io::Error> for OpenError {
    ghost from_gives = { λ error e. e ≡ Io error };

    fn from(error: io::Error) -> OpenError {
        OpenError::Io(error)
    }
}

impl OpenError {
    // Why the file of this path, which is not to be made, was not opened.
    pub(crate) fn of_path(alloc: Global, path: &str, error: io::Error) -> OpenError
        ensures { NamesMissing path.now result }
    {
        if error.kind() != ErrorKind::NotFound {
            return OpenError::Io(error);
        }
        match String::from_str(alloc, path) {
            Ok(path) => OpenError::NoJournal(NoJournal { path }),
            Err(error) => OpenError::Io(error.into()),
        }
    }
}

/// Looks whether there is a file of this path. Whether it is a journal, or may be opened, is not looked at.
pub fn find_journal<R: Files>(files: &R, alloc: Global, path: &str) -> Result<(), OpenError>
    ensures { IfErr result (NamesMissing path.now) }
{
    match fs::metadata(files, path) {
        Err(error) if error.kind() == ErrorKind::NotFound => {
            Err(OpenError::of_path(alloc, path, error))
        },
        _ => Ok(()),
    }
}

/// A file that may keep a journal.
pub trait JournalFile: FileExt {
    ghost use Rattle.std.specs.Prelude.{IfErr};
    ghost use Rattle.journal_file.specs.Missing.{IsOfAFile};

    /// Locks the file, until it is dropped, against other processes and other handles of this one.
    fn lock_alone(&self) -> Result<(), OpenError>
        ensures { IfErr result IsOfAFile };

    /// All that the file has is on the disk, so many things by their owner's count: a file of several parts may go on in
    /// the next one.
    fn rest(&mut self, _count: u64) {}
}

impl JournalFile for File {
    fn lock_alone(&self) -> Result<(), OpenError> {
        match self.try_lock() {
            Ok(()) => Ok(()),
            Err(TryLockError::WouldBlock) => Err(OpenError::InUse),
            Err(TryLockError::Error(error)) => Err(error.into()),
        }
    }
}

/// A file of the operating system that was read to its end. After a call that fails, each further one fails.
#[derive(Drop)]
pub struct FileDisk<O: Drop> {
    file: O,
    is_failed: bool,
    // What it held as it was opened, part by part, and the calls since. No memory holds them.
    first: GhostList<Vec<u8>>,
    transcript: Transcript,
    ghost kept: { KeepsPromises first.items transcript.calls },
}

/// A file of the operating system that was opened, and is read part by part. After a read that fails, each further one
/// fails.
#[derive(Drop)]
pub struct UnreadFile<O: Drop> {
    file: O,
    is_failed: bool,
    is_ended: bool,
    // What was read, part by part, and how often that failed. No memory holds them.
    parts: GhostList<Vec<u8>>,
    faults: GhostList<DiskError>,
}

/// Syncs the folder in which this path lies, so that its name is on the disk.
pub fn sync_name<R: Files>(files: &R, path: &str) -> io::Result<()> {
    let folder = match Path::new(path).parent() {
        Some(parent) if !parent.as_str().is_empty() => parent.as_str(),
        _ => ".",
    };
    fs::open(files, folder)?.sync_all()
}

// Locks a file that was just opened, and syncs it, so that what is read of it is on the disk.
fn locked<R: Files>(files: &R, path: &str, mut file: R::File) -> Result<R::File, OpenError>
where
    R::File: JournalFile,
    ensures there { IfErr result IsOfAFile }
{
    // The system opens a folder to be read, and tells only of a read what it is.
    file.read(&mut [])?;
    file.lock_alone()?;
    file.sync_all()?;
    sync_name(files, path)?;
    Ok(file)
}

/// Opens a journal's file, and makes it where there is none. It is locked until it is dropped, and on the disk.
pub fn make_locked<R: Files>(files: &R, path: &str) -> Result<R::File, OpenError>
where
    R::File: JournalFile,
    ensures made { IfErr result IsOfAFile }
{
    let file = OpenOptions::new()
        .read(true)
        .write(true)
        .create(true)
        .open(files, path)?;
    locked(files, path, file)
}

/// Opens a journal's file that is there; where there is none, none is made. It is locked likewise.
pub fn open_locked<R: Files>(files: &R, alloc: Global, path: &str) -> Result<R::File, OpenError>
where
    R::File: JournalFile,
    ensures missing { IfErr result (NamesMissing path.now) }
{
    match OpenOptions::new().read(true).write(true).open(files, path) {
        Ok(file) => locked(files, path, file),
        Err(error) => Err(OpenError::of_path(alloc, path, error)),
    }
}

impl<O: Read + OpenFile + JournalFile + Drop> UnreadFile<O> {
    /// A file of which nothing was read, which is locked and on the disk.
    pub fn of(file: O) -> UnreadFile<O>
        ensures { IsFresh result }
    {
        UnreadFile {
            file,
            is_failed: false,
            is_ended: false,
            parts: GhostList::new(),
            faults: GhostList::new(),
        }
    }

    /// Opens a journal's file, and makes it where there is none. It is locked until the result is dropped, or what is
    /// made of it.
    pub fn make<R: Files<File = O>>(files: &R, path: &str) -> Result<UnreadFile<O>, OpenError>
        ensures fresh { IfOk result IsFresh }
        ensures made { IfErr result IsOfAFile }
    {
        Ok(Self::of(make_locked(files, path)?))
    }

    /// Opens a journal's file that is there; where there is none, none is made. It is locked likewise.
    pub fn open<R: Files<File = O>>(
        files: &R,
        alloc: Global,
        path: &str,
    ) -> Result<UnreadFile<O>, OpenError>
        ensures fresh { IfOk result IsFresh }
        ensures missing { IfErr result (NamesMissing path.now) }
    {
        Ok(Self::of(open_locked(files, alloc, path)?))
    }

    /// Opens a journal's file that is there, to be read alone: no write to it succeeds. It is locked likewise.
    pub fn open_to_read<R: Files<File = O>>(
        files: &R,
        alloc: Global,
        path: &str,
    ) -> Result<UnreadFile<O>, OpenError>
        ensures fresh { IfOk result IsFresh }
        ensures missing { IfErr result (NamesMissing path.now) }
    {
        match fs::open(files, path) {
            Ok(file) => Ok(Self::of(locked(files, path, file)?)),
            Err(error) => Err(OpenError::of_path(alloc, path, error)),
        }
    }

    // Notes that a read has failed.
    fn failed(&mut self) -> DiskError
        ensures fault { result ≡ DiskError.Failed }
        ensures noted { length self.new.faults.items ≡ length self.old.faults.items + 1 }
        ensures same { self.new.parts.items ≡ self.old.parts.items }
    {
        self.is_failed = true;
        self.faults.push(&DiskError::Failed);
        DiskError::Failed
    }
}

impl<O: Read + OpenFile + JournalFile + Drop> UnreadDisk for UnreadFile<O> {
    type Whole = FileDisk<O>;

    ghost taken = { λ f. bytes_of f.parts.items };

    ghost is_ended = { λ f. f.is_ended ≡ true };

    // What it holds is in no contract.
    ghost holds = { λ _. None };

    ghost faults = { λ f. length f.faults.items };

    ghost as_known = { λ _. tt };

    #[tactic(auto, using(crate::proofs::PartLaws::bytes_more))]
    fn read_next(&mut self, alloc: Global, most: usize) -> Result<Vec<u8>, DiskError> {
        if self.is_failed {
            return Err(self.failed());
        }
        let mut part = vec![in alloc; 0; most]?;
        match self.file.read(part.as_mut_slice()) {
            Ok(count) => {
                part.truncate(count);
                self.is_ended = part.is_empty();
                self.parts.push(&part);
                Ok(part)
            },
            Err(_) => Err(self.failed()),
        }
    }

    fn into_whole(self) -> FileDisk<O> {
        let UnreadFile {
            file,
            is_failed,
            is_ended: _,
            parts,
            faults: _,
        } = self;
        FileDisk {
            file,
            is_failed,
            first: parts,
            transcript: Transcript::new(),
        }
    }
}

impl<O: OpenFile + JournalFile + Drop> Disk for FileDisk<O> {
    ghost seen = { λ f. seen_after (calls_on f.first.items f.transcript.calls) };

    ghost may_leave = { λ f. left_after (calls_on f.first.items f.transcript.calls) };

    ghost moment = { λ f. length (calls_on f.first.items f.transcript.calls) };

    ghost left_since = { λ f. left_during (calls_on f.first.items f.transcript.calls) };

    ghost promised = { λ f. promised_after (calls_on f.first.items f.transcript.calls) };

    ghost faults = { λ f. failures (calls_on f.first.items f.transcript.calls) };

    ghost counts_now = { λ f. counts (calls_on f.first.items f.transcript.calls) };

    ghost only_now = { λ f. only (calls_on f.first.items f.transcript.calls) };

    ghost leaves = { λ f. may_be_read (calls_on f.first.items f.transcript.calls)
        (promised_after (calls_on f.first.items f.transcript.calls)) f.kept };

    ghost keeps = { λ f. still_left (calls_on f.first.items f.transcript.calls)
        (promised_after (calls_on f.first.items f.transcript.calls)) f.kept };

    fn promise(&mut self, count: u64) {
        self.file.rest(count);
        self.transcript.promised();
    }

    fn write_at(&mut self, at: usize, bytes: &[u8]) -> Result<(), DiskError> {
        if !self.is_failed && self.file.write_all_at(bytes, at as u64).is_ok() {
            self.transcript.wrote(at as u64, bytes, true);
            Ok(())
        } else {
            self.is_failed = true;
            self.transcript.wrote(at as u64, bytes, false);
            Err(DiskError::Failed)
        }
    }

    fn cut(&mut self, len: usize) -> Result<(), DiskError> {
        if !self.is_failed && self.file.set_len(len as u64).is_ok() {
            self.transcript.trimmed(len as u64, true);
            Ok(())
        } else {
            self.is_failed = true;
            self.transcript.trimmed(len as u64, false);
            Err(DiskError::Failed)
        }
    }

    fn sync(&mut self) -> Result<(), DiskError> {
        if !self.is_failed && self.file.sync_data().is_ok() {
            self.transcript.synced(true);
            Ok(())
        } else {
            self.is_failed = true;
            self.transcript.synced(false);
            Err(DiskError::Failed)
        }
    }
}
