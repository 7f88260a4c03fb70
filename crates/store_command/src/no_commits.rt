//! A journal that has no commits, and is in no file.

ghost use Rattle.std.specs.Prelude.{None};
ghost use Rattle.journal_opening.specs.declared.start.JournalStart.TheVariants.{GoesOn};

use journal_file::{FileDisk, JournalFile, OpenError, UnreadFile};
use journal_opening::{JournalStart, OpensJournal};
use std::alloc::Global;
use std::fs::{Metadata, OpenFile};
use std::io::{self, ErrorKind, Read};
use std::os::unix::fs::FileExt;

/// A file that is empty, and stays so.
#[derive(Drop)]
pub(crate) struct EmptyFile;

fn refused() -> io::Error {
    io::Error::from(ErrorKind::Unsupported)
}

impl Read for EmptyFile {
    ghost use Rattle.std.specs.Prelude.{None};

    ghost remaining = { λ _. None };

    fn read(&mut self, _buf: &mut [u8]) -> io::Result<usize> {
        Ok(0)
    }
}

impl FileExt for EmptyFile {
    fn read_at(&self, _buf: &mut [u8], _offset: u64) -> io::Result<usize> {
        Ok(0)
    }

    fn write_at(&self, _buf: &[u8], _offset: u64) -> io::Result<usize> {
        Err(refused())
    }
}

impl OpenFile for EmptyFile {
    fn metadata(&self) -> io::Result<Metadata> {
        Err(refused())
    }

    fn set_len(&self, _size: u64) -> io::Result<()> {
        Err(refused())
    }

    fn sync_all(&self) -> io::Result<()> {
        Ok(())
    }

    fn sync_data(&self) -> io::Result<()> {
        Ok(())
    }
}

impl JournalFile for EmptyFile {
    fn lock_alone(&self) -> Result<(), OpenError> {
        Ok(())
    }
}

/// The place of a journal that has no commits.
#[derive(Drop)]
pub(crate) struct NoCommits;

impl OpensJournal for NoCommits {
    type Disk = FileDisk<EmptyFile>;

    type Opened = UnreadFile<EmptyFile>;

    ghost holds = { λ _. None };

    ghost is_taken = { λ _. Unit {0} };

    ghost is_missing = { λ _. Unit {0} };

    ghost starts = { λ _. GoesOn };

    fn path(&self) -> &str {
        ""
    }

    fn start(&self) -> JournalStart {
        JournalStart::GoesOn
    }

    fn open(&self, _alloc: Global) -> Result<UnreadFile<EmptyFile>, OpenError> {
        Ok(UnreadFile::of(EmptyFile))
    }
}
