//! A file or a stream whose failed calls are kept.

use crate::failed_calls::FailedCalls;
use journal_file::{JournalFile, OpenError};
use std::fs::{Metadata, OpenFile};
use std::io;
use std::io::{Read, Seek, SeekFrom, Write};
use std::os::unix::fs::FileExt;

/// A file or a stream. It gives and takes the bytes of the one in it, and keeps why a call on that failed.
#[derive(Drop)]
pub struct Observed<'a, T: Drop> {
    inner: T,
    // None where there was no memory for it: then no call is kept.
    name: Option<String>,
    failed: &'a FailedCalls,
}

impl<'a, T: Drop> Observed<'a, T> {
    /// Of this name, which for a file is its path.
    pub fn new(name: &str, inner: T, failed: &'a FailedCalls) -> Observed<'a, T> {
        Observed {
            inner,
            name: String::from_str(failed.alloc(), name).ok(),
            failed,
        }
    }

    fn keep(&self, error: io::Error) {
        if let Some(name) = &self.name {
            self.failed.keep(name.as_str(), error);
        }
    }

    // Keeps why a call failed, where it did.
    fn note<V>(&self, given: &io::Result<V>) {
        if let Err(error) = given {
            self.keep(*error);
        }
    }
}

impl<'a, T: Read + Drop> Read for Observed<'a, T> {
    ghost remaining = { λ observed. T.remaining observed.inner };

    fn read(&mut self, buf: &mut [u8]) -> io::Result<usize> {
        let result = self.inner.read(buf);
        self.note(&result);
        result
    }
}

impl<'a, T: Write + Drop> Write for Observed<'a, T> {
    ghost contents = { λ observed. T.contents observed.inner };

    fn write(&mut self, buf: &[u8]) -> io::Result<usize> {
        let result = self.inner.write(buf);
        self.note(&result);
        result
    }

    fn flush(&mut self) -> io::Result<()> {
        let result = self.inner.flush();
        self.note(&result);
        result
    }
}

impl<'a, T: Seek + Drop> Seek for Observed<'a, T> {
    fn seek(&mut self, to: SeekFrom) -> io::Result<u64> {
        let result = self.inner.seek(to);
        self.note(&result);
        result
    }
}

impl<'a, T: OpenFile + Drop> OpenFile for Observed<'a, T> {
    fn metadata(&self) -> io::Result<Metadata> {
        self.inner.metadata()
    }

    fn set_len(&self, size: u64) -> io::Result<()> {
        let result = self.inner.set_len(size);
        self.note(&result);
        result
    }

    fn sync_all(&self) -> io::Result<()> {
        let result = self.inner.sync_all();
        self.note(&result);
        result
    }

    fn sync_data(&self) -> io::Result<()> {
        let result = self.inner.sync_data();
        self.note(&result);
        result
    }
}

impl<'a, T: FileExt + Drop> FileExt for Observed<'a, T> {
    fn read_at(&self, buf: &mut [u8], offset: u64) -> io::Result<usize> {
        let result = self.inner.read_at(buf, offset);
        self.note(&result);
        result
    }

    fn write_at(&self, buf: &[u8], offset: u64) -> io::Result<usize> {
        let result = self.inner.write_at(buf, offset);
        self.note(&result);
        result
    }
}

impl<'a, T: JournalFile + Drop> JournalFile for Observed<'a, T> {
    fn lock_alone(&self) -> Result<(), OpenError> {
        let result = self.inner.lock_alone();
        if let Err(OpenError::Io(error)) = &result {
            self.keep(*error);
        }
        result
    }
}
