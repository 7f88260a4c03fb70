//! Files and streams that fail behind their first bytes, a write as one to a full disk does.

use std::io;
use std::io::{Error, ErrorKind, Read, Write};

/// A reader or a writer that fails behind its first bytes, or that never fails by itself.
#[derive(Drop)]
pub struct Breaking<T: Drop> {
    inner: T,
    left: Option<usize>,
}

impl<T: Drop> Breaking<T> {
    /// One that fails where more than `after` bytes are read or written, where a number is given.
    pub fn new(inner: T, after: Option<usize>) -> Breaking<T> {
        Breaking { inner, left: after }
    }

    /// What it was made of.
    pub fn into_inner(self) -> T {
        self.inner
    }

    // How many of so many bytes it takes or gives before it fails, which is for this reason.
    fn room(&self, wanted: usize, reason: ErrorKind) -> io::Result<usize> {
        match self.left {
            None => Ok(wanted),
            Some(0) if wanted > 0 => Err(Error::from(reason)),
            Some(left) => Ok(left.min(wanted)),
        }
    }

    // Notes that so many bytes are done.
    fn pass(&mut self, count: usize) {
        self.left = self.left.map(|left| left.saturating_sub(count));
    }
}

impl<T: Read + Drop> Read for Breaking<T> {
    fn read(&mut self, buf: &mut [u8]) -> io::Result<usize> {
        let room = self.room(buf.len(), ErrorKind::Other)?;
        let count = match buf.get_mut(..room) {
            Some(part) => self.inner.read(part)?,
            None => 0,
        };
        self.pass(count);
        Ok(count)
    }
}

impl<T: Write + Drop> Write for Breaking<T> {
    fn write(&mut self, buf: &[u8]) -> io::Result<usize> {
        let room = self.room(buf.len(), ErrorKind::StorageFull)?;
        let count = self.inner.write(buf.get(..room).unwrap_or(buf))?;
        self.pass(count);
        Ok(count)
    }

    fn flush(&mut self) -> io::Result<()> {
        self.inner.flush()
    }
}
