//! The errors' stream of a job, whose last line is kept.

use std::alloc::Global;
use std::fmt::Display;
use std::io;
use std::io::Print;
use std::sync::Mutex;

// What stands before a fault in its line.
const PROGRAM: &str = "ssb_live: ";

// The bytes of the last line.
#[derive(Drop)]
struct LastLine {
    bytes: Vec<u8>,
    // Whether it has ended.
    has_ended: bool,
}

impl LastLine {
    // Without memory nothing is kept.
    fn push(&mut self, bytes: &[u8]) {
        for byte in bytes {
            if self.has_ended {
                self.bytes.clear();
            }
            self.has_ended = *byte == b'\n';
            if !self.has_ended && self.bytes.push(*byte).is_err() {
                self.bytes.clear();
            }
        }
    }
}

/// A stream of errors that threads share, and that gets what is written, byte for byte. The last line that was written
/// as bytes, as a fault's is, is kept.
#[derive(Drop)]
pub struct FaultLines<'a, E: Print> {
    errors: &'a E,
    last: Mutex<LastLine>,
}

impl<'a, E: Print> FaultLines<'a, E> {
    /// Over this stream.
    pub fn new(alloc: Global, errors: &'a E) -> FaultLines<'a, E> {
        FaultLines {
            errors,
            last: Mutex::new(LastLine {
                bytes: Vec::new(alloc),
                has_ended: false,
            }),
        }
    }

    // Keeps what was written. Where another thread is just doing that, it is not: no one waits for help.
    fn keep(&self, bytes: &[u8]) {
        if let Some(mut last) = self.last.try_lock() {
            last.push(bytes);
        }
    }

    /// The last fault that was told, without the program's name before it and the end of its line.
    pub fn last_fault(&self) -> Option<String> {
        let last = self.last.try_lock()?;
        let bytes = last.bytes.clone().ok()?;
        let alloc = *bytes.allocator();
        let line = String::from_utf8(bytes).ok()?;
        let (_, fault) = line.split_once(PROGRAM)?;
        String::from_str(alloc, fault).ok()
    }
}

impl<'a, E: Print> Print for FaultLines<'a, E> {
    fn print<D: Display + Drop>(&self, value: D) -> io::Result<()> {
        self.errors.print(value)
    }

    fn println<D: Display + Drop>(&self, value: D) -> io::Result<()> {
        self.errors.println(value)
    }

    fn write_all(&self, bytes: &[u8]) -> io::Result<()> {
        self.keep(bytes);
        self.errors.write_all(bytes)
    }

    fn write_some(&self, bytes: &[u8]) -> io::Result<usize> {
        let count = self.errors.write_some(bytes)?;
        self.keep(&bytes[..count]);
        Ok(count)
    }
}
