//! What is told in place of a job.

use clap::Error;
use clap::error::ErrorKind;
use std::alloc::AllocError;
use std::fmt;

/// What is told in place of a job: help, the version, or why the words are wrong.
#[derive(Drop)]
pub struct Notice(Error);

impl Notice {
    /// Whether memory ran out, and nothing is known of the words.
    pub fn is_out_of_memory(&self) -> bool {
        self.0.kind() == ErrorKind::OutOfMemory
    }

    /// Whether the words are wrong.
    pub fn is_fault(&self) -> bool {
        self.0.use_stderr()
    }
}

impl fmt::Display for Notice {
    fn fmt<W: fmt::Write>(&self, f: &mut fmt::Formatter<W>) -> fmt::Result {
        self.0.fmt(f)
    }
}

impl From<Error> for Notice {
    fn from(error: Error) -> Notice {
        Notice(error)
    }
}

impl From<AllocError> for Notice {
    fn from(error: AllocError) -> Notice {
        Notice(Error::from(error))
    }
}
