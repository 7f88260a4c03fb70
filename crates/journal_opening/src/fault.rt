//! Why a journal's commits are not at hand.

ghost use Rattle.std.specs.Prelude.{◌≡◌};
ghost use Rattle.journal_opening.specs.Status.{opening_status};

use journal::DiskError;
use journal_file::OpenError;
use ssb_files::{Finding, PathFault};
use ssb_journal::{JournalFault, JournalOpenFault, ReplayFault};
use std::fmt;
use std::io::ErrorKind;

/// Why the commits of a journal are not at hand, over the tables that were loaded.
#[derive(Debug, Drop)]
pub enum OpeningFault {
    /// The system does not open the file, another process has it, or it is not there.
    File(OpenError),
    /// A journal is to begin, and the file of this path has commits, or is no journal over these tables.
    HasBytes(String),
    /// The file is no journal over these tables, or could not be read.
    Kept(JournalOpenFault),
    /// Its commits are no history over the tables.
    Replay(ReplayFault),
}

impl Finding for OpeningFault {
    ghost found_status = { opening_status };

    fn status(&self) -> u8 {
        match self {
            OpeningFault::File(OpenError::InUse | OpenError::NoJournal(_)) => 1,
            OpeningFault::File(OpenError::Io(_)) => 4,
            OpeningFault::HasBytes(_) => 1,
            OpeningFault::Kept(JournalOpenFault::Journal(JournalFault::OutOfMemory)) => 4,
            OpeningFault::Kept(JournalOpenFault::Journal(_)) => 1,
            OpeningFault::Kept(_) => 4,
            OpeningFault::Replay(ReplayFault::OutOfMemory) => 4,
            OpeningFault::Replay(_) => 1,
        }
    }
}

impl fmt::Display for OpeningFault {
    fn fmt<W: fmt::Write>(&self, f: &mut fmt::Formatter<W>) -> fmt::Result {
        match self {
            OpeningFault::Kept(JournalOpenFault::Journal(JournalFault::OutOfMemory))
            | OpeningFault::Kept(JournalOpenFault::Disk(DiskError::OutOfMemory))
            | OpeningFault::Replay(ReplayFault::OutOfMemory) => f.write_str("out of memory"),
            OpeningFault::File(OpenError::Io(error)) if error.kind() == ErrorKind::OutOfMemory => {
                f.write_str("out of memory")
            },
            OpeningFault::File(fault) => write!(f, "journal: {fault}"),
            OpeningFault::HasBytes(path) => {
                write!(f, "journal: {}", PathFault::HasBytes(path.as_str()))
            },
            OpeningFault::Kept(fault) => write!(f, "journal: {fault}"),
            OpeningFault::Replay(fault) => write!(f, "journal: {fault}"),
        }
    }
}
