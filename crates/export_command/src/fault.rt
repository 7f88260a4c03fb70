//! Why tables were not exported.

ghost use Rattle.std.specs.Prelude.{◌≡◌};
ghost use Rattle.export_command.specs.Status.{refusal_status};

use journal_opening::{NoSuchCommit, OpeningFault};
use ssb_files::{Finding, JobFault};
use std::fmt;
use thiserror::Error;

/// A folder that is to take tables has something in it, or is none. Its text is its number and its name.
#[derive(Clone, Copy, Debug, PartialEq, Eq, Error)]
#[error("95 NotEmpty")]
pub struct NotEmpty;

/// Why tables were not exported.
#[derive(Debug, Drop)]
pub enum ExportRefusal {
    /// The folder takes no tables.
    Folder(NotEmpty),
    /// The folder, by its path, could not be made.
    CannotWrite(String),
    /// The journal's commits are not at hand.
    Journal(OpeningFault),
    /// There is no such commit: it came before the journal's, or these are fewer.
    Commit(NoSuchCommit),
}

impl Finding for ExportRefusal {
    ghost found_status = { refusal_status };

    fn status(&self) -> u8 {
        match self {
            ExportRefusal::Folder(_) | ExportRefusal::Commit(_) => 1,
            ExportRefusal::CannotWrite(_) => 4,
            ExportRefusal::Journal(fault) => fault.status(),
        }
    }
}

impl fmt::Display for ExportRefusal {
    fn fmt<W: fmt::Write>(&self, f: &mut fmt::Formatter<W>) -> fmt::Result {
        match self {
            ExportRefusal::Folder(fault) => write!(f, "export: {fault}"),
            ExportRefusal::CannotWrite(path) => write!(f, "cannot write {path}"),
            ExportRefusal::Journal(fault) => write!(f, "{fault}"),
            ExportRefusal::Commit(fault) => write!(f, "journal: {fault}"),
        }
    }
}

/// Why tables were not exported. The exit status is 1 where the data, the journal or the folder is refused, and else 4.
pub type ExportFault = JobFault<ExportRefusal>;
