//! Why changes were not written.

ghost use Rattle.std.specs.Prelude.{◌≡◌};
ghost use Rattle.changes_command.specs.Status.{refusal_status};

use journal_opening::{NoSuchCommit, OpeningFault};
use ssb_files::{Finding, JobFault};
use std::fmt;

/// Why changes were not written.
#[derive(Debug, Drop)]
pub enum ChangesRefusal {
    /// The journal's commits are not at hand.
    Journal(OpeningFault),
    /// The journal has fewer commits.
    Commit(NoSuchCommit),
}

impl Finding for ChangesRefusal {
    ghost found_status = { refusal_status };

    fn status(&self) -> u8 {
        match self {
            ChangesRefusal::Journal(fault) => fault.status(),
            ChangesRefusal::Commit(_) => 1,
        }
    }
}

impl fmt::Display for ChangesRefusal {
    fn fmt<W: fmt::Write>(&self, f: &mut fmt::Formatter<W>) -> fmt::Result {
        match self {
            ChangesRefusal::Journal(fault) => write!(f, "{fault}"),
            ChangesRefusal::Commit(fault) => write!(f, "changes: {fault}"),
        }
    }
}

/// Why changes were not written. The exit status is 1 where the data or the journal is refused, or has no such commit,
/// and else 4.
pub type ChangesFault = JobFault<ChangesRefusal>;
