//! Why clients were not served.

ghost use Rattle.std.specs.Prelude.{◌≡◌};
ghost use Rattle.serve_command.specs.Status.{refusal_status};

use crate::unserved::JournaledFault;
use journal_opening::OpeningFault;
use ssb_files::{Finding, JobFault};
use ssb_journal::ReplayFault;
use std::fmt;

/// Why clients were not served, with a journal or without one.
#[derive(Debug, Drop)]
pub enum ServeRefusal {
    /// More clients than a server has.
    TooManyClients,
    /// The journal's commits are not at hand.
    Journal(OpeningFault),
    /// No server was opened, memory or threads were wanting, the journal's commits are refused, or it could not be
    /// written.
    NotServed(JournaledFault),
}

impl Finding for ServeRefusal {
    ghost found_status = { refusal_status };

    fn status(&self) -> u8 {
        match self {
            ServeRefusal::TooManyClients => 2,
            ServeRefusal::Journal(fault) => fault.status(),
            ServeRefusal::NotServed(JournaledFault::Replay(ReplayFault::OutOfMemory)) => 4,
            ServeRefusal::NotServed(JournaledFault::Replay(_)) => 1,
            ServeRefusal::NotServed(_) => 4,
        }
    }
}

impl fmt::Display for ServeRefusal {
    fn fmt<W: fmt::Write>(&self, f: &mut fmt::Formatter<W>) -> fmt::Result {
        match self {
            ServeRefusal::TooManyClients => f.write_str("too many clients"),
            ServeRefusal::Journal(fault) => write!(f, "{fault}"),
            ServeRefusal::NotServed(fault) => write!(f, "{fault}"),
        }
    }
}

/// Why clients were not served. The exit status is 1 where the data, a question that is to stand or the journal is
/// refused, 2 for too many clients, and else 4.
pub type ServeFault = JobFault<ServeRefusal>;
