//! Why a journal is not shipped any further.

ghost use Rattle.std.specs.Prelude.{◌≡◌};
ghost use Rattle.ship_command.specs.Status.{refusal_status};

use journal_opening::{NoSuchCommit, OpeningFault};
use ssb_files::{Finding, JobFault};
use std::fmt;

/// Why a journal is not shipped.
#[derive(Debug, Drop)]
pub enum ShipRefusal {
    /// The journal's groups are not at hand.
    Journal(OpeningFault),
    /// The journal has fewer commits than are to be left out.
    Commit(NoSuchCommit),
}

impl Finding for ShipRefusal {
    ghost found_status = { refusal_status };

    fn status(&self) -> u8 {
        match self {
            ShipRefusal::Journal(fault) => fault.status(),
            ShipRefusal::Commit(_) => 1,
        }
    }
}

impl fmt::Display for ShipRefusal {
    fn fmt<W: fmt::Write>(&self, f: &mut fmt::Formatter<W>) -> fmt::Result {
        match self {
            ShipRefusal::Journal(fault) => write!(f, "{fault}"),
            ShipRefusal::Commit(fault) => write!(f, "ship: {fault}"),
        }
    }
}

/// Why a journal is not shipped any further. The exit status is 1 where the journal is refused, or has no such commit,
/// and else 4.
pub type ShipFault = JobFault<ShipRefusal>;
