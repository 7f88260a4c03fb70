//! Why the changes of a stream were not written.

ghost use Rattle.std.specs.Prelude.{◌≡◌};
ghost use Rattle.changes_command.specs.Status.{feed_refusal_status};

use crate::fault::ChangesRefusal;
use ssb_files::{Finding, JobFault};
use std::fmt;
use thiserror::Error;

/// What is told of a stream alone. Its text is its number and its name.
#[derive(Clone, Copy, Debug, PartialEq, Eq, Error)]
pub enum FeedFault {
    /// It is no stream of all groups of a journal: it has another head, or no commits stand behind that.
    #[error("84 NotAFeed")]
    NotAFeed,
    /// It ended within a group.
    #[error("86 FeedEnded")]
    FeedEnded,
}

/// Why the changes of a stream were not written.
#[derive(Debug, Drop)]
pub enum FeedRefusal {
    /// What is told of a journal's file, too.
    Changes(ChangesRefusal),
    /// What is told of a stream alone.
    Feed(FeedFault),
}

impl Finding for FeedRefusal {
    ghost found_status = { feed_refusal_status };

    fn status(&self) -> u8 {
        match self {
            FeedRefusal::Changes(fault) => fault.status(),
            FeedRefusal::Feed(FeedFault::NotAFeed) => 1,
            FeedRefusal::Feed(FeedFault::FeedEnded) => 4,
        }
    }
}

impl fmt::Display for FeedRefusal {
    fn fmt<W: fmt::Write>(&self, f: &mut fmt::Formatter<W>) -> fmt::Result {
        match self {
            FeedRefusal::Changes(fault) => write!(f, "{fault}"),
            FeedRefusal::Feed(fault) => write!(f, "feed: {fault}"),
        }
    }
}

/// Why the changes of a stream were not written. The exit status is 1 where the data or the stream is refused, or has no
/// such commit, and else 4.
pub type FeedJobFault = JobFault<FeedRefusal>;
