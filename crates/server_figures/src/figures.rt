//! The figures of a server at a moment.

use crate::refused::Refused;

/// What a server has done so far.
#[derive(Clone, Copy, Debug, Default, PartialEq, Eq)]
pub struct Figures {
    /// The commits; with a journal, its commits among them.
    pub commits: u64,
    /// The lines that are live after these commits.
    pub lines: u64,
    /// The refreshes that were refused.
    pub refusals: u64,
    /// The same, by their cause.
    pub refused: Refused,
    /// The questions that were answered.
    pub answers: u64,
    /// The questions among them that were answered from totals.
    pub by_totals: u64,
    /// The batches in which they were answered.
    pub batches: u64,
    /// How many nanoseconds the last batch took.
    pub last_batch: u64,
    /// How many commits there were, when the last batch was answered, that its answers lacked.
    pub lacked: u64,
    /// The sessions that are open.
    pub sessions: u64,
    /// The sessions that have ended with an error.
    pub broken: u64,
    /// Whether the server takes requests: not before its tables are loaded and its journal's commits are made again.
    pub ready: bool,
}
