//! What a trace holds, entry by entry.

use row_store::Commit;
use ssb_audit::Told;

/// A commit, or an answer.
#[derive(Drop)]
pub(crate) enum TraceEntry {
    /// `commit|CLIENT` .. `end`.
    Commit(Commit),
    /// `answer|..` and its rows.
    Answer(Told),
}
