//! The evidence that commits are on this machine, and that the second servers have told of them.

ghost use Rattle.std.specs.Prelude.{◌+◌};
ghost use Rattle.confirmed_commits.specs.Receipts.{AllHave};

use crate::confirmed::Confirmed;
use ghost_list::GhostList;
use stream_sessions::{Evidence, Past};

/// The evidence of commits on this machine, and of what each second server has told: one evidence each, which only
/// clauses read.
#[derive(Drop)]
pub struct Copied<E: Evidence> {
    pub(crate) first: E,
    // Second servers count these, too, which came before those on this machine.
    pub(crate) past: Past,
    pub(crate) seconds: GhostList<Confirmed>,
}

impl<E: Evidence> Evidence for Copied<E> {
    // It is of commits on this machine of which each of the second servers has told, and of those before them.
    ghost covers = { λ copied commits. E.covers copied.first commits
        × AllHave copied.seconds.items (copied.past.commits + commits) };
}
