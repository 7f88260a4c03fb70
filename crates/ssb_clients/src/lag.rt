//! Whether the copies lack commits, though nobody asks.

use row_store::{Receipt, RefreshError};
use std::sync::atomic::{AtomicU64, Ordering};

/// How many commits are carried over together while nobody asks. A dispatcher takes that many into both copies in some
/// 12 ms, which a question that comes meanwhile waits longer.
const TOGETHER: u64 = 4_096;

// Both copies have all commits.
const LEVEL: u64 = 0;
// A copy lacks the last commits, and none came while the dispatcher that follows rested.
const QUIET: u64 = 1;
// A copy lacks the last commits.
const BEHIND: u64 = 2;
// A copy lacks so many commits that they are to be carried over.
const FAR: u64 = 3;

/// How it stands with the copies where they follow the commits, and nothing where they do so for questions alone. No
/// contract tells of it: it changes when commits reach the copies, and never which.
#[derive(Drop)]
pub(crate) struct Lag {
    follows: bool,
    state: AtomicU64,
}

impl Lag {
    /// Both copies have all commits.
    pub(crate) fn new(follows: bool) -> Lag {
        Lag {
            follows,
            state: AtomicU64::new(LEVEL),
        }
    }

    /// A refresh was answered so. Who calls it holds the row store: a dispatcher that has `begun` and takes the row
    /// store after that fetches its commit, or finds the state that is set here.
    pub(crate) fn grows(&self, reply: &Result<Receipt, RefreshError>) {
        let Ok(receipt) = reply else {
            return;
        };
        if self.wakes(receipt.number) {
            self.state.store(FAR, Ordering::Relaxed);
        } else if self.follows && self.state.load(Ordering::Relaxed) < BEHIND {
            self.state.store(BEHIND, Ordering::Relaxed);
        }
    }

    /// Whether the commit of this number is one at which the dispatcher that follows is woken.
    pub(crate) fn wakes(&self, commit: u64) -> bool {
        self.follows && commit % TOGETHER == 0
    }

    /// The dispatcher that follows is about to rest. Whether it is to look again after a while, though nobody wakes it.
    pub(crate) fn rests(&self) -> bool {
        let _ = self
            .state
            .compare_exchange(BEHIND, QUIET, Ordering::Relaxed, Ordering::Relaxed);
        self.follows
    }

    /// Whether commits are to be carried over.
    pub(crate) fn is_due(&self) -> bool {
        let state = self.state.load(Ordering::Relaxed);
        state == QUIET || state == FAR
    }

    /// A dispatcher is about to carry over all commits so far.
    pub(crate) fn begun(&self) {
        self.state.store(LEVEL, Ordering::Relaxed);
    }

    /// Memory ran out for that. It is tried again after a rest.
    pub(crate) fn failed(&self) {
        self.state.store(BEHIND, Ordering::Relaxed);
    }
}
