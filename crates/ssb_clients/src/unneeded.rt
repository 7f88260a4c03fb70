//! Which commits nobody reads again.

use std::sync::atomic::{AtomicU64, Ordering};

/// Which part of its log a server keeps in memory.
#[derive(Clone, Copy, Debug, PartialEq, Eq)]
pub enum Keeps {
    /// All of it, so that it is there at the close.
    All,
    /// The commits that the copies have yet to take. So that these stay few, the copies follow the commits, though
    /// nothing is asked.
    Recent,
    /// Those, and the commits that who reads the log has yet to read: the server has a reader of its log.
    Unread,
}

/// How many of the first commits are read by nobody again, but for the writer of the copies. No contract tells of it:
/// it changes what memory holds.
#[derive(Drop)]
pub(crate) struct Unneeded {
    commits: AtomicU64,
}

impl Unneeded {
    /// Nothing was read yet.
    pub(crate) fn new(keeps: Keeps) -> Unneeded {
        let commits = match keeps {
            Keeps::All | Keeps::Unread => 0,
            Keeps::Recent => u64::MAX,
        };
        Unneeded {
            commits: AtomicU64::new(commits),
        }
    }

    /// How many they are.
    pub(crate) fn count(&self) -> u64 {
        self.commits.load(Ordering::SeqCst)
    }

    /// Who reads the log asks for none of the first `taken` commits again.
    pub(crate) fn has_read(&self, taken: u64) {
        self.commits.store(taken, Ordering::SeqCst);
    }
}
