//! The log of a row store that has ended.
ghost use Rattle.std.specs.Prelude.{◌≡◌, length, IfSome};
ghost use Rattle.row_store.specs.Last.{AreLast};

use crate::commit::Commit;
use ghost_list::GhostList;
use std::marker::Model;

/// The commits of a row store that has ended. Contracts see all of them; memory has those that were not forgotten.
#[derive(Drop)]
pub struct Log {
    history: GhostList<Commit>,
    count: u64,
    recent: Vec<Commit>,
}

impl Model for Log {
    ghost use Rattle.std.specs.Prelude.{List};
    ghost use Rattle.row_store.specs.History.{CommitRecord};
    ghost use Rattle.row_store.specs.Last.{AreLast};

    ghost Value = { List CommitRecord };

    ghost view = { λ l. l.history.items };

    ghost invariant = { λ l. AreLast l.history.items l.recent.items l.count };
}

impl Log {
    pub(crate) fn new(history: GhostList<Commit>, count: u64, recent: Vec<Commit>) -> Log
        requires { AreLast history.items recent.items count }
        ensures { result ≡ history.items }
    {
        Log {
            history,
            count,
            recent,
        }
    }

    /// The number of commits.
    pub fn len(&self) -> u64
        ensures { result ≡ length self.now }
    {
        self.count
    }

    /// All commits; none where some of them are forgotten.
    pub fn into_commits(self) -> Option<Vec<Commit>>
        ensures { IfSome result (λ commits. commits.items ≡ self) }
    {
        let Log {
            history: _,
            count,
            recent,
        } = self;
        if recent.len() as u64 == count {
            Some(recent)
        } else {
            None
        }
    }
}
