//! Commits: the refreshes that were accepted.

use ssb_schema::Refresh;
use std::alloc::AllocError;
use std::clone::Clone;
use std::fmt::{self, Debug, Formatter};
use std::marker::Model;
use std::sync::Arc;

/// An accepted refresh and the number of the client that made it. Contracts see the client and the actions.
pub struct Commit {
    pub client: u32,
    pub refresh: Arc<Refresh>,
}

impl Drop for Commit {
    fn drop(self) {
        let Commit {
            client: _,
            refresh: _,
        } = self;
    }
}

impl Model for Commit {
    ghost use Rattle.row_store.specs.History.{CommitRecord};

    ghost Value = { CommitRecord };

    ghost view = { λ c. record { client = c.client; actions = c.refresh.value } };
}

/// The clone shares the refresh.
impl Clone for Commit {
    ghost use Rattle.std.specs.Prelude.{◌≡◌};

    ghost is_clone = { λ commit copy. copy ≡ commit };

    fn clone(&self) -> Result<Commit, AllocError> {
        Ok(Commit {
            client: self.client,
            refresh: Arc::try_clone(&self.refresh)?,
        })
    }
}

/// The client, and how many actions there are.
impl Debug for Commit {
    fn fmt<W: fmt::Write>(&self, f: &mut Formatter<W>) -> fmt::Result {
        f.debug_struct("Commit")
            .field("client", &self.client)
            .field("actions", &self.refresh.actions().len())
            .finish()
    }
}

/// The number of a commit, counted from 1.
#[derive(Clone, Copy, Debug, PartialEq, Eq)]
pub struct Receipt {
    pub number: u64,
}
