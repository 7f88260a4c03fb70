//! What a replica is, and a follower.
ghost use Rattle.std.specs.Prelude.{◌≡◌, List, length, MatchResult, IfOk};
ghost use Rattle.ssb_base.specs.Base.{Tables};
ghost use Rattle.row_store.specs.History.{CommitRecord};
ghost use Rattle.row_store.specs.State.{State, state_after};

use crate::commit::Commit;
use std::alloc::AllocError;

/// A copy of the live lines, in whatever form. Contracts see its state: its base, the number of commits that it has
/// taken in, and how often each fact is live.
pub trait Replica {
    ghost state: { Self → State };

    /// Takes in a commit, accepted or not. After an error the state is as it was.
    fn absorb(&mut self, commit: &Commit) -> Result<(), AllocError>
        ensures { MatchResult result
            (λ _. state self.new ≡ state_after (state self.old) commit.now)
            (λ _. state self.new ≡ state self.old) };

    /// How many commits it has taken in.
    fn commits(&self) -> u64
        ensures { result ≡ (state self.now).commits };

    /// Another replica in the same state.
    fn copy(&self) -> Result<Self, AllocError>
        ensures { IfOk result (λ replica. state replica ≡ state self.now) };
}

/// What takes commits one after another. Contracts see its base and the commits that it has taken.
pub trait Follower {
    ghost base: { Self → Tables };

    ghost commits: { Self → List CommitRecord };

    /// How many commits it has taken.
    fn taken(&self) -> u64
        ensures { result ≡ length (commits self.now) };
}
