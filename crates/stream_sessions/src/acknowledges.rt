//! What has to be before a client is told of commits.

ghost use Rattle.std.specs.Prelude.{IfOk, ℕ};

use std::alloc::Global;
use std::convert::Infallible;
use std::sync::Wait;
use thiserror::Error;

/// The evidence was not got, and never will be: clients are told nothing more.
#[derive(Clone, Copy, Debug, PartialEq, Eq, Error)]
#[error("not acknowledged")]
pub struct NotAcknowledged;

/// The evidence that a client may be told of commits: as, that they are on the disk. Who acknowledges makes it, and nobody
/// else can: whoever holds it has asked for it.
pub trait Evidence: Drop {
    /// It is the evidence of the first commits, so many of them.
    ghost covers: { Self → ℕ → Type 0 };
}

/// What has to be before a client is told of commits.
pub trait Acknowledges<E: Evidence> {
    /// What shows that there will be no more evidence.
    type Failure: Drop;

    /// The evidence of so many commits, where need be after a wait.
    fn acknowledge<R: Wait>(
        &self,
        rt: &R,
        alloc: Global,
        commits: u64,
    ) -> Result<E, NotAcknowledged>
        ensures { IfOk result (λ evidence. E.covers evidence commits) };

    /// What shows that there will be no more evidence, where that is so.
    fn failure<R: Wait>(&self, rt: &R) -> Option<Self::Failure>;

    /// Whether refreshes are taken: else there would never be evidence of their commits.
    fn takes_refreshes(&self) -> bool;
}

/// Commits are told at once: nothing has to be before.
#[derive(Clone, Copy, Debug, PartialEq, Eq)]
pub struct AtOnce;

/// The evidence of a server that tells at once: there is nothing to show.
#[derive(Clone, Copy, Debug, PartialEq, Eq)]
pub struct Nothing;

impl Evidence for Nothing {
    ghost covers = { λ _ _. Unit {0} };
}

impl Acknowledges<Nothing> for AtOnce {
    // Who tells at once never fails.
    type Failure = Infallible;

    fn acknowledge<R: Wait>(
        &self,
        _rt: &R,
        _alloc: Global,
        _commits: u64,
    ) -> Result<Nothing, NotAcknowledged> {
        Ok(Nothing)
    }

    fn failure<R: Wait>(&self, _rt: &R) -> Option<Infallible> {
        None
    }

    fn takes_refreshes(&self) -> bool {
        true
    }
}
