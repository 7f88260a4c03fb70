//! What has to be of commits that are on this machine, before a client is told of them.

ghost use Rattle.std.specs.Prelude.{◌≡◌, IfOk};

use std::alloc::Global;
use std::marker::PhantomData;
use std::sync::{Mutex, Wait};
use stream_sessions::{Acknowledges, Evidence, NotAcknowledged};

/// What has to be of commits that are on this machine, before a client is told of them.
pub trait Confirms<E: Evidence> {
    /// The evidence with which clients are told.
    type Told: Evidence;

    /// The evidence of so many commits, of which this is the evidence on this machine; where need be after a wait.
    fn confirm<R: Wait>(
        &self,
        rt: &R,
        first: E,
        commits: u64,
    ) -> Result<Self::Told, NotAcknowledged>
        requires { E.covers first commits }
        ensures { IfOk result (λ told. Self.Told.covers told commits) };

    /// There will be no more evidence on this machine: whoever waits is told nothing.
    fn give_up<R: Wait>(&self, rt: &R);
}

/// Who acknowledges commits on this machine, and what has to be besides.
#[derive(Drop)]
pub struct Confirming<'a, E: Evidence, K, X> {
    first: &'a K,
    confirms: &'a X,
    // A lock may be shared by threads where the evidence may be sent to them.
    of: PhantomData<Mutex<E>>,
}

impl<'a, E: Evidence, K: Acknowledges<E>, X: Confirms<E>> Confirming<'a, E, K, X> {
    /// Commits are told that this one acknowledges, and that one confirms.
    pub fn new(first: &'a K, confirms: &'a X) -> Confirming<'a, E, K, X>
        ensures first { result.first ≡ first.entry }
        ensures confirms { result.confirms ≡ confirms.entry }
    {
        Confirming {
            first,
            confirms,
            of: PhantomData,
        }
    }
}

impl<'a, E: Evidence, K: Acknowledges<E>, X: Confirms<E>> Acknowledges<X::Told>
    for Confirming<'a, E, K, X> {
    type Failure = K::Failure;

    fn acknowledge<R: Wait>(
        &self,
        rt: &R,
        alloc: Global,
        commits: u64,
    ) -> Result<X::Told, NotAcknowledged> {
        match self.first.acknowledge(rt, alloc, commits) {
            Ok(first) => self.confirms.confirm(rt, first, commits),
            Err(failed) => {
                if self.first.failure(rt).is_some() {
                    self.confirms.give_up(rt);
                }
                Err(failed)
            },
        }
    }

    fn failure<R: Wait>(&self, rt: &R) -> Option<K::Failure> {
        self.first.failure(rt)
    }

    fn takes_refreshes(&self) -> bool {
        self.first.takes_refreshes()
    }
}
