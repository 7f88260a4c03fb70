//! Of how many commits was told, and the evidence with which it was.

ghost use Rattle.std.specs.Prelude.{◌≡◌, max, MatchOption};

use crate::acknowledges::Evidence;
use std::marker::Model;

/// Of how many commits was told over wires, and the evidence of as many, which was in hand before. A wire makes it of
/// what it passed on, and nobody else can, but where nothing was told.
#[derive(Drop)]
pub struct ToldWith<E: Evidence> {
    commits: u64,
    evidence: Option<E>,
}

impl<E: Evidence> Model for ToldWith<E> {
    ghost use Rattle.std.specs.Prelude.{◌≡◌, ℕ, MatchOption};

    ghost Value = { ℕ };

    ghost view = { λ told. told.commits };

    ghost invariant = { λ told. MatchOption told.evidence (told.commits ≡ 0) (λ evidence. E.covers evidence told.commits) };
}

impl<E: Evidence> ToldWith<E> {
    /// Nothing was told.
    pub fn nothing() -> ToldWith<E>
        ensures { result ≡ 0 }
    {
        ToldWith {
            commits: 0,
            evidence: None,
        }
    }

    /// The first commits were told, so many of them at most, with their evidence.
    pub(crate) fn tell(&mut self, evidence: E, commits: u64)
        requires { E.covers evidence commits }
        ensures { self.new ≡ max commits self.old }
    {
        if self.commits < commits {
            self.commits = commits;
            self.evidence = Some(evidence);
        }
    }

    /// The same, over other wires too.
    pub fn add(&mut self, other: ToldWith<E>)
        ensures { self.new ≡ max self.old other }
    {
        if self.commits < other.commits {
            *self = other;
        }
    }

    /// Of how many commits was told.
    pub fn commits(&self) -> u64
        ensures { result ≡ self.now }
    {
        self.commits
    }

    /// The evidence of as many commits as were told of: none where none was.
    pub fn into_evidence(self) -> Option<E>
        ensures { MatchOption result (self ≡ 0) (λ evidence. E.covers evidence self) }
    {
        let ToldWith {
            commits: _,
            evidence,
        } = self;
        evidence
    }
}
