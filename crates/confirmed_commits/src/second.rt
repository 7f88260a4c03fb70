//! One second server, for whose lines sessions wait.

ghost use Rattle.std.specs.Prelude.{◌≡◌, ◌≤◌, ◌-◌, IfSome, max};

use crate::confirmed::Confirmed;
use std::sync::{Condvar, Mutex, Wait};

/// What a second server has told of, and what is waited for.
#[derive(Clone, Copy, Debug, PartialEq, Eq)]
pub struct SecondFigures {
    /// How many commits it has told of.
    pub told: u64,
    /// How many commits are behind these that somebody waits for.
    pub awaited: u64,
}

// What one has told, and for what somebody has waited.
#[derive(Clone, Copy)]
struct Told {
    // The most commits that it has told of.
    most: Confirmed,
    // The most commits that somebody has waited for.
    wanted: u64,
    // Nobody waits any more.
    is_given_up: bool,
}

impl Told {
    // It has told of so many commits: the most that it has told of count.
    fn hear(&mut self, told: Confirmed)
        ensures { self.new.most.commits ≡ max self.old.most.commits told.commits }
    {
        self.most = self.most.or_more(told);
    }

    // The evidence that it has told of so many commits, which somebody waits for; none where it has not.
    fn of(&mut self, commits: u64) -> Option<Confirmed>
        ensures { IfSome result (λ confirmed. commits ≤ confirmed.commits) }
    {
        if self.most.commits() >= commits {
            return Some(self.most);
        }
        if self.wanted < commits {
            self.wanted = commits;
        }
        None
    }

    // The figures now.
    fn figures(&self) -> SecondFigures
        ensures told { result.told ≡ self.now.most.commits }
        ensures awaited { result.awaited ≡ self.now.wanted - self.now.most.commits }
    {
        let told = self.most.commits();
        SecondFigures {
            told,
            awaited: self.wanted.saturating_sub(told),
        }
    }
}

/// One second server, which threads share: those that hear it, and those that wait for its lines.
#[derive(Drop)]
pub(crate) struct Second {
    told: Mutex<Told>,
    changed: Condvar,
}

impl Second {
    /// One of which nothing was heard.
    pub(crate) fn unheard() -> Second {
        Second {
            told: Mutex::new(Told {
                most: Confirmed::nothing(),
                wanted: 0,
                is_given_up: false,
            }),
            changed: Condvar::new(),
        }
    }

    /// It has told of so many commits: whoever waits for these goes on.
    pub(crate) fn hear<R: Wait>(&self, rt: &R, told: Confirmed) {
        self.told.lock(rt).hear(told);
        self.changed.notify_all();
    }

    /// What it has told of now, and what is waited for.
    pub(crate) fn figures<R: Wait>(&self, rt: &R) -> SecondFigures {
        self.told.lock(rt).figures()
    }

    /// The evidence that it has told of so many commits, after a wait; none where nobody waits any more.
    pub(crate) fn await_commits<R: Wait>(&self, rt: &R, commits: u64) -> Option<Confirmed>
        ensures { IfSome result (λ confirmed. commits ≤ confirmed.commits) }
    {
        let mut told = self.told.lock(rt);
        for _ in rt.forever() {
            if let Some(confirmed) = told.of(commits) {
                return Some(confirmed);
            }
            if told.is_given_up {
                return None;
            }
            told = self.changed.wait(rt, told);
        }
        unreachable!()
    }

    /// There will be no more evidence of this machine: whoever waits goes on without any.
    pub(crate) fn give_up<R: Wait>(&self, rt: &R) {
        self.told.lock(rt).is_given_up = true;
        self.changed.notify_all();
    }
}
