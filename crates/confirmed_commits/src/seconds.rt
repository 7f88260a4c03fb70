//! The second servers, for whose lines sessions wait.

ghost use Rattle.std.specs.Prelude.{◌≡◌, ◌+◌, IfOk, IfSome, length, vec_len};
ghost use Rattle.confirmed_commits.specs.Receipts.{AllHave};

use crate::confirmed::Confirmed;
use crate::confirms::Confirms;
use crate::copied::Copied;
use crate::second::{Second, SecondFigures};
use ghost_list::GhostList;
use std::alloc::{AllocError, Global};
use std::sync::Wait;
use std::sync::atomic::{AtomicBool, Ordering};
use stream_sessions::{Evidence, NotAcknowledged, Past};

/// Which second server is waited for, and how many commits are that it has not told of.
#[derive(Clone, Copy, Debug, PartialEq, Eq)]
pub struct Awaited {
    /// Its place among the second servers, from 0.
    pub place: usize,
    /// How many commits are waited for that it has not told of.
    pub commits: u64,
}

/// One second server or several, which threads share: a client is told of commits once each of them has told of these.
/// They count the commits that came before this server's own, as clients are told numbers.
#[derive(Drop)]
pub struct Seconds {
    past: Past,
    each: Vec<Second>,
    has_ended: AtomicBool,
}

impl Seconds {
    /// So many second servers, of which nothing was heard, and how many commits came before this server's own.
    pub fn new(alloc: Global, count: usize, past: Past) -> Result<Seconds, AllocError>
        ensures count { IfOk result (λ seconds. vec_len seconds.each ≡ count) }
        ensures past { IfOk result (λ seconds. seconds.past ≡ past) }
    {
        let mut each = Vec::new(alloc);
        for _ in 0..count {
            each.push(Second::unheard())?;
        }
        Ok(Seconds {
            past,
            each,
            has_ended: AtomicBool::new(false),
        })
    }

    /// The server has ended: nobody listens any more.
    pub fn end(&self) {
        self.has_ended.store(true, Ordering::SeqCst);
    }

    /// Whether it has.
    pub fn has_ended(&self) -> bool {
        self.has_ended.load(Ordering::SeqCst)
    }

    /// The second server at this place, from 0, has told of so many commits: whoever waits for these goes on.
    pub fn hear<R: Wait>(&self, rt: &R, place: usize, told: Confirmed) {
        if let Some(second) = self.each.get(place) {
            second.hear(rt, told);
        }
    }

    /// What the one at this place has told of, and what is waited for; none where no second server has this place.
    pub fn figures<R: Wait>(&self, rt: &R, place: usize) -> Option<SecondFigures> {
        let second = self.each.get(place)?;
        Some(second.figures(rt))
    }

    /// Which of them somebody waits for, if anybody does: the first, since they are waited for in their order.
    pub fn awaited<R: Wait>(&self, rt: &R) -> Option<Awaited> {
        for (place, second) in self.each.iter().enumerate() {
            let commits = second.figures(rt).awaited;
            if commits > 0 {
                return Some(Awaited { place, commits });
            }
        }
        None
    }

    // What each of them has told of, so many commits of the history or more, after a wait; none where nobody waits any
    // more.
    fn await_each<R: Wait>(&self, rt: &R, commits: u64) -> Option<GhostList<Confirmed>>
        ensures all { IfSome result (λ told. AllHave told.items commits) }
        ensures each { IfSome result (λ told. length told.items ≡ vec_len self.now.each) }
    {
        let mut told = GhostList::new();
        for second in &self.each {
            told.push(&second.await_commits(rt, commits)?);
        }
        Some(told)
    }
}

impl<E: Evidence> Confirms<E> for Seconds {
    type Told = Copied<E>;

    fn confirm<R: Wait>(&self, rt: &R, first: E, commits: u64) -> Result<Copied<E>, NotAcknowledged>
        requires { E.covers first commits }
        ensures covers { IfOk result (λ copied. ⟦<Copied<E> as Evidence>⟧.covers copied commits) }
        ensures each { IfOk result (λ copied. length copied.seconds.items ≡ vec_len self.now.each) }
        ensures past { IfOk result (λ copied. copied.past ≡ self.now.past) }
    {
        let past = self.past;
        // No history is so long that its commits have no number.
        let Some(number) = past.commits.checked_add(commits) else {
            return Err(NotAcknowledged);
        };
        match self.await_each(rt, number) {
            Some(seconds) => Ok(Copied {
                first,
                past,
                seconds,
            }),
            None => Err(NotAcknowledged),
        }
    }

    fn give_up<R: Wait>(&self, rt: &R) {
        for one in &self.each {
            one.give_up(rt);
        }
    }
}
