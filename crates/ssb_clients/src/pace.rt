//! How clients and dispatchers keep pace with one another.

use crate::bells::{Bells, FOLLOWER};
use crate::lag::Lag;
use crate::server::Server;
use crate::unneeded::{Keeps, Unneeded};
use row_store::Follower;
use std::sync::Wait;
use std::sync::atomic::{AtomicU64, Ordering};
use std::time::Duration;

/// How many commits follow those that a batch is brought up to before clients wait for its end. A dispatcher takes that
/// many into a copy in some 3 ms.
const MOST_AHEAD: u64 = 2_048;

/// The longest wait of a refresh for a dispatcher, in milliseconds.
const LONGEST_WAIT: u64 = 2;

/// The longest rest of the dispatcher that follows the commits, in milliseconds. After a rest without a commit it
/// carries over, so the copies lack none after two rests.
const LONGEST_REST: u64 = 400;

/// The flow of refreshes beside a batch. A client commits faster than a dispatcher takes commits into both copies, so
/// each batch would have more to take over than the one before it, and its answers would come later. So a refresh
/// that is far ahead of the batch that is being answered waits for its end; and since a client that commits without a
/// pause leaves the row store home for moments only, a refresh waits while a dispatcher or who reads the log wants it.
/// None waits for more than two milliseconds. No contract tells of it: it changes when a refresh returns, and never
/// what it does.
///
/// Beside it lie how far the copies are behind, and which commits nobody reads again.
#[derive(Drop)]
pub(crate) struct Pace {
    // Refreshes up to this commit do not wait.
    limit: AtomicU64,
    pub(crate) lag: Lag,
    pub(crate) unneeded: Unneeded,
}

impl Pace {
    /// No batch is being answered, and the copies have all commits.
    pub(crate) fn new(keeps: Keeps) -> Pace {
        Pace {
            limit: AtomicU64::new(u64::MAX),
            lag: Lag::new(keeps != Keeps::All),
            unneeded: Unneeded::new(keeps),
        }
    }

    /// The row store is wanted: each client waits behind its next commit. It tells the limit that was.
    pub(crate) fn hold(&self) -> u64 {
        self.limit.swap(0, Ordering::Relaxed)
    }

    /// It was read: the limit is as before, but where a dispatcher has set another since.
    pub(crate) fn release(&self, before: u64) {
        let _ = self
            .limit
            .compare_exchange(0, before, Ordering::Relaxed, Ordering::Relaxed);
    }

    /// A batch is being answered that is brought up to so many commits.
    pub(crate) fn begin(&self, commits: u64) {
        self.limit
            .store(commits.saturating_add(MOST_AHEAD), Ordering::Relaxed);
    }

    /// The batch has been answered.
    pub(crate) fn end(&self, bells: &Bells) {
        self.limit.store(u64::MAX, Ordering::Relaxed);
        bells.ring_clients();
    }

    /// The dispatcher of this number sleeps until it is woken; the one that follows the commits looks again after a
    /// while.
    pub(crate) fn rest<R: Wait>(&self, rt: &R, bells: &Bells, dispatcher: u32) {
        if dispatcher == FOLLOWER && self.lag.rests() {
            bells.await_dispatcher_for(rt, dispatcher, Duration::from_millis(LONGEST_REST));
        } else {
            bells.await_dispatcher(rt, dispatcher);
        }
    }

    /// Whether it is for the dispatcher of this number to carry commits over.
    pub(crate) fn lags(&self, dispatcher: u32) -> bool {
        dispatcher == FOLLOWER && self.lag.is_due()
    }
}

impl<K: Follower + Drop> Server<K> {
    /// Wakes the dispatcher that follows, if this commit is one for that, and lets the client wait that has made it, if
    /// the row store is wanted or it is far ahead of a batch. Whoever waits for the row store then goes on, since
    /// nobody else would wake them.
    pub(crate) fn keep_pace<R: Wait>(&self, rt: &R, client: u32, commit: u64) {
        if self.pace.lag.wakes(commit) {
            self.bells.ring_follower();
        }
        if commit > self.pace.limit.load(Ordering::Relaxed) {
            self.table.wake_waiting();
            let longest = Duration::from_millis(LONGEST_WAIT);
            self.bells.await_client_for(rt, client, longest);
        }
    }
}
