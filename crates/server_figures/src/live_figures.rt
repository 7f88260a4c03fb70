//! The figures of a server, counted while it serves.

use crate::figures::Figures;
use crate::refused::LiveRefused;
use row_store::Cause;
use std::sync::atomic::{AtomicBool, AtomicU64, Ordering};
use std::time::Duration;

/// The figures of a server that serves. Threads share them without a lock. Each is right when it is read; two of them
/// may be read at two moments. All numbers are modulo 2^64.
#[derive(Drop)]
pub struct LiveFigures {
    commits: AtomicU64,
    lines: AtomicU64,
    refusals: AtomicU64,
    refused: LiveRefused,
    answers: AtomicU64,
    by_totals: AtomicU64,
    batches: AtomicU64,
    last_batch: AtomicU64,
    lacked: AtomicU64,
    sessions: AtomicU64,
    broken: AtomicU64,
    ready: AtomicBool,
}

// One more, or some more.
fn add(figure: &AtomicU64, count: u64) {
    let _ = figure.fetch_add(count, Ordering::Relaxed);
}

impl LiveFigures {
    /// Nothing was done yet.
    pub fn new() -> LiveFigures {
        LiveFigures {
            commits: AtomicU64::new(0),
            lines: AtomicU64::new(0),
            refusals: AtomicU64::new(0),
            refused: LiveRefused::new(),
            answers: AtomicU64::new(0),
            by_totals: AtomicU64::new(0),
            batches: AtomicU64::new(0),
            last_batch: AtomicU64::new(0),
            lacked: AtomicU64::new(0),
            sessions: AtomicU64::new(0),
            broken: AtomicU64::new(0),
            ready: AtomicBool::new(false),
        }
    }

    /// The figures now.
    pub fn now(&self) -> Figures {
        Figures {
            commits: self.commits.load(Ordering::Relaxed),
            lines: self.lines.load(Ordering::Relaxed),
            refusals: self.refusals.load(Ordering::Relaxed),
            refused: self.refused.now(),
            answers: self.answers.load(Ordering::Relaxed),
            by_totals: self.by_totals.load(Ordering::Relaxed),
            batches: self.batches.load(Ordering::Relaxed),
            last_batch: self.last_batch.load(Ordering::Relaxed),
            lacked: self.lacked.load(Ordering::Relaxed),
            sessions: self.sessions.load(Ordering::Relaxed),
            broken: self.broken.load(Ordering::Relaxed),
            ready: self.ready.load(Ordering::Relaxed),
        }
    }

    /// There are so many commits, and so many live lines after them. Who tells it holds the row store, so that neither
    /// goes back to an earlier one.
    pub fn has_committed(&self, commits: u64, lines: u64) {
        self.commits.store(commits, Ordering::Relaxed);
        self.lines.store(lines, Ordering::Relaxed);
    }

    /// A refresh was refused for this cause.
    pub fn has_refused(&self, cause: Cause) {
        add(&self.refusals, 1);
        self.refused.count(cause);
    }

    /// A batch of so many questions is answered, so many of them from totals. Its clients get the answers after this.
    pub fn has_answered(&self, questions: u64, by_totals: u64) {
        add(&self.batches, 1);
        add(&self.answers, questions);
        add(&self.by_totals, by_totals);
    }

    /// The batch that was answered after so many commits took so long.
    pub fn batch_took(&self, commits: u64, time: Duration) {
        let nanoseconds = u64::try_from(time.as_nanos()).unwrap_or(u64::MAX);
        let lacked = self.commits.load(Ordering::Relaxed).saturating_sub(commits);
        self.last_batch.store(nanoseconds, Ordering::Relaxed);
        self.lacked.store(lacked, Ordering::Relaxed);
    }

    /// The server takes requests from here on.
    pub fn begins_to_serve(&self) {
        self.ready.store(true, Ordering::Relaxed);
    }

    /// It takes none any more.
    pub fn has_served(&self) {
        self.ready.store(false, Ordering::Relaxed);
    }

    /// A session begins.
    pub fn session_begins(&self) {
        add(&self.sessions, 1);
    }

    /// One that has begun ends, with an error or without.
    pub fn session_ends(&self, broke: bool) {
        let _ = self.sessions.fetch_sub(1, Ordering::Relaxed);
        if broke {
            add(&self.broken, 1);
        }
    }
}

impl Default for LiveFigures {
    fn default() -> LiveFigures {
        LiveFigures::new()
    }
}
