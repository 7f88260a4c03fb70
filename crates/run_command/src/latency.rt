//! How long requests took.

use crate::histogram::Histogram;
use ssb_serving::WatchesRun;
use std::alloc::{AllocError, Global};
use std::time::{Clock, Duration, Instant};
use stream_sessions::{Meter, RequestKind};

/// How long the requests of one kind took, from the call to the reply and its report. The middle and the 99th
/// percentile are at most 1/32 too great; all three are zero where there are none. Figures for a reader: no contract
/// tells them.
#[derive(Clone, Copy, Debug, Default, PartialEq, Eq)]
pub struct Latency {
    pub count: u64,
    pub middle: Duration,
    pub ninety_ninth: Duration,
    pub greatest: Duration,
}

/// How long the requests of all clients took, without those that were aborted; no requests where no times were taken. A
/// question takes as long as the request that it is asked in.
#[derive(Clone, Copy, Debug, Default, PartialEq, Eq)]
pub struct Latencies {
    pub refreshes: Latency,
    pub answers: Latency,
}

/// The times of requests, by their kind.
#[derive(Drop)]
pub(crate) struct Times {
    refreshes: Histogram,
    answers: Histogram,
}

fn latency_of(times: &Histogram) -> Latency {
    Latency {
        count: times.count(),
        middle: Duration::from_nanos(times.within(50)),
        ninety_ninth: Duration::from_nanos(times.within(99)),
        greatest: Duration::from_nanos(times.greatest()),
    }
}

impl Times {
    fn new(alloc: Global) -> Result<Times, AllocError> {
        Ok(Times {
            refreshes: Histogram::new(alloc)?,
            answers: Histogram::new(alloc)?,
        })
    }

    fn add(&mut self, kind: RequestKind, time: Duration) {
        let nanos = u64::try_from(time.as_nanos()).unwrap_or(u64::MAX);
        match kind {
            RequestKind::Refresh => self.refreshes.add(nanos),
            RequestKind::Questions(count) => {
                for _ in 0..count {
                    self.answers.add(nanos);
                }
            }
            RequestKind::Order | RequestKind::Abort => {}
        }
    }

    fn merge(&mut self, other: &Times) {
        self.refreshes.merge(&other.refreshes);
        self.answers.merge(&other.answers);
    }
}

/// The times of both, where they were taken.
pub(crate) fn joined(one: Option<Times>, other: Option<Times>) -> Option<Times> {
    match (one, other) {
        (Some(mut one), Some(other)) => {
            one.merge(&other);
            Some(one)
        }
        (Some(one), None) => Some(one),
        (None, other) => other,
    }
}

/// What is told of times, where they were taken.
pub(crate) fn latencies_of(times: &Option<Times>) -> Latencies {
    match times {
        Some(times) => Latencies {
            refreshes: latency_of(&times.refreshes),
            answers: latency_of(&times.answers),
        },
        None => Latencies::default(),
    }
}

/// Takes the time of each request, or stands still: then it reads no clock. Requests follow one another, so each begins
/// where the one before it has ended, and what is read ahead belongs to the first that it is read for.
#[derive(Drop)]
pub(crate) struct Timer<'a, C: Clock> {
    clock: &'a C,
    since: Option<Instant>,
    times: Option<Times>,
}

impl<'a, C: Clock> Timer<'a, C> {
    /// A timer that runs, or one that stands still. All its memory is taken here.
    pub(crate) fn new(alloc: Global, clock: &'a C, runs: bool) -> Result<Timer<'a, C>, AllocError> {
        let times = if runs { Some(Times::new(alloc)?) } else { None };
        Ok(Timer {
            clock,
            since: None,
            times,
        })
    }

    /// The times that were taken.
    pub(crate) fn into_times(self) -> Option<Times> {
        self.times
    }
}

impl<'a, C: Clock> Meter for Timer<'a, C> {
    fn begin(&mut self) {
        if self.times.is_some() && self.since.is_none() {
            self.since = Instant::now(self.clock).ok();
        }
    }

    fn end(&mut self, kind: RequestKind) {
        let (Some(times), Some(since)) = (&mut self.times, self.since) else {
            return;
        };
        let now = Instant::now(self.clock).ok();
        if let Some(now) = now {
            times.add(kind, now.duration_since(since));
        }
        self.since = now;
    }
}

/// Takes the time of all threads together, or stands still: then it reads no clock.
#[derive(Drop)]
pub(crate) struct RunStopwatch<'a, C: Clock> {
    clock: &'a C,
    runs: bool,
    since: Option<Instant>,
    time: Option<Duration>,
}

impl<'a, C: Clock> RunStopwatch<'a, C> {
    /// A watch that runs, or one that stands still.
    pub(crate) fn new(clock: &'a C, runs: bool) -> RunStopwatch<'a, C> {
        RunStopwatch {
            clock,
            runs,
            since: None,
            time: None,
        }
    }

    /// The time from the beginning to the end, where it runs and the clock told both.
    pub(crate) fn time(&self) -> Option<Duration> {
        self.time
    }
}

impl<'a, C: Clock> WatchesRun for RunStopwatch<'a, C> {
    fn begin(&mut self) {
        if self.runs {
            self.since = Instant::now(self.clock).ok();
        }
    }

    fn end(&mut self) {
        let Some(since) = self.since else {
            return;
        };
        let now = Instant::now(self.clock).ok();
        self.time = now.map(|now| now.duration_since(since));
    }
}
