//! How fast a run of scripts was. What a clock says is in no contract.

use crate::latency::{Latencies, Latency};
use crate::run::Run;
use server_figures::Figures;
use std::fmt;
use std::io::Write;
use std::time::{Clock, Duration, Instant};

/// The times of a run's two steps, where the clock told them, and what was served. A pace that is not asked for reads
/// no clock.
#[derive(Drop)]
pub struct RunTimes {
    // When the step began that is going on.
    since: Option<Instant>,
    load: Option<Duration>,
    serving: Option<Duration>,
    threads: Option<Duration>,
    commits: u64,
    answers: u64,
    figures: Figures,
    // Whether questions stand.
    stood: bool,
    latencies: Latencies,
}

// Seconds with six decimals, rounded down.
#[derive(Clone, Copy)]
struct Seconds(Duration);

impl fmt::Display for Seconds {
    fn fmt<W: fmt::Write>(&self, f: &mut fmt::Formatter<W>) -> fmt::Result {
        write!(f, "{}.{:06} s", self.0.as_secs(), self.0.subsec_micros())
    }
}

// How many there were a second, rounded down; none where no time passed.
fn a_second(count: u64, time: Duration) -> Option<u128> {
    (u128::from(count) * 1_000_000).checked_div(time.as_micros())
}

// Microseconds with one decimal, rounded down.
#[derive(Clone, Copy)]
struct Micros(Duration);

impl fmt::Display for Micros {
    fn fmt<W: fmt::Write>(&self, f: &mut fmt::Formatter<W>) -> fmt::Result {
        let tenths = self.0.as_nanos() / 100;
        write!(f, "{}.{} us", tenths / 10, tenths % 10)
    }
}

// How long requests of one kind took, where there were any.
fn tell_latency<E: Write>(err: &mut E, name: &str, times: Latency) {
    if times.count == 0 {
        return;
    }
    let _ = writeln!(
        err,
        "ssb_live: {name} {}, middle {}, 99th percentile {}, greatest {}",
        times.count,
        Micros(times.middle),
        Micros(times.ninety_ninth),
        Micros(times.greatest)
    );
}

impl RunTimes {
    /// A pace that stands still, or that begins now.
    pub fn start<C: Clock>(clock: &C, runs: bool) -> RunTimes {
        let since = if runs { Instant::now(clock).ok() } else { None };
        RunTimes {
            since,
            load: None,
            serving: None,
            threads: None,
            commits: 0,
            answers: 0,
            figures: Figures::default(),
            stood: false,
            latencies: Latencies::default(),
        }
    }

    // The time of the step that ends now, where the next begins.
    fn lap<C: Clock>(&mut self, clock: &C) -> Option<Duration> {
        let since = self.since?;
        let now = Instant::now(clock).ok();
        self.since = now;
        now.map(|now| now.duration_since(since))
    }

    /// All tables and scripts are read.
    pub fn end_load<C: Clock>(&mut self, clock: &C) {
        self.load = self.lap(clock);
    }

    /// The server is closed, and left this run; whether questions stood.
    pub fn end_serving<C: Clock>(&mut self, clock: &C, run: &Run, stood: bool) {
        self.serving = self.lap(clock);
        self.threads = run.threads;
        self.commits = run.trace.commits.as_slice().len() as u64;
        self.answers = run.trace.answers.as_slice().len() as u64;
        self.figures = run.figures;
        self.stood = stood;
        self.latencies = run.latencies;
    }

    /// Writes the seconds of both steps and of the threads, the commits and the answers with how many there were a
    /// second of the threads, the batches with the mean number of questions in one, how many answers came from totals
    /// where questions stood, and the times of a refresh and of a question, as far as the writer takes them.
    pub fn tell<E: Write>(&self, err: &mut E) {
        for (name, time) in [
            ("load", self.load),
            ("serving", self.serving),
            ("threads", self.threads),
        ] {
            if let Some(time) = time {
                let _ = writeln!(err, "ssb_live: {name} {}", Seconds(time));
            }
        }
        for (name, count) in [("commits", self.commits), ("answers", self.answers)] {
            let rate = self.threads.and_then(|time| a_second(count, time));
            if let Some(rate) = rate {
                let _ = writeln!(err, "ssb_live: {name} {count}, {rate} a second");
            }
        }
        self.tell_batches(err);
        if self.stood {
            let _ = writeln!(err, "ssb_live: totals {} answers", self.figures.by_totals);
        }
        tell_latency(err, "refreshes", self.latencies.refreshes);
        tell_latency(err, "questions", self.latencies.answers);
    }

    // Each question of a batch that was answered has an answer. The mean is told in hundredths, rounded down.
    fn tell_batches<E: Write>(&self, err: &mut E) {
        let count = self.figures.batches;
        let hundredths = (u128::from(self.answers) * 100).checked_div(u128::from(count));
        if let Some(hundredths) = hundredths {
            let whole = hundredths / 100;
            let rest = hundredths % 100;
            let _ = writeln!(
                err,
                "ssb_live: batches {count}, {whole}.{rest:02} questions each"
            );
        }
    }
}
