//! How long the steps of an answer take. What a clock says is in no contract.

use std::io::Write;
use std::time::{Clock, Duration, Instant};

/// A step whose time is told.
#[derive(Clone, Copy)]
pub enum TimedStep {
    /// The base is loaded.
    Load,
    /// The dimensions are indexed.
    Index,
    /// The lines are put into columns.
    Columns,
    /// The batch is prepared.
    Preparation,
    /// The pass over the columns.
    Scan,
}

/// The time of each step so far, where the clock told it. A watch that stands still reads no clock.
#[derive(Drop)]
pub struct Stopwatch {
    // When the step began that is going on.
    since: Option<Instant>,
    load: Option<Duration>,
    index: Option<Duration>,
    columns: Option<Duration>,
    preparation: Option<Duration>,
    scan: Option<Duration>,
}

impl Stopwatch {
    /// A watch that stands still, or that begins now.
    pub fn start<C: Clock>(clock: &C, runs: bool) -> Stopwatch {
        let since = if runs { Instant::now(clock).ok() } else { None };
        Stopwatch {
            since,
            load: None,
            index: None,
            columns: None,
            preparation: None,
            scan: None,
        }
    }

    /// Ends this step, and begins the next.
    pub fn lap<C: Clock>(&mut self, clock: &C, step: TimedStep) {
        let Some(since) = self.since else {
            return;
        };
        let now = Instant::now(clock).ok();
        let spent = now.map(|now| now.duration_since(since));
        match step {
            TimedStep::Load => self.load = spent,
            TimedStep::Index => self.index = spent,
            TimedStep::Columns => self.columns = spent,
            TimedStep::Preparation => self.preparation = spent,
            TimedStep::Scan => self.scan = spent,
        }
        self.since = now;
    }

    /// Writes a line for each step that has a time, in seconds, as far as the writer takes them.
    pub fn tell<E: Write>(&self, err: &mut E) {
        for (name, time) in [
            ("load", self.load),
            ("index", self.index),
            ("columns", self.columns),
            ("preparation", self.preparation),
            ("scan", self.scan),
        ] {
            if let Some(time) = time {
                let seconds = time.as_secs();
                let micros = time.subsec_micros();
                let _ = writeln!(err, "ssb_live: {name} {seconds}.{micros:06} s");
            }
        }
    }
}
