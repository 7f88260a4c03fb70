//! One figure as a metric of Prometheus.

ghost use Rattle.std.specs.Prelude.{◌≡◌, Some};
ghost use Rattle.server_figures.specs.MetricsText.{metric_amount, metric_exponent, metric_help, metric_kind};
ghost use Rattle.server_figures.specs.MetricsText.{metric_name, metric_text};

use std::fmt;

/// A figure as a metric of Prometheus, with its value.
#[derive(Clone, Copy, Debug, PartialEq, Eq)]
pub enum Metric {
    /// Whether the server takes requests.
    Ready(bool),
    /// How many commits there are.
    Commits(u64),
    /// How many lines are live.
    Lines(u64),
    /// How many may be.
    LinesLimit(u64),
    /// How many refreshes were refused.
    Refusals(u64),
    /// How many questions were answered.
    Answers(u64),
    /// How many batches were answered.
    Batches(u64),
    /// How many nanoseconds the last batch took.
    LastBatch(u64),
    /// How many commits its answers lacked.
    AnswerLag(u64),
    /// How many sessions are open.
    Sessions(u64),
    /// How many have ended with an error.
    BrokenSessions(u64),
    /// How many bytes the journal has.
    JournalBytes(u64),
    /// How many bytes of memory the program has.
    ResidentBytes(u64),
}

impl Metric {
    /// Its name: a unit of Prometheus stands at its end.
    pub fn name(self) -> &'static str
        ensures { result.now ≡ metric_name self }
    {
        match self {
            Metric::Ready(_) => "ssb_live_ready",
            Metric::Commits(_) => "ssb_live_commits_total",
            Metric::Lines(_) => "ssb_live_lines",
            Metric::LinesLimit(_) => "ssb_live_lines_limit",
            Metric::Refusals(_) => "ssb_live_refusals_total",
            Metric::Answers(_) => "ssb_live_answers_total",
            Metric::Batches(_) => "ssb_live_batches_total",
            Metric::LastBatch(_) => "ssb_live_last_batch_seconds",
            Metric::AnswerLag(_) => "ssb_live_answer_lag_commits",
            Metric::Sessions(_) => "ssb_live_sessions",
            Metric::BrokenSessions(_) => "ssb_live_broken_sessions_total",
            Metric::JournalBytes(_) => "ssb_live_journal_bytes",
            Metric::ResidentBytes(_) => "ssb_live_resident_bytes",
        }
    }

    // What a person is told of it.
    fn help(self) -> &'static str
        ensures { result.now ≡ metric_help self }
    {
        match self {
            Metric::Ready(_) => "Whether the server takes requests.",
            Metric::Commits(_) => "Commits, those of the journal among them.",
            Metric::Lines(_) => "Lines that are live.",
            Metric::LinesLimit(_) => "The most lines that may be live.",
            Metric::Refusals(_) => "Refreshes that were refused.",
            Metric::Answers(_) => "Questions that were answered.",
            Metric::Batches(_) => "Batches in which they were answered.",
            Metric::LastBatch(_) => "How long the last batch took.",
            Metric::AnswerLag(_) =>
                "Commits that the answers of the last batch lacked when it was answered.",
            Metric::Sessions(_) => "Sessions that are open.",
            Metric::BrokenSessions(_) => "Sessions that have ended with an error.",
            Metric::JournalBytes(_) => "Bytes of the journal.",
            Metric::ResidentBytes(_) => "Bytes of memory that the server has.",
        }
    }

    // A counter only grows, a gauge may fall.
    fn kind(self) -> &'static str
        ensures { result.now ≡ metric_kind self }
    {
        match self {
            Metric::Commits(_)
            | Metric::Refusals(_)
            | Metric::Answers(_)
            | Metric::Batches(_)
            | Metric::BrokenSessions(_) => "counter",
            Metric::Ready(_)
            | Metric::Lines(_)
            | Metric::LinesLimit(_)
            | Metric::LastBatch(_)
            | Metric::AnswerLag(_)
            | Metric::Sessions(_)
            | Metric::JournalBytes(_)
            | Metric::ResidentBytes(_) => "gauge",
        }
    }

    // The digits of its value.
    fn amount(self) -> u64
        ensures { result ≡ metric_amount self }
    {
        match self {
            Metric::Ready(ready) => u64::from(ready),
            Metric::Commits(amount)
            | Metric::Lines(amount)
            | Metric::LinesLimit(amount)
            | Metric::Refusals(amount)
            | Metric::Answers(amount)
            | Metric::Batches(amount)
            | Metric::LastBatch(amount)
            | Metric::AnswerLag(amount)
            | Metric::Sessions(amount)
            | Metric::BrokenSessions(amount)
            | Metric::JournalBytes(amount)
            | Metric::ResidentBytes(amount) => amount,
        }
    }

    // What stands behind them: nanoseconds are told as seconds.
    fn exponent(self) -> &'static str
        ensures { result.now ≡ metric_exponent self }
    {
        match self {
            Metric::LastBatch(_) => "e-9",
            Metric::Ready(_)
            | Metric::Commits(_)
            | Metric::Lines(_)
            | Metric::LinesLimit(_)
            | Metric::Refusals(_)
            | Metric::Answers(_)
            | Metric::Batches(_)
            | Metric::AnswerLag(_)
            | Metric::Sessions(_)
            | Metric::BrokenSessions(_)
            | Metric::JournalBytes(_)
            | Metric::ResidentBytes(_) => "",
        }
    }
}

impl fmt::Display for Metric {
    ghost output = { λ metric. Some (metric_text metric) };

    #[tactic(auto, unfolding(crate::specs::MetricsText::metric_text))]
    fn fmt<W: fmt::Write>(&self, f: &mut fmt::Formatter<W>) -> fmt::Result {
        let name = self.name();
        let (help, kind) = (self.help(), self.kind());
        let (amount, exponent) = (self.amount(), self.exponent());
        writeln!(f, "# HELP {name} {help}")?;
        writeln!(f, "# TYPE {name} {kind}")?;
        writeln!(f, "{name} {amount}{exponent}")
    }
}
