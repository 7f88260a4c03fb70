//! The text of all metrics, and the files that it may be written over.

ghost use Rattle.std.specs.Prelude.{◌≡◌, Some};
ghost use Rattle.server_figures.specs.MetricsText as spec;
ghost use Rattle.server_figures.specs.MetricsText.{metrics_text, text_where_known};

use crate::figures::Figures;
use crate::metric::Metric;
use crate::refused_text::RefusedMetric;
use ssb_base::MOST_LINES;
use std::fmt;

// The sign by which each text is known: it begins with it.
const SIGN: &str = "# ssb_live";

/// How many of a file's first bytes show whether it may be written over.
pub const SIGN_LENGTH: usize = 10;

/// Whether a file may be written over that has no bytes, or begins with these: as many as `SIGN_LENGTH`, or all.
pub fn may_be_replaced(head: &[u8]) -> bool
    ensures { result ≡ spec.may_be_replaced head.now }
{
    head.is_empty() || head.starts_with(SIGN.as_bytes())
}

/// The figures of a server for Prometheus, as a collector reads them from a file.
#[derive(Clone, Copy, Debug, PartialEq, Eq)]
pub struct Metrics {
    pub figures: Figures,
    /// How many bytes the journal has, where there is one.
    pub journal_bytes: Option<u64>,
    /// How many bytes of memory the program has, where the system says so.
    pub resident_bytes: Option<u64>,
}

// A metric, where its value is known.
#[derive(Clone, Copy)]
struct WhereKnown(Option<Metric>);

impl fmt::Display for WhereKnown {
    ghost output = { λ known. Some (text_where_known known.0) };

    fn fmt<W: fmt::Write>(&self, f: &mut fmt::Formatter<W>) -> fmt::Result {
        match self.0 {
            Some(metric) => write!(f, "{metric}"),
            None => Ok(()),
        }
    }
}

impl fmt::Display for Metrics {
    ghost output = { λ metrics. Some (metrics_text metrics) };

    fn fmt<W: fmt::Write>(&self, f: &mut fmt::Formatter<W>) -> fmt::Result {
        let figures = self.figures;
        let ready = Metric::Ready(figures.ready);
        let commits = Metric::Commits(figures.commits);
        let lines = Metric::Lines(figures.lines);
        let limit = Metric::LinesLimit(MOST_LINES as u64);
        let refusals = Metric::Refusals(figures.refusals);
        let refused = RefusedMetric(figures.refused);
        let answers = Metric::Answers(figures.answers);
        let batches = Metric::Batches(figures.batches);
        let last_batch = Metric::LastBatch(figures.last_batch);
        let lag = Metric::AnswerLag(figures.lacked);
        let sessions = Metric::Sessions(figures.sessions);
        let broken = Metric::BrokenSessions(figures.broken);
        let journal = WhereKnown(self.journal_bytes.map(Metric::JournalBytes));
        let resident = WhereKnown(self.resident_bytes.map(Metric::ResidentBytes));
        writeln!(f, "{SIGN} figures")?;
        write!(f, "{ready}{commits}{lines}{limit}{refusals}{refused}")?;
        write!(f, "{answers}{batches}{last_batch}{lag}{sessions}{broken}")?;
        write!(f, "{journal}{resident}")
    }
}
