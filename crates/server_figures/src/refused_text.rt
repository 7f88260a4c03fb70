//! Refusals by their cause, as a metric of Prometheus and as a line of a status.

ghost use Rattle.std.specs.Prelude.{Some};
ghost use Rattle.server_figures.specs.RefusedText.{cause_metric_text, cause_term_text, refused_metric_text};
ghost use Rattle.server_figures.specs.RefusedText.{refused_terms_text};

use crate::refused::Refused;
use std::fmt;

// The causes, by their number and their name.
const LOG_FULL: &str = "40 LogFull";

const PRESENT: &str = "41 Present";

const UNKNOWN_CUSTOMER: &str = "42 UnknownCustomer";

const UNKNOWN_SUPPLIER: &str = "43 UnknownSupplier";

const UNKNOWN_PART: &str = "44 UnknownPart";

const UNKNOWN_DATE: &str = "45 UnknownDate";

const LINES_FULL: &str = "46 LinesFull";

const ABSENT: &str = "47 Absent";

const AMEND_ABSENT: &str = "48 AmendAbsent";

// How many refreshes were refused for a cause, as a value of the metric.
#[derive(Clone, Copy)]
struct CauseMetric(&'static str, u64);

impl fmt::Display for CauseMetric {
    ghost output = { λ m. Some (cause_metric_text m.0.now m.1) };

    fn fmt<W: fmt::Write>(&self, f: &mut fmt::Formatter<W>) -> fmt::Result {
        let cause = self.0;
        let count = self.1;
        writeln!(f, "ssb_live_refused_total{{cause=\"{cause}\"}} {count}")
    }
}

/// Refusals by their cause as a metric of Prometheus, with a value for each cause.
#[derive(Clone, Copy, Debug, PartialEq, Eq)]
pub(crate) struct RefusedMetric(pub(crate) Refused);

impl fmt::Display for RefusedMetric {
    ghost output = { λ m. Some (refused_metric_text m.0) };

    #[tactic(auto, unfolding(crate::specs::RefusedText::refused_metric_text))]
    fn fmt<W: fmt::Write>(&self, f: &mut fmt::Formatter<W>) -> fmt::Result {
        let refused = self.0;
        let log_full = CauseMetric(LOG_FULL, refused.log_full);
        let present = CauseMetric(PRESENT, refused.present);
        let customer = CauseMetric(UNKNOWN_CUSTOMER, refused.unknown_customer);
        let supplier = CauseMetric(UNKNOWN_SUPPLIER, refused.unknown_supplier);
        let part = CauseMetric(UNKNOWN_PART, refused.unknown_part);
        let date = CauseMetric(UNKNOWN_DATE, refused.unknown_date);
        let lines_full = CauseMetric(LINES_FULL, refused.lines_full);
        let absent = CauseMetric(ABSENT, refused.absent);
        let amend_absent = CauseMetric(AMEND_ABSENT, refused.amend_absent);
        writeln!(
            f,
            "# HELP ssb_live_refused_total Refreshes that were refused, by their cause."
        )?;
        writeln!(f, "# TYPE ssb_live_refused_total counter")?;
        write!(f, "{log_full}{present}{customer}{supplier}{part}{date}")?;
        write!(f, "{lines_full}{absent}{amend_absent}")
    }
}

// How many refreshes were refused for a cause, in a line of a status; nothing where there are none.
#[derive(Clone, Copy)]
struct CauseTerm(&'static str, u64);

impl fmt::Display for CauseTerm {
    ghost output = { λ t. Some (cause_term_text t.0.now t.1) };

    fn fmt<W: fmt::Write>(&self, f: &mut fmt::Formatter<W>) -> fmt::Result {
        let cause = self.0;
        match self.1 {
            0 => Ok(()),
            count => write!(f, ", {cause} {count}"),
        }
    }
}

/// Refusals by their cause in a line of a status: those of which there are some.
#[derive(Clone, Copy, Debug, PartialEq, Eq)]
pub(crate) struct RefusedTerms(pub(crate) Refused);

impl fmt::Display for RefusedTerms {
    ghost output = { λ t. Some (refused_terms_text t.0) };

    #[tactic(auto, unfolding(crate::specs::RefusedText::refused_terms_text))]
    fn fmt<W: fmt::Write>(&self, f: &mut fmt::Formatter<W>) -> fmt::Result {
        let refused = self.0;
        let log_full = CauseTerm(LOG_FULL, refused.log_full);
        let present = CauseTerm(PRESENT, refused.present);
        let customer = CauseTerm(UNKNOWN_CUSTOMER, refused.unknown_customer);
        let supplier = CauseTerm(UNKNOWN_SUPPLIER, refused.unknown_supplier);
        let part = CauseTerm(UNKNOWN_PART, refused.unknown_part);
        let date = CauseTerm(UNKNOWN_DATE, refused.unknown_date);
        let lines_full = CauseTerm(LINES_FULL, refused.lines_full);
        let absent = CauseTerm(ABSENT, refused.absent);
        let amend_absent = CauseTerm(AMEND_ABSENT, refused.amend_absent);
        write!(f, "{log_full}{present}{customer}{supplier}{part}{date}")?;
        write!(f, "{lines_full}{absent}{amend_absent}")
    }
}
