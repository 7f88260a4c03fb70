//! Why scripts were not served.

use ssb_files::{Finding, JobFault};
use ssb_serving::RunFault;
use std::fmt;

/// No server was opened, or memory or threads were wanting.
#[derive(Debug, Drop)]
pub struct NotRun(pub RunFault);

impl Finding for NotRun {
    ghost found_status = { λ _. 4 };

    fn status(&self) -> u8 {
        4
    }
}

impl fmt::Display for NotRun {
    fn fmt<W: fmt::Write>(&self, f: &mut fmt::Formatter<W>) -> fmt::Result {
        write!(f, "{}", self.0)
    }
}

/// Why scripts were not served, or what they left was not written. The exit status is 1 where the data, a script or a
/// question that is to stand was refused, 2 for too many scripts, and else 4.
pub type RunCommandFault = JobFault<NotRun>;
