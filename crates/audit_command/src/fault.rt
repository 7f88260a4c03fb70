//! Why a trace was not found legal.

ghost use Rattle.audit_command.specs.Status.{against_status};

use ssb_audit::AuditFault;
use ssb_files::{Finding, JobFault};
use std::fmt;

/// What speaks against the trace, or memory was wanting to look for it.
#[derive(Debug, Drop)]
pub struct Against(pub AuditFault);

impl Finding for Against {
    ghost found_status = { against_status };

    fn status(&self) -> u8 {
        match self.0 {
            AuditFault::OutOfMemory => 4,
            _ => 3,
        }
    }
}

impl fmt::Display for Against {
    fn fmt<W: fmt::Write>(&self, f: &mut fmt::Formatter<W>) -> fmt::Result {
        match &self.0 {
            AuditFault::OutOfMemory => f.write_str("out of memory"),
            fault => write!(f, "audit: {fault}"),
        }
    }
}

/// Why a trace was not found legal, or the verdict was not written. The exit status is 1 where the data or the trace
/// was refused, 3 where something speaks against the trace, and else 4.
pub type AuditingFault = JobFault<Against>;
