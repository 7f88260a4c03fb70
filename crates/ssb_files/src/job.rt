//! Why one job of the program stops: a fault of the program, or what only this job finds.

ghost use Rattle.std.specs.Prelude.{◌≡◌};
ghost use Rattle.ssb_files.specs.Status.{job_status};
ghost use Rattle.ssb_files.specs.declared.fault.Fault.TheVariants as common;
ghost use Rattle.ssb_files.specs.declared.job.JobFault.TheVariants.{Program};

use crate::fault::{Fault, write_fault};
use std::alloc::{AllocError, AllocFailed};
use std::fmt;
use std::io::Write;

/// What one job finds, and no other. Its text stands after the program's name in the fault line.
pub trait Finding: fmt::Display + Drop {
    ghost use Rattle.std.specs.Prelude.{◌≡◌, ℕ};

    // The exit status that it brings.
    ghost found_status: { Self → ℕ };

    /// The exit status.
    fn status(&self) -> u8
        ensures { result ≡ found_status self.now };
}

/// Why a job of the program stops.
#[derive(Debug, Drop)]
pub enum JobFault<F: Finding> {
    /// Data, a script or a trace is refused, or reading, writing or memory failed.
    Program(Fault),
    /// What only this job finds.
    Found(F),
}

impl<F: Finding> JobFault<F> {
    /// The exit status: that of the program's fault, or of what was found.
    pub fn status(&self) -> u8
        ensures { result ≡ job_status F.found_status self.now }
    {
        match self {
            JobFault::Program(fault) => fault.status(),
            JobFault::Found(found) => found.status(),
        }
    }

    /// Writes the fault line, if the writer takes it, and gives the exit status.
    pub fn tell<E: Write>(&self, err: &mut E) -> u8
        ensures { result ≡ job_status F.found_status self.now }
    {
        write_fault(err, self);
        self.status()
    }
}

impl<F: Finding> fmt::Display for JobFault<F> {
    fn fmt<W: fmt::Write>(&self, f: &mut fmt::Formatter<W>) -> fmt::Result {
        match self {
            JobFault::Program(fault) => write!(f, "{fault}"),
            JobFault::Found(found) => write!(f, "{found}"),
        }
    }
}

impl<F: Finding> From<Fault> for JobFault<F> {
    ghost from_gives = { λ fault e. e ≡ Program fault };

    fn from(fault: Fault) -> JobFault<F> {
        JobFault::Program(fault)
    }
}

impl<F: Finding> From<AllocError> for JobFault<F> {
    ghost from_gives = { λ _ e. e ≡ Program common.OutOfMemory };

    fn from(_error: AllocError) -> JobFault<F> {
        JobFault::Program(Fault::OutOfMemory)
    }
}

impl<F: Finding, T: Drop> From<AllocFailed<T>> for JobFault<F> {
    ghost from_gives = { λ _ e. e ≡ Program common.OutOfMemory };

    fn from(_error: AllocFailed<T>) -> JobFault<F> {
        JobFault::Program(Fault::OutOfMemory)
    }
}
