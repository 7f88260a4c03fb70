//! The evidence that an append has failed.
ghost use Rattle.std.specs.Prelude.{◌≡◌, false};

use crate::journaled_log::LeftLog;
use crate::source::LogSource;
use journal::{Disk, DiskError};
use std::marker::PhantomData;

/// The evidence that an append to a journal has failed, on a disk of this type. It is made of what a failed append has
/// left ([`JournaledLog::append_new`](crate::JournaledLog::append_new)), and of nothing else.
#[derive(Drop)]
pub struct FailedAppend<D> {
    cause: DiskError,
    of: PhantomData<D>,
}

impl<D: Disk> FailedAppend<D> {
    /// The evidence of an append that failed for this cause.
    pub(crate) fn of<L: LogSource>(cause: DiskError, left: &LeftLog<D, L>) -> FailedAppend<D>
        requires { left.now.whole ≡ false }
        ensures { result.cause ≡ cause }
    {
        let _evidence = left;
        FailedAppend {
            cause,
            of: PhantomData,
        }
    }

    /// The same evidence, for another who asks.
    pub(crate) fn again(&self) -> FailedAppend<D>
        ensures { result.cause ≡ self.now.cause }
    {
        FailedAppend {
            cause: self.cause,
            of: PhantomData,
        }
    }

    /// Why it failed: its disk, its length, or memory.
    pub fn cause(&self) -> DiskError
        ensures { result ≡ self.now.cause }
    {
        self.cause
    }
}
