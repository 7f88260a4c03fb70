//! How many refreshes were refused, by their cause.

use row_store::Cause;
use std::sync::atomic::{AtomicU64, Ordering};

/// How many refreshes were refused for each cause.
#[derive(Clone, Copy, Debug, Default, PartialEq, Eq)]
pub struct Refused {
    pub log_full: u64,
    pub present: u64,
    pub unknown_customer: u64,
    pub unknown_supplier: u64,
    pub unknown_part: u64,
    pub unknown_date: u64,
    pub lines_full: u64,
    pub absent: u64,
    pub amend_absent: u64,
}

/// The same, counted while the server serves.
#[derive(Drop)]
pub(crate) struct LiveRefused {
    log_full: AtomicU64,
    present: AtomicU64,
    unknown_customer: AtomicU64,
    unknown_supplier: AtomicU64,
    unknown_part: AtomicU64,
    unknown_date: AtomicU64,
    lines_full: AtomicU64,
    absent: AtomicU64,
    amend_absent: AtomicU64,
}

impl LiveRefused {
    /// None was refused.
    pub(crate) fn new() -> LiveRefused {
        LiveRefused {
            log_full: AtomicU64::new(0),
            present: AtomicU64::new(0),
            unknown_customer: AtomicU64::new(0),
            unknown_supplier: AtomicU64::new(0),
            unknown_part: AtomicU64::new(0),
            unknown_date: AtomicU64::new(0),
            lines_full: AtomicU64::new(0),
            absent: AtomicU64::new(0),
            amend_absent: AtomicU64::new(0),
        }
    }

    // The counter of a cause.
    fn of(&self, cause: Cause) -> &AtomicU64 {
        match cause {
            Cause::LogFull => &self.log_full,
            Cause::Present(_) => &self.present,
            Cause::UnknownCustomer => &self.unknown_customer,
            Cause::UnknownSupplier => &self.unknown_supplier,
            Cause::UnknownPart => &self.unknown_part,
            Cause::UnknownDate => &self.unknown_date,
            Cause::LinesFull => &self.lines_full,
            Cause::Absent(_) => &self.absent,
            Cause::AmendAbsent(_) => &self.amend_absent,
        }
    }

    /// One more, for this cause.
    pub(crate) fn count(&self, cause: Cause) {
        let _ = self.of(cause).fetch_add(1, Ordering::Relaxed);
    }

    /// How many there are now.
    pub(crate) fn now(&self) -> Refused {
        Refused {
            log_full: self.log_full.load(Ordering::Relaxed),
            present: self.present.load(Ordering::Relaxed),
            unknown_customer: self.unknown_customer.load(Ordering::Relaxed),
            unknown_supplier: self.unknown_supplier.load(Ordering::Relaxed),
            unknown_part: self.unknown_part.load(Ordering::Relaxed),
            unknown_date: self.unknown_date.load(Ordering::Relaxed),
            lines_full: self.lines_full.load(Ordering::Relaxed),
            absent: self.absent.load(Ordering::Relaxed),
            amend_absent: self.amend_absent.load(Ordering::Relaxed),
        }
    }
}
