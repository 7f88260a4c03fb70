//! Why a refresh is refused.

use thiserror::Error;

/// Why an action of a refresh is refused, or the whole refresh where the log is full.
#[derive(Clone, Copy, Debug, PartialEq, Eq, Error)]
pub enum Cause {
    /// The number of commits is at its limit.
    #[error("40 LogFull")]
    LogFull,
    /// An order is added whose key some live line has.
    #[error("41 Present {0}")]
    Present(u64),
    /// Some line of the order names a customer that the base lacks.
    #[error("42 UnknownCustomer")]
    UnknownCustomer,
    /// Some line of the order names a supplier that the base lacks.
    #[error("43 UnknownSupplier")]
    UnknownSupplier,
    /// Some line of the order names a part that the base lacks.
    #[error("44 UnknownPart")]
    UnknownPart,
    /// Some line of the order has an order date that the base lacks.
    #[error("45 UnknownDate")]
    UnknownDate,
    /// The live lines would be more than the limit.
    #[error("46 LinesFull")]
    LinesFull,
    /// An order is withdrawn whose key no live line has.
    #[error("47 Absent {0}")]
    Absent(u64),
    /// An order is amended whose key no live line has.
    #[error("48 AmendAbsent {0}")]
    AmendAbsent(u64),
}

/// The action that is refused, counted from 1, and why; action 0 is the log.
#[derive(Clone, Copy, Debug, PartialEq, Eq)]
pub struct Refusal {
    pub action: u32,
    pub cause: Cause,
}

/// Why a refresh was not applied.
#[derive(Clone, Copy, Debug, PartialEq, Eq)]
pub enum ApplyError {
    /// The refresh is refused.
    Refused(Refusal),
    /// Memory ran out; the refresh would be accepted.
    OutOfMemory,
}

/// What a client is told of a refresh that was not applied: the refusal with the number of commits at that time.
#[derive(Clone, Copy, Debug, PartialEq, Eq)]
pub enum RefreshError {
    /// The refresh is refused after so many commits, for the cause of this action, counted from 1.
    Refused { at: u64, action: u32, cause: Cause },
    /// Memory ran out; the refresh would be accepted.
    OutOfMemory,
}
