//! Why a file is no journal over the tables.
ghost use Rattle.std.specs.Prelude.{◌≡◌};
ghost use Rattle.ssb_journal.specs.declared.fault.JournalFault.TheVariants.{OutOfMemory};

use ssb_schema::Table;
use std::alloc::{AllocError, AllocFailed};
use thiserror::Error;

/// Why a file is no journal over the tables, or no whole one. Its text is its number, its name and its values.
#[derive(Clone, Copy, Debug, PartialEq, Eq, Error)]
pub enum JournalFault {
    /// It is neither a journal of this program, nor what a crash leaves of one that is being made.
    #[error("90 NotAJournal")]
    NotAJournal,
    /// It is a journal of this form, which is newer than those that this program knows.
    #[error("66 NewerForm {0}")]
    NewerForm(u64),
    /// It was made over another file of this table.
    #[error("91 OtherTables {0}")]
    OtherTables(Table),
    /// The bytes of this group are not those that were written. The first group, the head, has number 0.
    #[error("93 Damaged {0}")]
    Damaged(u64),
    /// Memory ran out.
    #[error("out of memory")]
    OutOfMemory,
}

impl From<AllocError> for JournalFault {
    ghost from_gives = { λ _ e. e ≡ OutOfMemory };

    fn from(_e: AllocError) -> JournalFault {
        JournalFault::OutOfMemory
    }
}

impl<T: Drop> From<AllocFailed<T>> for JournalFault {
    ghost from_gives = { λ _ e. e ≡ OutOfMemory };

    fn from(_e: AllocFailed<T>) -> JournalFault {
        JournalFault::OutOfMemory
    }
}
