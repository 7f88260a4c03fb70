//! Why a folder is not served as a store.

ghost use Rattle.std.specs.Prelude.{◌≡◌};
ghost use Rattle.store_folder.specs.Status.{fault_status};
ghost use Rattle.store_folder.specs.declared.fault.StoreFault.TheVariants.{OutOfMemory};

use journal_opening::NoSuchCommit;
use std::alloc::{AllocError, AllocFailed};
use std::io::{self, ErrorKind};
use thiserror::Error;

/// Why a folder is not served as a store. Nothing was written.
#[derive(Clone, Debug, Drop, Error)]
pub enum StoreFault {
    /// There are no whole tables in it.
    #[error("87 NoStore")]
    NoStore,
    /// Commits are missing before this one: no segment leads to that of this number, or the newest tables have so many
    /// and no segment follows.
    #[error("88 Gap {0}")]
    Gap(u64),
    /// All whole tables are after more commits than are asked for.
    #[error(transparent)]
    NoSuchCommit(NoSuchCommit),
    /// A file of this name is damaged, or is of another store.
    #[error("{0}: 93 Damaged 0")]
    Damaged(String),
    /// A file, by its path, cannot be read.
    #[error("cannot read {0}")]
    CannotRead(String),
    /// Memory ran out.
    #[error("out of memory")]
    OutOfMemory,
}

impl From<AllocError> for StoreFault {
    ghost from_gives = { λ _ e. e ≡ OutOfMemory };

    fn from(_: AllocError) -> Self {
        StoreFault::OutOfMemory
    }
}

impl<T: Drop> From<AllocFailed<T>> for StoreFault {
    ghost from_gives = { λ _ e. e ≡ OutOfMemory };

    fn from(_: AllocFailed<T>) -> Self {
        StoreFault::OutOfMemory
    }
}

impl StoreFault {
    /// The exit status: 1 where the folder is refused, and 4 where it could not be read.
    pub fn status(&self) -> u8
        ensures { result ≡ fault_status self.now }
    {
        match self {
            StoreFault::NoStore | StoreFault::Gap(_) => 1,
            StoreFault::NoSuchCommit(_) | StoreFault::Damaged(_) => 1,
            StoreFault::CannotRead(_) | StoreFault::OutOfMemory => 4,
        }
    }

    /// Why the file of this path was not read.
    pub(crate) fn of_path(path: String, error: io::Error) -> StoreFault {
        if error.kind() == ErrorKind::OutOfMemory {
            return StoreFault::OutOfMemory;
        }
        StoreFault::CannotRead(path)
    }
}
