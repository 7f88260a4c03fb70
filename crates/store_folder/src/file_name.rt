//! The names of a store's files, and the numbers in them.

ghost use Rattle.std.specs.Prelude.{◌≡◌, ◌↔◌, ◌<◌, ◌^◌, ℕ, decimal, IsTrue, MatchOption};
ghost use Rattle.store_folder.specs.Texts.{name_of};

use itoa::Buffer;
use ssb_schema::number;
use std::alloc::{AllocError, Global};

/// What stands before the number of tables.
pub(crate) const TABLES: &[u8] = b"tables.";

/// What stands before the number of a segment.
pub(crate) const SEGMENT: &[u8] = b"journal.";

// Whether these are the digits of a number, with no zero before it.
fn are_digits(digits: &[u8], number: u64) -> bool
    ensures { IsTrue result ↔ (digits.now ≡ decimal number) }
{
    let mut buffer = Buffer::new();
    buffer.format(number).as_bytes() == digits
}

/// The number behind the beginning of a name, as a store writes it.
pub(crate) fn number_in(name: &[u8], begin: &[u8]) -> Option<u64>
    ensures { MatchOption result ((n : ℕ) → n < 2 ^ 64 → name.now ≡ name_of begin.now n → ⊥)
        (λ n. name.now ≡ name_of begin.now n) }
{
    let digits = name.strip_prefix(begin)?;
    let found = number(digits)?;
    if are_digits(digits, found) {
        Some(found)
    } else {
        None
    }
}

/// The folder of the tables after so many commits.
pub fn tables_path(alloc: Global, folder: &str, after: u64) -> Result<String, AllocError> {
    format!(in alloc; "{folder}/tables.{after}")
}

/// The file that tells of these tables.
pub fn sizes_path(alloc: Global, folder: &str, after: u64) -> Result<String, AllocError> {
    format!(in alloc; "{folder}/tables.{after}/sizes")
}

/// The segment of the commits behind so many.
pub fn segment_path(alloc: Global, folder: &str, after: u64) -> Result<String, AllocError> {
    format!(in alloc; "{folder}/journal.{after}")
}

/// The file that a server holds.
pub fn lock_path(alloc: Global, folder: &str) -> Result<String, AllocError> {
    format!(in alloc; "{folder}/lock")
}

/// The file that a checkpoint holds.
pub fn checkpoint_lock_path(alloc: Global, folder: &str) -> Result<String, AllocError> {
    format!(in alloc; "{folder}/checkpoint.lock")
}
