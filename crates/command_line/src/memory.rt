//! How much memory the program has.

use server_figures::resident_bytes;
use std::fs;
use std::rt::Files;

// Where Linux says it.
const STATUS: &str = "/proc/self/status";

/// How many bytes of memory the program has, where the system says so.
pub(crate) fn resident<F: Files + AllocGlobal>(files: &F) -> Option<u64> {
    let status = fs::read(files, STATUS).ok()?;
    resident_bytes(status.as_slice())
}
