//! How much memory a program has, as Linux says it.

use std::str;

// What stands before the number of kilobytes in its line, and what behind it.
const NAME: &[u8] = b"VmRSS:";

const UNIT: &[u8] = b" kB";

// The number that a line has, where it is that of the memory.
fn kilobytes_in(line: &[u8]) -> Option<u64> {
    let digits = line.strip_prefix(NAME)?.trim_ascii().strip_suffix(UNIT)?;
    str::from_utf8(digits).ok()?.parse::<u64>().ok()
}

/// How many bytes of memory a program has, where this text of `/proc/PID/status` says it.
pub fn resident_bytes(status: &[u8]) -> Option<u64> {
    let kilobytes = status
        .split(|byte| *byte == b'\n')
        .find_map(|line| kilobytes_in(line))?;
    kilobytes.checked_mul(1024)
}
