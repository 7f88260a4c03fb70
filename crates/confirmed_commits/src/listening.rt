//! What a second server tells, line by line, as it comes.

ghost use Rattle.std.specs.Prelude.{◌≡◌, ◌≢◌, [], ◌∷◌, ◌++◌, IfSome, false};
ghost use Rattle.confirmed_commits.specs.Receipts.{IsReceipt};

use crate::confirmed::Confirmed;
use crate::seconds::Seconds;
use std::alloc::Global;
use std::io::Read;
use std::sync::Wait;
use std::thread;
use std::time::{Clock, Duration};

// How many bytes are read at once.
const PART: usize = 4096;

// A longer line is no receipt.
const MOST_LINE: usize = 64;

// How many milliseconds lie between two looks, where there is nothing to read and nobody has the other end open.
const TICK: u64 = 10;

// The line whose end has not come yet.
#[derive(Drop)]
struct BegunLine {
    bytes: Vec<u8>,
    // It has bytes that are not kept.
    is_too_long: bool,
}

impl BegunLine {
    // Takes the next byte, and gives what the line is evidence of that ends with it.
    fn take(&mut self, byte: u8) -> Option<Confirmed>
        ensures whole { IfSome result (λ _. (byte ≡ 10) × (self.old.is_too_long ≡ false)) }
        ensures receipt { IfSome result (λ told. IsReceipt self.old.bytes.items told.commits) }
        ensures ended { byte ≡ 10 → (self.new.bytes.items ≡ []) × (self.new.is_too_long ≡ false) }
        ensures begun { byte ≢ 10 → self.new.is_too_long ≡ false → (self.old.is_too_long ≡ false)
            × (self.new.bytes.items ≡ self.old.bytes.items ++ byte ∷ []) }
    {
        if byte != b'\n' {
            self.is_too_long = self.is_too_long
                || self.bytes.len() == MOST_LINE
                || self.bytes.push(byte).is_err();
            return None;
        }
        let told = if self.is_too_long {
            None
        } else {
            Confirmed::of_line(&self.bytes)
        };
        self.bytes.clear();
        self.is_too_long = false;
        told
    }

    // Takes the next bytes, and gives the most that a line is evidence of that ends with one of them.
    fn take_all(&mut self, bytes: &[u8]) -> Option<Confirmed> {
        let mut most: Option<Confirmed> = None;
        for byte in bytes {
            most = match (most, self.take(*byte)) {
                (Some(before), Some(told)) if told.commits() <= before.commits() => Some(before),
                (before, None) => before,
                (_, told) => told,
            };
        }
        most
    }
}

/// Hears what the second server at this place tells, line by line, until the server has ended. Where the input ends, it
/// is looked at again: a named pipe may get another writer, and a file may grow.
pub fn listen<R: Wait + Clock, I: Read>(
    rt: &R,
    alloc: Global,
    input: &mut I,
    place: usize,
    seconds: &Seconds,
) {
    let mut line = BegunLine {
        bytes: Vec::new(alloc),
        is_too_long: false,
    };
    let mut part = [0; PART];
    for _ in rt.forever() {
        if seconds.has_ended() {
            return;
        }
        match input.read(&mut part) {
            Ok(count) if count > 0 => {
                if let Some(told) = line.take_all(&part[..count]) {
                    seconds.hear(rt, place, told);
                }
            },
            _ => thread::sleep(rt, Duration::from_millis(TICK)),
        }
    }
}
