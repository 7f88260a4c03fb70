//! What became of the turns from one segment to the next.

use std::sync::atomic::{AtomicBool, AtomicU64, Ordering};

/// What became of the turns from one segment to the next, for whoever looks on.
#[derive(Drop)]
pub struct SegmentTurns {
    is_unmade: AtomicBool,
    last: AtomicU64,
}

impl SegmentTurns {
    /// There was no turn.
    pub fn new() -> SegmentTurns {
        SegmentTurns {
            is_unmade: AtomicBool::new(false),
            last: AtomicU64::new(0),
        }
    }

    /// Takes note that a segment could not be made, and the one of this number goes on.
    pub(crate) fn note_unmade(&self, last: u64) {
        self.last.store(last, Ordering::SeqCst);
        self.is_unmade.store(true, Ordering::SeqCst);
    }

    /// The number of the segment that goes on, where the next could not be made.
    pub fn goes_on(&self) -> Option<u64> {
        if self.is_unmade.load(Ordering::SeqCst) {
            Some(self.last.load(Ordering::SeqCst))
        } else {
            None
        }
    }
}
