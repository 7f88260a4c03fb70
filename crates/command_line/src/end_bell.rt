//! The end of a server, for whoever works beside it.

use std::sync::Wait;
use std::sync::atomic::{AtomicBool, Ordering};
use std::thread::Parker;
use std::time::Duration;

/// Whether a server has ended, and where one thread sleeps until it does.
#[derive(Drop)]
pub(crate) struct EndBell {
    has_rung: AtomicBool,
    bell: Parker,
}

impl EndBell {
    /// The server has not ended.
    pub(crate) fn new() -> EndBell {
        EndBell {
            has_rung: AtomicBool::new(false),
            bell: Parker::new(),
        }
    }

    /// The server has ended: who sleeps is woken.
    pub(crate) fn ring(&self) {
        self.has_rung.store(true, Ordering::SeqCst);
        self.bell.unpark();
    }

    /// Whether it has.
    pub(crate) fn has_rung(&self) -> bool {
        self.has_rung.load(Ordering::SeqCst)
    }

    /// Sleeps until the server ends, or for so long. It may return for no reason.
    pub(crate) fn await_for<R: Wait>(&self, rt: &R, longest: Duration) {
        self.bell.park_timeout(rt, longest);
    }
}
