//! The calls on files that failed, and why.

use std::alloc::Global;
use std::io;
use std::io::ErrorKind;
use std::sync::Mutex;

/// What standard input is called.
pub const STANDARD_INPUT: &str = "standard input";

/// What standard output is called.
pub const STANDARD_OUTPUT: &str = "standard output";

// So many calls are kept: more than a server has ends of clients.
const MOST_KEPT: usize = 64;

/// A call on a file, or on what lies at a path, that failed.
#[derive(Drop)]
pub(crate) struct FailedCall {
    pub(crate) path: String,
    pub(crate) error: io::Error,
}

impl FailedCall {
    fn copy(&self) -> Option<FailedCall> {
        Some(FailedCall {
            path: self.path.clone().ok()?,
            error: self.error,
        })
    }
}

// The last of them, the newest at the end.
#[derive(Drop)]
struct LastCalls {
    calls: Vec<FailedCall>,
}

impl LastCalls {
    // Without memory the call is not kept.
    fn push(&mut self, call: FailedCall) {
        if self.calls.len() >= MOST_KEPT {
            self.calls.remove(0);
        }
        let _ = self.calls.push(call);
    }

    fn error_of(&self, path: &str) -> Option<io::Error> {
        let mut found = None;
        for call in self.calls.iter() {
            if call.path.as_str() == path {
                found = Some(call.error);
            }
        }
        found
    }

    fn within(&self, folder: &str) -> Option<&FailedCall> {
        self.calls
            .iter()
            .rev()
            .find(|call| is_within(call.path.as_str(), folder))
    }
}

// Whether a path is that of a folder, or of what lies in it.
fn is_within(path: &str, folder: &str) -> bool {
    match path.strip_prefix(folder) {
        Some(rest) => rest.is_empty() || rest.starts_with("/"),
        None => false,
    }
}

/// The last calls on files that failed, which threads share.
#[derive(Drop)]
pub struct FailedCalls {
    alloc: Global,
    last: Mutex<LastCalls>,
}

impl FailedCalls {
    /// None yet.
    pub fn new(alloc: Global) -> FailedCalls {
        FailedCalls {
            alloc,
            last: Mutex::new(LastCalls {
                calls: Vec::new(alloc),
            }),
        }
    }

    pub(crate) fn alloc(&self) -> Global {
        self.alloc
    }

    // Keeps why a call failed. One that was interrupted is made again. Where another thread keeps one just now, this is
    // lost: no one waits for help.
    pub(crate) fn keep(&self, path: &str, error: io::Error) {
        if error.kind() == ErrorKind::Interrupted {
            return;
        }
        let Some(mut last) = self.last.try_lock() else {
            return;
        };
        if let Ok(path) = String::from_str(self.alloc, path) {
            last.push(FailedCall { path, error });
        }
    }

    // Why the last call on this path that failed did so.
    pub(crate) fn error_of(&self, path: &str) -> Option<io::Error> {
        let last = self.last.try_lock()?;
        last.error_of(path)
    }

    // The last one.
    pub(crate) fn last(&self) -> Option<FailedCall> {
        let last = self.last.try_lock()?;
        last.calls.last()?.copy()
    }

    // The last one on a folder, or on what lies in it.
    pub(crate) fn last_within(&self, folder: &str) -> Option<FailedCall> {
        let last = self.last.try_lock()?;
        last.within(folder)?.copy()
    }
}
