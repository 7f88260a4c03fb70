//! How long a reply takes, where a person wants to see it, and how long ago it came. What a clock says is in no
//! contract.

use std::io::Write;
use std::time::{Clock, Duration, Instant};

/// A watch at a terminal, which is switched on and off by a word.
#[derive(Drop)]
pub(crate) struct ReplyWatch<'a, C: Clock> {
    clock: &'a C,
    is_on: bool,
    // When a request was handed on, whose reply is not told yet.
    since: Option<Instant>,
    // Whether a request was handed on since the last prompt.
    is_awaited: bool,
    // When the last reply had come.
    replied: Option<Instant>,
}

impl<'a, C: Clock> ReplyWatch<'a, C> {
    /// A watch that is off.
    pub(crate) fn new(clock: &'a C) -> ReplyWatch<'a, C> {
        ReplyWatch {
            clock,
            is_on: false,
            since: None,
            is_awaited: false,
            replied: None,
        }
    }

    /// Switches it on, or off, and shows which, as far as the screen takes it.
    pub(crate) fn switch<E: Write>(&mut self, screen: &mut E) {
        self.is_on = !self.is_on;
        let now = if self.is_on { "on" } else { "off" };
        let _ = writeln!(screen, "timing {now}");
    }

    /// A request is handed on. The watch begins now, if it is on.
    pub(crate) fn begin(&mut self) {
        self.is_awaited = true;
        if self.is_on {
            self.since = Instant::now(self.clock).ok();
        }
    }

    // When the reply to the last request had come: now, if it is awaited.
    fn replied_now(&mut self) {
        if self.is_awaited {
            self.is_awaited = false;
            self.replied = Instant::now(self.clock).ok();
        }
    }

    /// The reply has come. Shows how long it took, in seconds, if the watch has begun.
    pub(crate) fn show<E: Write>(&mut self, screen: &mut E) {
        self.replied_now();
        if let (Some(since), Some(replied)) = (self.since, self.replied) {
            self.since = None;
            let time = replied.duration_since(since);
            let seconds = time.as_secs();
            let micros = time.subsec_micros();
            let _ = writeln!(screen, "{seconds}.{micros:06} s");
        }
    }

    /// How long ago the last reply had come, where one has.
    pub(crate) fn since_reply(&self) -> Option<Duration> {
        let replied = self.replied?;
        let now = Instant::now(self.clock).ok()?;
        Some(now.duration_since(replied))
    }
}
