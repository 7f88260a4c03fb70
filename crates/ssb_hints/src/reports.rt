//! The reports that a job writes, and what of them a person may want help with.

use std::alloc::Global;
use std::io;
use std::io::Write;
use std::sync::{Mutex, MutexGuard};

// So many refusals, and so many answers, are kept.
const MOST_KEPT: usize = 4;

// So many first bytes of a line are looked at: more than one that is kept has.
const MOST_LOOKED_AT: usize = 256;

/// A refresh that a run refused.
#[derive(Drop)]
pub(crate) struct ToldRefusal {
    /// Its client, from 1.
    pub(crate) client: usize,
    /// Which of its client's refreshes it is, from 1.
    pub(crate) refresh: usize,
    /// The number of the action, from 1.
    pub(crate) action: usize,
    /// The cause, as it is told.
    pub(crate) cause: String,
}

/// An answer without rows, or of a sum of no lines.
#[derive(Clone, Copy)]
pub(crate) struct EmptyAnswer {
    /// Its client, from 1; 0 where there is no client.
    pub(crate) client: usize,
    /// Which of its client's answers it is, from 1.
    pub(crate) answer: usize,
}

/// What was kept of reports.
#[derive(Drop)]
pub(crate) struct KeptReports {
    pub(crate) refusals: Vec<ToldRefusal>,
    pub(crate) empty: Vec<EmptyAnswer>,
    // The beginning of the line that is being written.
    line: Vec<u8>,
    client: usize,
    refreshes: usize,
    answers: usize,
    // Whether the last line was the head of an answer of one row.
    awaits_row: bool,
}

// The number of a client, where a line begins its report.
fn client_in(line: &str) -> Option<usize> {
    line.strip_prefix("client ")?.parse::<usize>().ok()
}

// How many rows an answer has, where a line is its head: `Q1.1 at 0 rows 1`.
fn rows_in(line: &str) -> Option<usize> {
    let (head, rows) = line.rsplit_once(" rows ")?;
    let (_, at) = head.rsplit_once(" at ")?;
    at.parse::<u64>().ok()?;
    rows.parse::<usize>().ok()
}

// The action and the cause, where a line tells of a refusal: `refused at 0 action 1: 47 Absent 77`.
fn refusal_in(line: &str) -> Option<(usize, &str)> {
    let (_, behind) = line.strip_prefix("refused at ")?.split_once(" action ")?;
    let (action, cause) = behind.split_once(": ")?;
    Some((action.parse::<usize>().ok()?, cause))
}

impl KeptReports {
    fn new(alloc: Global) -> KeptReports {
        KeptReports {
            refusals: Vec::new(alloc),
            empty: Vec::new(alloc),
            line: Vec::new(alloc),
            client: 0,
            refreshes: 0,
            answers: 0,
            awaits_row: false,
        }
    }

    // The last answer has no rows, or is a sum of no lines.
    fn keep_empty(&mut self) {
        if self.empty.len() < MOST_KEPT {
            let _ = self.empty.push(EmptyAnswer {
                client: self.client,
                answer: self.answers,
            });
        }
    }

    fn keep_refusal(&mut self, alloc: Global, action: usize, cause: &str) {
        if self.refusals.len() >= MOST_KEPT {
            return;
        }
        if let Ok(cause) = String::from_str(alloc, cause) {
            let _ = self.refusals.push(ToldRefusal {
                client: self.client,
                refresh: self.refreshes,
                action,
                cause,
            });
        }
    }

    // Looks at a line. Without memory nothing is kept.
    fn look_at(&mut self, alloc: Global, line: &str) {
        if self.awaits_row && line == "NULL" {
            self.keep_empty();
        }
        self.awaits_row = false;
        if let Some(client) = client_in(line) {
            self.client = client;
            self.refreshes = 0;
            self.answers = 0;
        } else if let Some(rows) = rows_in(line) {
            self.answers = self.answers.saturating_add(1);
            self.awaits_row = rows == 1;
            if rows == 0 {
                self.keep_empty();
            }
        } else if let Some((action, cause)) = refusal_in(line) {
            self.refreshes = self.refreshes.saturating_add(1);
            self.keep_refusal(alloc, action, cause);
        } else if line.starts_with("committed ") {
            self.refreshes = self.refreshes.saturating_add(1);
        }
    }

    // Goes on with the line that is being written.
    fn push(&mut self, bytes: &[u8]) {
        let room = MOST_LOOKED_AT.saturating_sub(self.line.len());
        let kept = bytes.get(..room).unwrap_or(bytes);
        if self.line.extend_from_slice(kept).is_err() {
            self.line.clear();
        }
    }

    // Looks at the line that was being written.
    fn end_line(&mut self, alloc: Global) -> Option<()> {
        let bytes = self.line.clone().ok()?;
        self.line.clear();
        let line = String::from_utf8(bytes).ok()?;
        self.look_at(alloc, line.as_str());
        Some(())
    }

    fn take(&mut self, alloc: Global, bytes: &[u8]) {
        let mut is_first = true;
        for part in bytes.split(|byte| *byte == b'\n') {
            if !is_first {
                let _ = self.end_line(alloc);
            }
            is_first = false;
            self.push(part);
        }
    }
}

/// What is kept of the reports that a job writes.
#[derive(Drop)]
pub struct Reports {
    alloc: Global,
    kept: Mutex<KeptReports>,
}

impl Reports {
    /// None yet.
    pub fn new(alloc: Global) -> Reports {
        Reports {
            alloc,
            kept: Mutex::new(KeptReports::new(alloc)),
        }
    }

    /// What was kept, where no thread adds to it just now.
    pub(crate) fn kept(&self) -> Option<MutexGuard<'_, KeptReports>> {
        self.kept.try_lock()
    }

    fn take(&self, bytes: &[u8]) {
        if let Some(mut kept) = self.kept.try_lock() {
            kept.take(self.alloc, bytes);
        }
    }
}

/// An output that gets what is written, byte by byte, and of which the reports are kept, where that is wanted.
#[derive(Drop)]
pub struct ReportedOutput<'a, W: Write + Drop> {
    inner: W,
    reports: Option<&'a Reports>,
}

impl<'a, W: Write + Drop> ReportedOutput<'a, W> {
    /// Over this output.
    pub fn new(inner: W, reports: Option<&'a Reports>) -> ReportedOutput<'a, W> {
        ReportedOutput { inner, reports }
    }
}

impl<'a, W: Write + Drop> Write for ReportedOutput<'a, W> {
    ghost contents = { λ output. W.contents output.inner };

    fn write(&mut self, buf: &[u8]) -> io::Result<usize> {
        let count = self.inner.write(buf)?;
        if let Some(reports) = self.reports {
            reports.take(&buf[..count]);
        }
        Ok(count)
    }

    fn flush(&mut self) -> io::Result<()> {
        self.inner.flush()
    }
}
