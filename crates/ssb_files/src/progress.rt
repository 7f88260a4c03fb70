//! What a long load shows on a terminal: how far it is, in one line that is rewritten, and cleared where a source ends.
//!
//! ```text
//! file ── Watched ── bytes as they are ─▶ load
//!            └─ a few times a second ─▶ terminal:  ssb_live: lineorder 312 of 594 MB, 1.2 s
//! ```
//!
//! A reader that is watched gives the same bytes as the reader in it (the contract of `Read`, and `watch`). What a
//! terminal shows is in no contract.
ghost use Rattle.std.specs.Prelude.{◌≡◌};

use ssb_text::Tables;
use std::alloc::{AllocError, Global};
use std::fs::OpenFile;
use std::io::{Print, Read};
use std::time::{Clock, Duration, Instant};
use std::{fmt, io};

// A load that ends before so many milliseconds shows nothing, and then a line stands at least so long.
const BETWEEN: u64 = 250;

// Takes the cursor to the line's beginning, and empties it to its end.
const CLEARED: &str = "\r\x1b[K";

// The bytes of a megabyte.
const MEGABYTE: u64 = 1_000_000;

/// What is read.
#[derive(Clone, Copy)]
pub enum InputSource {
    /// A table, by its name.
    Table(&'static str),
    /// By its number from 1.
    Script(u64),
    /// A trace.
    Trace,
}

impl fmt::Display for InputSource {
    fn fmt<W: fmt::Write>(&self, f: &mut fmt::Formatter<W>) -> fmt::Result {
        match self {
            InputSource::Table(name) => f.write_str(name),
            InputSource::Script(number) => write!(f, "script {number}"),
            InputSource::Trace => f.write_str("trace"),
        }
    }
}

// The line on the terminal.
#[derive(Clone, Copy)]
struct ProgressLine {
    source: InputSource,
    bytes: u64,
    // Of the whole source, where it is known.
    size: Option<u64>,
    since_start: Duration,
}

impl fmt::Display for ProgressLine {
    fn fmt<W: fmt::Write>(&self, f: &mut fmt::Formatter<W>) -> fmt::Result {
        let megabytes = self.bytes / MEGABYTE;
        write!(f, "{CLEARED}ssb_live: {} {megabytes}", self.source)?;
        if let Some(size) = self.size {
            write!(f, " of {}", size / MEGABYTE)?;
        }
        let seconds = self.since_start.as_secs();
        let tenth = self.since_start.subsec_millis() / 100;
        write!(f, " MB, {seconds}.{tenth} s")
    }
}

/// A terminal that shows progress, and when the load began.
#[derive(Drop)]
pub struct Screen<'a, C: Clock, P: Print> {
    clock: &'a C,
    terminal: &'a P,
    start: Instant,
}

impl<'a, C: Clock, P: Print> Screen<'a, C, P> {
    /// The terminal, where there is one and the clock goes. The load begins now.
    pub fn start(clock: &'a C, terminal: Option<&'a P>) -> Option<Screen<'a, C, P>> {
        let terminal = terminal?;
        let start = Instant::now(clock).ok()?;
        Some(Screen {
            clock,
            terminal,
            start,
        })
    }

    // How long ago the load began.
    fn since_start(&self) -> Option<Duration> {
        let now = Instant::now(self.clock).ok()?;
        Some(now.duration_since(self.start))
    }
}

// How far a source is read, and whether a line of it stands on the screen.
struct Progress<'a, C: Clock, P: Print> {
    screen: Option<&'a Screen<'a, C, P>>,
    source: InputSource,
    bytes: u64,
    size: Option<u64>,
    // When the line may be written again, since the load began.
    due: Duration,
    shown: bool,
}

impl<'a, C: Clock, P: Print> Progress<'a, C, P> {
    // Counts bytes that were read, and rewrites the line where it is due.
    fn count(&mut self, read: usize) {
        let Some(screen) = self.screen else {
            return;
        };
        self.bytes = self.bytes.saturating_add(read as u64);
        if let Some(since_start) = screen.since_start() {
            if since_start >= self.due {
                self.show(screen, since_start);
            }
        }
    }

    fn show(&mut self, screen: &Screen<'a, C, P>, since_start: Duration) {
        let line = ProgressLine {
            source: self.source,
            bytes: self.bytes,
            size: self.size,
            since_start,
        };
        self.due = since_start.saturating_add(Duration::from_millis(BETWEEN));
        self.shown = true;
        let _ = screen.terminal.print(line);
    }
}

impl<'a, C: Clock, P: Print> Drop for Progress<'a, C, P> {
    fn drop(self) {
        if let (Some(screen), true) = (self.screen, self.shown) {
            let _ = screen.terminal.print(CLEARED);
        }
        let Progress {
            screen: _,
            source: _,
            bytes: _,
            size: _,
            due: _,
            shown: _,
        } = self;
    }
}

/// A reader whose progress is shown, where there is a screen. It gives the bytes of the reader in it.
#[derive(Drop)]
pub struct Watched<'a, I: Drop, C: Clock, P: Print> {
    reader: I,
    progress: Progress<'a, C, P>,
}

// How many bytes a file has, where the system tells.
fn size_of<I: OpenFile>(file: &I) -> Option<u64> {
    Some(file.metadata().ok()?.len())
}

/// The file, watched.
pub fn watch<'a, I: Read + OpenFile + Drop, C: Clock, P: Print>(
    screen: Option<&'a Screen<'a, C, P>>,
    source: InputSource,
    reader: I,
) -> Watched<'a, I, C, P>
    ensures { result.reader ≡ reader }
{
    let size = match screen {
        Some(_) => size_of(&reader),
        None => None,
    };
    let progress = Progress {
        screen,
        source,
        bytes: 0,
        size,
        due: Duration::from_millis(BETWEEN),
        shown: false,
    };
    Watched { reader, progress }
}

/// The files of the five tables, each watched.
pub fn watch_tables<'a, I: Read + OpenFile + Drop, C: Clock, P: Print>(
    screen: Option<&'a Screen<'a, C, P>>,
    tables: Tables<I>,
) -> Tables<Watched<'a, I, C, P>> {
    Tables {
        customer: watch(screen, InputSource::Table("customer"), tables.customer),
        supplier: watch(screen, InputSource::Table("supplier"), tables.supplier),
        part: watch(screen, InputSource::Table("part"), tables.part),
        date: watch(screen, InputSource::Table("date"), tables.date),
        lineorder: watch(screen, InputSource::Table("lineorder"), tables.lineorder),
    }
}

/// The files of scripts, each watched, by their numbers from 1.
pub fn watch_scripts<'a, I: Read + OpenFile + Drop, C: Clock, P: Print>(
    alloc: Global,
    screen: Option<&'a Screen<'a, C, P>>,
    scripts: Vec<I>,
) -> Result<Vec<Watched<'a, I, C, P>>, AllocError> {
    let mut readers = Vec::new(alloc);
    for script in scripts {
        let source = InputSource::Script(readers.len() as u64 + 1);
        readers.push(watch(screen, source, script))?;
    }
    Ok(readers)
}

impl<'a, I: Read + Drop, C: Clock, P: Print> Read for Watched<'a, I, C, P> {
    ghost remaining = { λ w. I.remaining w.reader };

    fn read(&mut self, buf: &mut [u8]) -> io::Result<usize> {
        let count = self.reader.read(buf)?;
        self.progress.count(count);
        Ok(count)
    }
}
