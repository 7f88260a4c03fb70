//! What a start on a journal shows at a terminal: how many of its commits are made again so far.

ghost use Rattle.std.specs.Thread.{IsSend};

use crate::command::OpenedServer;
use crate::end_bell::EndBell;
use crate::measured::serve_measured;
use crate::metrics::MetricsFile;
use crate::streams::Streams;
use arguments::ServeWords;
use journal_file::JournalFile;
use server_figures::LiveFigures;
use ssb_files::Fault;
use std::fmt::Display;
use std::io::{Print, Read, Write};
use std::random::RandomSource;
use std::rt::Files;
use std::sync::atomic::{AtomicBool, Ordering};
use std::sync::{Arc, Wait};
use std::thread::Threads;
use std::time::{Clock, Duration};
use std::{fmt, io, thread};

// For so many seconds a line stands, and a start shows none.
const PAUSE: u64 = 1;

// Takes the cursor to the line's beginning, and empties it to its end.
const CLEARED: &str = "\r\x1b[K";

// The line of so many commits.
#[derive(Clone, Copy)]
struct CommitsLine(u64);

impl fmt::Display for CommitsLine {
    fn fmt<W: fmt::Write>(&self, f: &mut fmt::Formatter<W>) -> fmt::Result {
        write!(f, "{CLEARED}ssb_live: journal: {} commits", self.0)
    }
}

// A screen on which the line may stand: it is cleared before anything else is written.
#[derive(Drop)]
struct CommitsScreen<'a, E: Print> {
    screen: &'a E,
    figures: Arc<LiveFigures>,
    is_shown: AtomicBool,
}

impl<'a, E: Print> CommitsScreen<'a, E> {
    fn clear(&self) {
        if self.is_shown.swap(false, Ordering::SeqCst) {
            let _ = self.screen.print(CLEARED);
        }
    }

    // Rewrites the line each second, until the server takes requests or has ended.
    fn show_until<R: Wait>(&self, rt: &R, bell: &EndBell) {
        for _ in rt.forever() {
            bell.await_for(rt, Duration::from_secs(PAUSE));
            let figures = self.figures.now();
            if figures.ready || bell.has_rung() {
                self.clear();
                return;
            }
            if figures.commits > 0 {
                self.is_shown.store(true, Ordering::SeqCst);
                let _ = self.screen.print(CommitsLine(figures.commits));
            }
        }
    }
}

impl<'a, E: Print> Print for CommitsScreen<'a, E> {
    fn print<D: Display + Drop>(&self, value: D) -> io::Result<()> {
        self.clear();
        self.screen.print(value)
    }

    fn println<D: Display + Drop>(&self, value: D) -> io::Result<()> {
        self.clear();
        self.screen.println(value)
    }

    fn write_all(&self, bytes: &[u8]) -> io::Result<()> {
        self.clear();
        self.screen.write_all(bytes)
    }

    fn write_some(&self, bytes: &[u8]) -> io::Result<usize> {
        self.clear();
        self.screen.write_some(bytes)
    }
}

/// Serves clients over tables that are loaded now. Where a person sees the errors, a thread of its own shows there how
/// many commits of the journal are made again, until the server takes requests.
pub(crate) fn serve_shown<R, F, T, I: Read + Drop + Send, W: Write + Drop + Send, E: Print + Sync>(
    rt: &R,
    files: &F,
    words: &ServeWords<'_>,
    metrics: Option<MetricsFile<'_, F>>,
    opened: OpenedServer<T>,
    streams: Streams<'_, I, W, E>,
) -> u8
where
    R: Clock + RandomSource + Threads + Sync + Wait + AllocGlobal,
    F: Files + Sync + AllocGlobal,
    F::File: JournalFile + Send,
    F::Dir: Send,
    T: Read + Drop,
{
    let has_none = words.journal.is_none() && words.store.is_none();
    if has_none || words.quiet || !streams.shows_progress {
        return serve_measured(rt, files, words, metrics, opened, streams);
    }
    let Streams {
        input,
        is_typed,
        output,
        errors,
        shows_progress,
        columns,
    } = streams;
    let Ok(figures) = Arc::try_clone(&opened.settings.figures) else {
        return Fault::OutOfMemory.tell(&mut io::writer(errors));
    };
    let screen = CommitsScreen {
        screen: errors,
        figures,
        is_shown: AtomicBool::new(false),
    };
    let bell = EndBell::new();
    let (_, status) = thread::join(
        rt,
        || screen.show_until(rt, &bell),
        || -> u8
            requires { IsSend I.row × IsSend W.row × IsSend F.File.row × IsSend F.Dir.row }
        {
            let streams = Streams {
                input,
                is_typed,
                output,
                errors: &screen,
                shows_progress,
                columns,
            };
            let status = serve_measured(rt, files, words, metrics, opened, streams);
            bell.ring();
            status
        },
    );
    status
}
