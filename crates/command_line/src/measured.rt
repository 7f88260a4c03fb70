//! A server whose figures are written while it serves.

ghost use Rattle.std.specs.Thread.{IsSend};

use crate::command::{OpenedServer, serve_loading};
use crate::end_bell::EndBell;
use crate::metrics::MetricsFile;
use crate::seconds_view::NamedSeconds;
use crate::streams::Streams;
use arguments::ServeWords;
use journal_file::JournalFile;
use ssb_files::Fault;
use std::io::{self, Print, Read, Write};
use std::random::RandomSource;
use std::rt::Files;
use std::sync::Wait;
use std::thread;
use std::thread::Threads;
use std::time::Clock;

// Serves clients over tables that are loaded now, and tells who waits for its end when it has ended.
fn serving_to_the_end<R, F, T, I: Read + Drop + Send, W: Write + Drop + Send, E: Print + Sync>(
    rt: &R,
    files: &F,
    words: &ServeWords<'_>,
    opened: OpenedServer<T>,
    streams: Streams<'_, I, W, E>,
    bell: &EndBell,
) -> u8
where
    R: Clock + RandomSource + Threads + Sync + Wait + AllocGlobal,
    F: Files + Sync + AllocGlobal,
    F::File: JournalFile + Send,
    F::Dir: Send,
    T: Read + Drop,
{
    let status = serve_loading(rt, files, words, opened, streams);
    bell.ring();
    status
}

// Serves clients over tables that are loaded now, while a thread of its own writes the figures into their file.
fn measure_serving<R, F, T, I: Read + Drop + Send, W: Write + Drop + Send, E: Print + Sync>(
    rt: &R,
    files: &F,
    words: &ServeWords<'_>,
    metrics: MetricsFile<'_, F>,
    opened: OpenedServer<T>,
    streams: Streams<'_, I, W, E>,
) -> u8
where
    R: Clock + RandomSource + Threads + Sync + Wait + AllocGlobal,
    F: Files + Sync + AllocGlobal,
    F::File: JournalFile + Send,
    F::Dir: Send,
    T: Read + Drop,
{
    let errors = streams.errors;
    let Ok(seconds) = NamedSeconds::of(rt.alloc(), words, &opened.seconds) else {
        return Fault::OutOfMemory.tell(&mut io::writer(errors));
    };
    let bell = EndBell::new();
    let (_, status) = thread::join(
        rt,
        || metrics.write_until(rt, &seconds, &bell, errors),
        || -> u8
            requires { IsSend I.row × IsSend W.row × IsSend F.File.row × IsSend F.Dir.row }
        { serving_to_the_end(rt, files, words, opened, streams, &bell) },
    );
    status
}

/// Serves clients over tables that are loaded now, and writes the figures into their file, where there is one.
pub(crate) fn serve_measured<
    R,
    F,
    T,
    I: Read + Drop + Send,
    W: Write + Drop + Send,
    E: Print + Sync,
>(
    rt: &R,
    files: &F,
    words: &ServeWords<'_>,
    metrics: Option<MetricsFile<'_, F>>,
    opened: OpenedServer<T>,
    streams: Streams<'_, I, W, E>,
) -> u8
where
    R: Clock + RandomSource + Threads + Sync + Wait + AllocGlobal,
    F: Files + Sync + AllocGlobal,
    F::File: JournalFile + Send,
    F::Dir: Send,
    T: Read + Drop,
{
    match metrics {
        Some(metrics) => measure_serving(rt, files, words, metrics, opened, streams),
        None => serve_loading(rt, files, words, opened, streams),
    }
}
