//! A server whose clients are told of commits that second servers have too.

ghost use Rattle.std.specs.Thread.{IsSend};

use crate::command::OpenedServer;
use crate::commits_screen::serve_shown;
use crate::end_bell::EndBell;
use crate::metrics::MetricsFile;
use crate::streams::Streams;
use arguments::ServeWords;
use confirmed_commits::{Awaited, Seconds, listen};
use journal_file::JournalFile;
use ssb_files::Fault;
use std::fs::OpenOptions;
use std::io::{self, Print, Read, Write};
use std::os::unix::fs::FileTypeExt;
use std::random::RandomSource;
use std::rt::Files;
use std::sync::{Arc, Wait};
use std::thread::{Threads, map_indices};
use std::time::{Clock, Duration};
use std::{fs, thread};

// So many seconds a client waits for a second server before that is told.
const PAUSE: u64 = 1;

// Hears what the second server at this place tells. The opening of a named pipe waits until somebody opens its other end.
fn hear_one<R: Wait + Clock + AllocGlobal, F: Files, E: Print>(
    rt: &R,
    files: &F,
    words: &ServeWords<'_>,
    place: usize,
    seconds: &Seconds,
    errors: &E,
) {
    let Some(path) = words.confirmed.get(place) else {
        return;
    };
    match fs::open(files, path) {
        Ok(mut input) => {
            listen(rt, rt.alloc(), &mut input, place, seconds);
            input.drop();
        },
        Err(_) => {
            let _ = writeln!(
                io::writer(errors),
                "ssb_live: confirmed: cannot read {path}"
            );
        },
    }
}

// Tells that clients wait for this one.
fn tell_one<E: Print>(words: &ServeWords<'_>, awaited: Awaited, errors: &E) {
    if let Some(path) = words.confirmed.get(awaited.place) {
        let commits = awaited.commits;
        let _ = writeln!(
            io::writer(errors),
            "ssb_live: clients wait for {path}: {commits} commits are not confirmed"
        );
    }
}

// Tells which second server clients wait for, where they wait for it a second and longer: once, until they wait for none
// or for another one.
fn tell_awaited<R: Wait, E: Print>(
    rt: &R,
    words: &ServeWords<'_>,
    seconds: &Seconds,
    bell: &EndBell,
    errors: &E,
) {
    let mut before: Option<Awaited> = None;
    let mut is_told = false;
    for _ in rt.forever() {
        bell.await_for(rt, Duration::from_secs(PAUSE));
        if bell.has_rung() {
            return;
        }
        let now = seconds.awaited(rt);
        match (before, now) {
            (Some(earlier), Some(awaited)) if earlier.place == awaited.place => {
                if !is_told && !words.quiet {
                    tell_one(words, awaited, errors);
                }
                is_told = true;
            }
            _ => is_told = false,
        }
        before = now;
    }
}

// A pipe on which a thread may wait, opened both ways, so that its opening returns, and a read finds a line.
fn wake<F: Files>(files: &F, path: &str) -> Option<F::File> {
    if !fs::metadata(files, path).ok()?.file_type().is_fifo() {
        return None;
    }
    let mut pipe = OpenOptions::new()
        .read(true)
        .write(true)
        .open(files, path)
        .ok()?;
    let _ = pipe.write_all(b"\n");
    Some(pipe)
}

// The pipes of all that are heard, woken, once the server has ended. They stay open until the threads have ended that hear
// them.
fn wake_all<F: Files + AllocGlobal>(files: &F, words: &ServeWords<'_>) -> Vec<F::File> {
    let mut woken = Vec::new(files.alloc());
    for path in &words.confirmed {
        if let Some(pipe) = wake(files, path) {
            let _ = woken.push(pipe);
        }
    }
    woken
}

// Hears each second server in a thread of its own, and in another one tells whom clients wait for.
fn hear_all<R, F, E: Print + Sync>(
    rt: &R,
    files: &F,
    words: &ServeWords<'_>,
    seconds: &Seconds,
    bell: &EndBell,
    errors: &E,
)
where
    R: Clock + Threads + Sync + Wait + AllocGlobal,
    F: Files + Sync,
    F::File: Send,
    F::Dir: Send,
{
    let count = words.confirmed.len();
    let _ = map_indices(
        rt,
        rt.alloc(),
        count + 1,
        &|place: usize| {
            if place < count {
                hear_one(rt, files, words, place, seconds, errors);
            } else {
                tell_awaited(rt, words, seconds, bell, errors);
            }
        },
    );
}

// Serves clients, who are told of commits once all second servers have told of these.
fn serve_seconded<R, F, T, I: Read + Drop + Send, W: Write + Drop + Send, E: Print + Sync>(
    rt: &R,
    files: &F,
    words: &ServeWords<'_>,
    metrics: Option<MetricsFile<'_, F>>,
    opened: OpenedServer<T>,
    streams: Streams<'_, I, W, E>,
) -> u8
where
    R: Clock + RandomSource + Threads + Sync + Wait + AllocGlobal,
    F: Files + Sync + AllocGlobal,
    F::File: JournalFile + Send,
    F::Dir: Send,
    T: Read + Drop,
{
    let errors = streams.errors;
    let Ok(seconds) = Arc::try_clone(&opened.seconds) else {
        return Fault::OutOfMemory.tell(&mut io::writer(errors));
    };
    let bell = EndBell::new();
    let (_, (status, woken)) = thread::join(
        rt,
        || hear_all(rt, files, words, &seconds, &bell, errors),
        || -> (u8, Vec<F::File>)
            requires { IsSend I.row × IsSend W.row × IsSend F.File.row × IsSend F.Dir.row }
        {
            let status = serve_shown(rt, files, words, metrics, opened, streams);
            seconds.end();
            bell.ring();
            (status, wake_all(files, words))
        },
    );
    drop(woken);
    status
}

/// Serves clients over tables that are loaded now. Where the words name what second servers tell, clients are told of
/// commits once all of these have told of them.
pub(crate) fn serve_confirmed<
    R,
    F,
    T,
    I: Read + Drop + Send,
    W: Write + Drop + Send,
    E: Print + Sync,
>(
    rt: &R,
    files: &F,
    words: &ServeWords<'_>,
    metrics: Option<MetricsFile<'_, F>>,
    opened: OpenedServer<T>,
    streams: Streams<'_, I, W, E>,
) -> u8
where
    R: Clock + RandomSource + Threads + Sync + Wait + AllocGlobal,
    F: Files + Sync + AllocGlobal,
    F::File: JournalFile + Send,
    F::Dir: Send,
    T: Read + Drop,
{
    if words.confirmed.is_empty() {
        return serve_shown(rt, files, words, metrics, opened, streams);
    }
    serve_seconded(rt, files, words, metrics, opened, streams)
}
