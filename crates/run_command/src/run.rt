//! A run of scripts over the live server.
ghost use Rattle.std.specs.Prelude.{◌≡◌, Some, IfOk, IfErr, OnOk, map, flat_map, vec_len};
ghost use Rattle.history.specs.Tokens.{new_clients, new_dispatchers};
ghost use Rattle.ssb_audit.specs.Legal.{IsLegalTrace};
ghost use Rattle.ssb_server.specs.Opening.{AreCounts};
ghost use Rattle.ssb_serving.specs.RunFaults.{IsRunFault};
ghost use Rattle.run_command.specs.Run.{IsMadeOf, IsRun};

use crate::latency::{Latencies, RunStopwatch, Times, joined, latencies_of};
use crate::speaker::{ScriptSession, ScriptSpeaker};
use server_figures::Figures;
use ssb_audit::{Told, Trace};
use ssb_schema::Items;
use ssb_script::Script;
use ssb_server::{Keeps, Loaded, Opened, open};
use ssb_serving::{RunFault, StreamRun, run_opened};
use std::alloc::{AllocError, Global};
use std::sync::Wait;
use std::thread::Threads;
use std::time::{Clock, Duration};

/// What a run leaves: the report of each script, in the order of the scripts, and the trace, which has the log and
/// what each client was told, one client after another. The server's figures, latencies and the time from the start of
/// the first thread to the end of the last, where times were taken, are for a reader.
#[derive(Drop)]
pub struct Run {
    pub reports: Vec<Vec<u8>>,
    pub trace: Trace,
    pub figures: Figures,
    pub latencies: Latencies,
    pub threads: Option<Duration>,
}

// What the sessions leave, in their order.
#[derive(Drop)]
struct SessionsLeft {
    reports: Vec<Vec<u8>>,
    told: Vec<Told>,
    times: Option<Times>,
}

// A speaker of each script.
fn speakers_of(
    alloc: Global,
    scripts: Vec<Script>,
    timed: bool,
) -> Result<Vec<ScriptSpeaker>, AllocError>
    ensures { IfOk result (λ speakers. map (λ speaker. speaker.script) speakers.items ≡ scripts.items) }
{
    let mut speakers = Vec::new(alloc);
    for script in scripts {
        speakers.push(ScriptSpeaker { script, timed })?;
    }
    Ok(speakers)
}

// The sessions, where each script was served whole.
fn all_whole(
    alloc: Global,
    left: Vec<Option<ScriptSession>>,
) -> Result<Vec<ScriptSession>, AllocError>
    ensures { IfOk result (λ sessions. map (λ session. Some session) sessions.items ≡ left.items) }
{
    let mut sessions = Vec::new(alloc);
    for one in left {
        match one {
            Some(session) => sessions.push(session)?,
            None => return Err(AllocError),
        }
    }
    Ok(sessions)
}

// What the sessions leave, in their order.
fn sessions_left(alloc: Global, sessions: Vec<ScriptSession>) -> Result<SessionsLeft, AllocError>
    ensures reports { IfOk result (λ left. map (λ report. report.items) left.reports.items ≡ map
        (λ session. session.report) sessions.items) }
    ensures told { IfOk result (λ left. left.told.items ≡ flat_map (λ session. session.told) sessions.items) }
{
    let mut reports = Vec::new(alloc);
    let mut told = Vec::new(alloc);
    let mut times = None;
    for session in sessions {
        let ScriptSession {
            report,
            told: mut own,
            times: taken,
        } = session;
        reports.push(report)?;
        told.append(&mut own)?;
        times = joined(times, taken);
    }
    Ok(SessionsLeft {
        reports,
        told,
        times,
    })
}

// What the clients and the closed server left, as a run of scripts whose threads took so long.
fn run_left(
    alloc: Global,
    streams: StreamRun<Option<ScriptSession>>,
    threads: Option<Duration>,
) -> Result<Run, AllocError>
    ensures { IfOk result (λ run. IsMadeOf streams.left.items streams.log
        (map (λ report. report.items) run.reports.items) run.trace) }
{
    let StreamRun { left, log, figures } = streams;
    let sessions = all_whole(alloc, left)?;
    let SessionsLeft {
        reports,
        told,
        times,
    } = sessions_left(alloc, sessions)?;
    let Some(commits) = log.into_commits() else {
        return Err(AllocError);
    };
    Ok(Run {
        reports,
        trace: Trace {
            commits: Items::from_vec(commits),
            answers: Items::from_vec(told),
        },
        figures,
        latencies: latencies_of(&times),
        threads,
    })
}

// Serves each script by the client of its place.
fn speak_scripts<W: Wait + Drop + Send, R: Wait + Threads + Sync + Clock>(
    rt: &R,
    alloc: Global,
    opened: Opened<W>,
    scripts: Vec<Script>,
    timed: bool,
) -> Result<Run, AllocError>
    requires clients { opened.clients.items ≡ new_clients opened.server }
    requires dispatchers { opened.dispatchers.items ≡ new_dispatchers opened.server }
    requires scripts { opened.server.clients ≡ vec_len scripts }
    ensures { IfOk result (λ run. IsRun opened.server.base scripts.items opened.server.dispatchers
        (map (λ report. report.items) run.reports.items) run.trace) }
{
    let speakers = speakers_of(alloc, scripts, timed)?;
    let mut watch = RunStopwatch::new(rt, timed);
    let streams = run_opened(rt, alloc, opened, speakers, &mut watch)?;
    run_left(alloc, streams, watch.time())
}

/// Serves 1 to 16 scripts by 1 to 4 dispatchers over a loaded base, each client and each dispatcher in a thread of its
/// own. It waits until all of them have ended. Where `timed` says so, the time of all threads is taken, and by each
/// client's thread that of its requests; else no client's thread reads a clock.
///
/// The dispatchers' threads start first, then the clients' in the order of the scripts, and where one can't be started,
/// no later one is. That, and a refused growth wherever it is met, is `OutOfMemory`; each thread that was started has
/// ended then, too.
pub fn serve_scripts<R: Wait + Threads + Sync + Clock>(
    rt: &R,
    alloc: Global,
    loaded: Loaded,
    scripts: Vec<Script>,
    dispatchers: u32,
    timed: bool,
) -> Result<Run, RunFault>
    ensures counts { OnOk result (AreCounts (vec_len scripts) dispatchers) }
    ensures served { IfOk result (λ run. IsRun loaded scripts.items dispatchers
        (map (λ report. report.items) run.reports.items) run.trace) }
    ensures legal { IfOk result (λ run. IsLegalTrace loaded run.trace) }
    ensures fault { IfErr result (λ fault. IsRunFault (vec_len scripts) dispatchers fault) }
{
    let count = u32::try_from(scripts.len()).unwrap_or(u32::MAX);
    match open(alloc, rt, loaded, count, dispatchers, Keeps::All) {
        Ok(opened) => Ok(speak_scripts(rt, alloc, opened, scripts, timed)?),
        Err(fault) => Err(RunFault::from(fault)),
    }
}
