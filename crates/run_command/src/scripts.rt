//! `run`: scripts served at once over a base.

ghost use Rattle.std.specs.Prelude.{◌≡◌, ◌≢◌, ◌⊎◌, ◌↔◌, ◌<◌, ◌≤◌, false, IfOk, IfErr, OnOk};
ghost use Rattle.std.specs.Prelude.{OnErr, MatchResult, map, vec_len};
ghost use Rattle.std.specs.Io.KnownBytes.{Appends};
ghost use Rattle.std.specs.Option.{option_and_then};
ghost use Rattle.ssb_files.specs.Scripts.{HasRefused};
ghost use Rattle.ssb_files.specs.Standing.{MayHaveTooManyGroups};
ghost use Rattle.ssb_files.specs.Status.{status_of};
ghost use Rattle.ssb_audit.specs.Legal.{IsLegalTrace};
ghost use Rattle.base_source.specs.Over.{IsOver};
ghost use Rattle.run_command.specs.Served.{AreTold, AreToldInPart, IsServed, Serves, ServesPart, run_text};
ghost use Rattle.run_command.specs.Status.{serving_status};
ghost use Rattle.ssb_text.specs.Written.{AppendsPart};
ghost use Rattle.run_command.specs.Run.{IsRun};
ghost use Rattle.history_core.specs.Counts.{most_clients};
ghost use Rattle.ssb_trace.specs.TraceText.{trace_text};

use crate::fault::{NotRun, RunCommandFault};
use crate::printing::write_run;
use crate::run::{Run, serve_scripts};
use crate::times::RunTimes;
use base_source::BaseSource;
use ssb_base::Base;
use ssb_files::{Fault, read_scripts};
use ssb_questions::Question;
use ssb_script::Script;
use ssb_server::{Loaded, MOST_CLIENTS};
use ssb_trace::write_trace;
use std::hash::RandomState;
use std::io::{Read, Write};
use std::sync::{Arc, Wait};
use std::thread::Threads;
use std::time::Clock;

/// How many scripts a server takes, a client each: as many as it has clients at most.
pub const MOST_SCRIPTS: usize = MOST_CLIENTS as usize;

/// How scripts are served, whichever they are.
#[derive(Drop)]
pub struct RunSettings {
    /// Hashes the keys of the server's orders; at random, so that no client can make them collide.
    pub hashing: RandomState,
    /// 1 to 4, else no server is opened.
    pub dispatchers: u32,
    /// The questions that stand: their totals follow the commits. Which they are changes no report.
    pub standing: Vec<Question>,
    /// Whether the times are told on standard error.
    pub times: bool,
}

/// What is served: the tables, as a source of a base or as the base itself, and the script of each client.
#[derive(Drop)]
pub struct RunInput<S: Drop, I: Read + Drop> {
    pub tables: S,
    pub sources: Vec<I>,
}

// A base with these questions, which stand from then on. The first of them that may have too many groups is refused.
fn load<R: Threads + Sync + AllocGlobal>(
    rt: &R,
    hashing: RandomState,
    base: Base,
    standing: &[Question],
) -> Result<Loaded, Fault>
    ensures base { IfOk result (λ loaded. loaded ≡ base) }
    ensures refused { IfErr result (λ fault. status_of fault ≡ 1 → MayHaveTooManyGroups base standing.now) }
    ensures words { IfErr result (λ fault. status_of fault ≢ 2) }
    ensures trace { IfErr result (λ fault. status_of fault ≢ 3) }
{
    let base = Arc::new(rt.alloc(), base)?;
    let loaded = Loaded::new(rt, rt.alloc(), hashing, &base, standing)?;
    Ok(loaded)
}

// Serves scripts at once over a loaded base.
fn run_over<R: Threads + Sync + Wait + Clock + AllocGlobal>(
    rt: &R,
    dispatchers: u32,
    timed: bool,
    loaded: Loaded,
    scripts: Vec<Script>,
) -> Result<Run, RunCommandFault>
    ensures run { IfOk result (λ run. IsRun loaded scripts.items dispatchers
        (map (λ report. report.items) run.reports.items) run.trace) }
    ensures legal { IfOk result (λ run. IsLegalTrace loaded run.trace) }
    ensures fault { IfErr result (λ fault. serving_status fault ≡ 4) }
{
    match serve_scripts(rt, rt.alloc(), loaded, scripts, dispatchers, timed) {
        Ok(run) => Ok(run),
        Err(fault) => Err(RunCommandFault::Found(NotRun(fault))),
    }
}

// The run of the scripts that the sources spell, over the base. All of them are read before the server is opened.
fn run_of<R: Threads + Sync + Wait + Clock + AllocGlobal, I: Read + Drop>(
    rt: &R,
    settings: RunSettings,
    input: RunInput<Base, I>,
    pace: &mut RunTimes,
) -> Result<Run, RunCommandFault>
    ensures run { IfOk result (λ run. IsServed input.tables (map I.remaining input.sources.items) settings.dispatchers
        (map (λ report. report.items) run.reports.items) run.trace) }
    ensures refused { IfErr result (λ fault. serving_status fault ≡ 1
        → HasRefused (map I.remaining input.sources.items)
        ⊎ MayHaveTooManyGroups input.tables settings.standing.items) }
    ensures words { IfErr result (λ fault. serving_status fault ≢ 2) }
    ensures trace { IfErr result (λ fault. serving_status fault ≢ 3) }
{
    let RunInput { tables, sources } = input;
    let scripts = read_scripts(rt.alloc(), sources)?;
    pace.end_load(rt);
    let RunSettings {
        hashing,
        dispatchers,
        standing,
        times,
    } = settings;
    let loaded = load(rt, hashing, tables, &standing)?;
    let run = run_over(rt, dispatchers, times, loaded, scripts)?;
    pace.end_serving(rt, &run, !standing.is_empty());
    Ok(run)
}

// Writes what a run prints, and has the writer hand on what it holds.
fn print<W: Write>(out: &mut W, run: &Run) -> Result<(), RunCommandFault>
    ensures printed { MatchResult result
        (λ _. Appends (W.contents out.old) (W.contents out.new)
        (run_text (map (λ report. report.items) run.now.reports.items) run.now.trace))
        (λ _. AppendsPart (W.contents out.old) (W.contents out.new)
        (run_text (map (λ report. report.items) run.now.reports.items) run.now.trace)) }
    ensures fault { IfErr result (λ fault. serving_status fault ≡ 4) }
{
    if write_run(out, run).is_err() {
        return Err(RunCommandFault::Program(Fault::WriteFailed));
    }
    match out.flush() {
        Ok(()) => Ok(()),
        Err(_) => Err(RunCommandFault::Program(Fault::WriteFailed)),
    }
}

// Writes the trace of a run, and has the writer hand on what it holds.
fn write<T: Write>(file: &mut T, run: &Run) -> Result<(), RunCommandFault>
    ensures kept { MatchResult result
        (λ _. Appends (T.contents file.old) (T.contents file.new) (trace_text run.now.trace))
        (λ _. AppendsPart (T.contents file.old) (T.contents file.new) (trace_text run.now.trace)) }
    ensures fault { IfErr result (λ fault. serving_status fault ≡ 4) }
{
    if write_trace(file, &run.trace).is_err() {
        return Err(RunCommandFault::Program(Fault::WriteFailed));
    }
    match file.flush() {
        Ok(()) => Ok(()),
        Err(_) => Err(RunCommandFault::Program(Fault::WriteFailed)),
    }
}

// Keeps the trace of a run, where there is a file for it.
fn keep<T: Write>(file: &mut Option<T>, run: &Run) -> Result<(), RunCommandFault>
    ensures kept { MatchResult result
        (λ _. Appends (option_and_then T.contents file.old) (option_and_then T.contents file.new)
        (trace_text run.now.trace))
        (λ _. AppendsPart (option_and_then T.contents file.old) (option_and_then T.contents file.new)
        (trace_text run.now.trace)) }
    ensures fault { IfErr result (λ fault. serving_status fault ≡ 4) }
{
    match file {
        Some(file) => write(file, run),
        None => Ok(()),
    }
}

// Writes what a run prints, and then its trace.
fn tell_run<W: Write, T: Write>(
    out: &mut W,
    file: &mut Option<T>,
    run: &Run,
) -> Result<(), RunCommandFault>
    ensures told { OnOk result (AreTold (W.contents out.old) (W.contents out.new)
        (option_and_then T.contents file.old) (option_and_then T.contents file.new)
        (map (λ report. report.items) run.now.reports.items) run.now.trace) }
    ensures part { OnErr result (AreToldInPart (W.contents out.old) (W.contents out.new)
        (option_and_then T.contents file.old) (option_and_then T.contents file.new)
        (map (λ report. report.items) run.now.reports.items) run.now.trace) }
    ensures fault { IfErr result (λ fault. serving_status fault ≡ 4) }
{
    print(out, run)?;
    keep(file, run)
}

// Serves the scripts, and writes what the run prints and its trace.
fn report<R: Threads + Sync + Wait + Clock + AllocGlobal, I: Read + Drop, W: Write, T: Write>(
    rt: &R,
    settings: RunSettings,
    input: RunInput<Base, I>,
    out: &mut W,
    file: &mut Option<T>,
    pace: &mut RunTimes,
) -> Result<(), RunCommandFault>
    ensures served { OnOk result (Serves input.tables (map I.remaining input.sources.items) settings.dispatchers
        (W.contents out.old) (W.contents out.new)
        (option_and_then T.contents file.old) (option_and_then T.contents file.new)) }
    ensures part { OnErr result (((W.contents out.new ≡ W.contents out.old) × (file.new ≡ file.old))
        ⊎ ServesPart input.tables (map I.remaining input.sources.items) settings.dispatchers
        (W.contents out.old) (W.contents out.new)
        (option_and_then T.contents file.old) (option_and_then T.contents file.new)) }
    ensures refused { IfErr result (λ fault. serving_status fault ≡ 1
        → HasRefused (map I.remaining input.sources.items)
        ⊎ MayHaveTooManyGroups input.tables settings.standing.items) }
    ensures words { IfErr result (λ fault. serving_status fault ≢ 2) }
    ensures trace { IfErr result (λ fault. serving_status fault ≢ 3) }
{
    let run = run_of(rt, settings, input, pace)?;
    tell_run(out, file, &run)
}

// Tells the times where they are asked for.
fn tell_times<E: Write>(pace: &RunTimes, times: bool, err: &mut E)
    ensures { times ≡ false → err.new ≡ err.old }
{
    if !times {
        return;
    }
    pace.tell(err);
}

/// Serves 1 to 16 scripts at once over the base that the tables hold: each source is the script of a client of the live
/// server. When all have ended it writes for each client, in order, the line `client K` and its report, and then the
/// line `commits C`; and into the file, where there is one, the trace of the run. The run counts its own commits, from
/// 0, however many commits led to the base. A fault is a line to `err`.
///
/// The base is loaded first, then the scripts are read in order, then the questions that stand get their totals, and
/// then the server is opened. The result is the exit status: 0 with nothing written to `err` but the times, where they
/// are asked for; 1 where what the tables hold, a script or a question that is to stand is refused, 2 where there are
/// more than 16 scripts, and else 4. Where `out` or the file fails, what was written before stands.
pub fn run_scripts<
    R: Threads + Sync + Wait + Clock + AllocGlobal,
    S: BaseSource + Drop,
    I: Read + Drop,
    W: Write,
    T: Write,
    E: Write,
>(
    rt: &R,
    settings: RunSettings,
    input: RunInput<S, I>,
    out: &mut W,
    file: &mut Option<T>,
    err: &mut E,
) -> u8
    ensures served { result ≡ 0 → IsOver (S.holds input.tables) (λ base _. Serves base
        (map I.remaining input.sources.items) settings.dispatchers (W.contents out.old) (W.contents out.new)
        (option_and_then T.contents file.old) (option_and_then T.contents file.new)) }
    ensures part { result ≢ 0 → ((W.contents out.new ≡ W.contents out.old) × (file.new ≡ file.old))
        ⊎ IsOver (S.holds input.tables) (λ base _. ServesPart base
        (map I.remaining input.sources.items) settings.dispatchers (W.contents out.old) (W.contents out.new)
        (option_and_then T.contents file.old) (option_and_then T.contents file.new)) }
    ensures quiet { result ≡ 0 → settings.times ≡ false → err.new ≡ err.old }
    ensures refused { result ≡ 1 → S.is_refused input.tables
        ⊎ HasRefused (map I.remaining input.sources.items)
        ⊎ IsOver (S.holds input.tables) (λ base _. MayHaveTooManyGroups base settings.standing.items) }
    ensures many { (result ≡ 2) ↔ (most_clients < vec_len input.sources) }
    ensures trace { result ≢ 3 }
{
    let RunInput { tables, sources } = input;
    if sources.len() > MOST_SCRIPTS {
        return Fault::TooManyScripts.tell(err);
    }
    let times = settings.times;
    let mut pace = RunTimes::start(rt, times);
    let base = match tables.load(rt, err) {
        Ok(sourced) => sourced.base,
        Err(status) => return status,
    };
    let input = RunInput {
        tables: base,
        sources,
    };
    match report(rt, settings, input, out, file, &mut pace) {
        Ok(()) => {
            tell_times(&pace, times, err);
            0
        }
        Err(fault) => fault.tell(err),
    }
}
