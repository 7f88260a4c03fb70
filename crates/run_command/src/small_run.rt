//! The program without words: a script served over the small data set.

ghost use Rattle.std.specs.Prelude.{◌≡◌, ◌≢◌, ◌∷◌, [], IfOk, IfErr, OnOk, OnErr, MatchResult, vec_len};
ghost use Rattle.std.specs.Io.KnownBytes.{Appends};
ghost use Rattle.run_command.specs.Demo.{IsOfScript, IsReport, IsSmallReport, ServesSmall, EndsEarly};
ghost use Rattle.run_command.specs.Status.{serving_status};
ghost use Rattle.ssb_files.specs.Loaded.{AreRefused, IsLoaded};
ghost use Rattle.ssb_text.specs.Written.{AppendsPart};
ghost use Rattle.ssb_script.specs.Requests.{requests_of};
ghost use Rattle.small_data.specs.SmallTexts.{small_texts};

use crate::fault::{NotRun, RunCommandFault};
use crate::run::serve_scripts;
use small_data::tables;
use ssb_base::Base;
use ssb_files::{Fault, LoadedFor, base_of};
use ssb_script::{MOST_RECORDS, Script, read_script};
use ssb_server::Loaded;
use ssb_text::{TableFiles, write_bytes};
use std::alloc::Global;
use std::hash::RandomState;
use std::io::{Read, Write};
use std::sync::{Arc, Wait};
use std::thread::Threads;
use std::time::Clock;

// The only element of a list.
fn only<T: Drop>(mut list: Vec<T>) -> T
    requires { vec_len list ≡ 1 }
    ensures { list.items ≡ result ∷ [] }
{
    let Some(one) = list.pop() else {
        unreachable!()
    };
    one
}

// The base of the small data set.
fn small_base(rt: &(impl Threads + Sync), alloc: Global) -> Result<Base, RunCommandFault>
    ensures base { IfOk result (λ base. IsLoaded small_texts base) }
    ensures data { IfErr result (λ fault. serving_status fault ≡ 1 → AreRefused small_texts) }
{
    let tables = TableFiles::benchmark(tables());
    let base = base_of(rt, alloc, tables, LoadedFor::Reports)?;
    Ok(base)
}

// The report of a script over a base, as the only client of a live server with one dispatcher is given it.
fn report_over<R: Threads + Sync + Wait + Clock + AllocGlobal>(
    rt: &R,
    hashing: RandomState,
    base: Base,
    script: Script,
) -> Result<Vec<u8>, RunCommandFault>
    ensures report { IfOk result (λ report. IsReport base (requests_of script) report.items) }
    ensures fault { IfErr result (λ fault. serving_status fault ≡ 4) }
{
    let base = Arc::new(rt.alloc(), base)?;
    let Ok(loaded) = Loaded::new(rt, rt.alloc(), hashing, &base, &[]) else {
        return Err(RunCommandFault::Program(Fault::OutOfMemory));
    };
    let mut scripts = Vec::new(rt.alloc());
    scripts.push(script)?;
    match serve_scripts(rt, rt.alloc(), loaded, scripts, 1, false) {
        Ok(run) => Ok(only(run.reports)),
        Err(fault) => Err(RunCommandFault::Found(NotRun(fault))),
    }
}

// The report of the script that the input spells, over the small data set.
fn small_report<R: Threads + Sync + Wait + Clock + AllocGlobal, I: Read + Drop>(
    rt: &R,
    hashing: RandomState,
    input: I,
) -> Result<Vec<u8>, RunCommandFault>
    ensures report { IfOk result (λ report. IsSmallReport (I.remaining input) report.items) }
    ensures script { IfErr result (λ fault. serving_status fault ≡ 1 → IsOfScript (I.remaining input)) }
{
    let base = small_base(rt, rt.alloc())?;
    match read_script(rt.alloc(), input, MOST_RECORDS) {
        Ok(script) => report_over(rt, hashing, base, script),
        Err(fault) => Err(RunCommandFault::Program(Fault::Script(1, fault))),
    }
}

// Writes a report, and has the writer hand on what it holds.
fn print<W: Write>(out: &mut W, report: &[u8]) -> Result<(), RunCommandFault>
    ensures printed { MatchResult result
        (λ _. Appends (W.contents out.old) (W.contents out.new) report.now)
        (λ _. AppendsPart (W.contents out.old) (W.contents out.new) report.now) }
    ensures fault { IfErr result (λ fault. serving_status fault ≡ 4) }
{
    if write_bytes(out, report).is_err() {
        return Err(RunCommandFault::Program(Fault::WriteFailed));
    }
    match out.flush() {
        Ok(()) => Ok(()),
        Err(_) => Err(RunCommandFault::Program(Fault::WriteFailed)),
    }
}

// Serves the script, and writes its report.
fn tell_report<R: Threads + Sync + Wait + Clock + AllocGlobal, I: Read + Drop, W: Write>(
    rt: &R,
    hashing: RandomState,
    input: I,
    out: &mut W,
) -> Result<(), RunCommandFault>
    ensures report { OnOk result (ServesSmall (I.remaining input) (W.contents out.old) (W.contents out.new)) }
    ensures fault { OnErr result (EndsEarly (I.remaining input) (W.contents out.old) (W.contents out.new)) }
    ensures script { IfErr result (λ fault. serving_status fault ≡ 1 → IsOfScript (I.remaining input)) }
{
    let report = small_report(rt, hashing, input)?;
    print(out, report.as_slice())
}

/// Serves a script over the small data set as the one client of a live server with one dispatcher, and writes the
/// report; or a fault line to `err`. The whole script is read first, and the server hashes its keys with `hashing`. The
/// result is the exit status: 0 with nothing written to `err`, 1 where the script is refused, and else 4.
pub fn demo<R: Threads + Sync + Wait + Clock + AllocGlobal, I: Read + Drop, W: Write, E: Write>(
    rt: &R,
    hashing: RandomState,
    input: I,
    out: &mut W,
    err: &mut E,
) -> u8
    ensures report { result ≡ 0 → ServesSmall (I.remaining input) (W.contents out.old) (W.contents out.new) }
    ensures fault { result ≢ 0 → EndsEarly (I.remaining input) (W.contents out.old) (W.contents out.new) }
    ensures quiet { result ≡ 0 → err.new ≡ err.old }
    ensures script { result ≡ 1 → IsOfScript (I.remaining input) }
{
    match tell_report(rt, hashing, input, out) {
        Ok(()) => 0,
        Err(fault) => fault.tell(err),
    }
}
