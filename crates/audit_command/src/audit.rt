//! `audit`: whether a trace is legal over a base.

ghost use Rattle.std.specs.Prelude.{◌≡◌, ◌≢◌, ◌⊎◌, ℕ, List, Some, IfOk, IfErr, OnOk, OnErr, MatchResult};
ghost use Rattle.std.specs.Io.KnownBytes.{Appends};
ghost use Rattle.ssb_audit.specs.Legal.{IsLegalTrace};
ghost use Rattle.audit_command.specs.Audited.{Audits, AuditsPart, HasFault, IsLegalOver, IsRefusedTrace};
ghost use Rattle.audit_command.specs.Audited.{SpeaksAgainst, verdict_text};
ghost use Rattle.base_source.specs.Over.{IsOver};
ghost use Rattle.audit_command.specs.Status.{auditing_status};
ghost use Rattle.ssb_script.specs.Scripts.{most_records};
ghost use Rattle.ssb_text.specs.Written.{AppendsPart};
ghost use Rattle.ssb_trace.specs.Traces.{SpellsTrace};

use crate::fault::{Against, AuditingFault};
use base_source::BaseSource;
use ssb_audit::{Trace, audit};
use ssb_base::Base;
use ssb_files::Fault;
use ssb_script::MOST_RECORDS;
use ssb_text::{Piece, write_pieces};
use ssb_trace::read_trace;
use std::alloc::Global;
use std::hash::RandomState;
use std::io::{Read, Write};
use std::sync::Arc;
use std::thread::Threads;

// The trace that the bytes spell.
fn trace_of<I: Read + Drop>(alloc: Global, source: I) -> Result<Trace, AuditingFault>
    ensures trace { IfOk result (λ trace. (bytes : List ℕ) → I.remaining source ≡ Some bytes
        → SpellsTrace most_records bytes trace) }
    ensures refused { IfErr result (λ fault. auditing_status fault ≡ 1 → (bytes : List ℕ)
        → I.remaining source ≡ Some bytes
        → IsRefusedTrace bytes) }
    ensures words { IfErr result (λ fault. auditing_status fault ≢ 2) }
    ensures early { IfErr result (λ fault. auditing_status fault ≢ 3) }
{
    match read_trace(alloc, source, MOST_RECORDS) {
        Ok(trace) => Ok(trace),
        Err(fault) => Err(AuditingFault::Program(Fault::Trace(fault))),
    }
}

// Checks a trace over a base.
fn check<R: Threads + Sync + AllocGlobal>(
    rt: &R,
    hashing: RandomState,
    base: Base,
    trace: &Trace,
) -> Result<(), AuditingFault>
    ensures legal { OnOk result (IsLegalTrace base trace.now) }
    ensures against { IfErr result (λ fault. auditing_status fault ≡ 3 → HasFault base trace.now) }
    ensures refused { IfErr result (λ fault. auditing_status fault ≢ 1) }
    ensures words { IfErr result (λ fault. auditing_status fault ≢ 2) }
{
    let base = Arc::new(rt.alloc(), base)?;
    match audit(rt, rt.alloc(), base, hashing, trace) {
        Ok(()) => Ok(()),
        Err(fault) => Err(AuditingFault::Found(Against(fault))),
    }
}

// The trace that the bytes spell, where it is legal over the base.
fn legal_trace<R: Threads + Sync + AllocGlobal, I: Read + Drop>(
    rt: &R,
    hashing: RandomState,
    base: Base,
    source: I,
) -> Result<Trace, AuditingFault>
    ensures legal { IfOk result (λ trace. (bytes : List ℕ) → I.remaining source ≡ Some bytes
        → IsLegalOver base bytes trace) }
    ensures refused { IfErr result (λ fault. auditing_status fault ≡ 1 → (bytes : List ℕ)
        → I.remaining source ≡ Some bytes
        → IsRefusedTrace bytes) }
    ensures against { IfErr result (λ fault. auditing_status fault ≡ 3 → (bytes : List ℕ)
        → I.remaining source ≡ Some bytes
        → SpeaksAgainst base bytes) }
    ensures words { IfErr result (λ fault. auditing_status fault ≢ 2) }
{
    let trace = trace_of(rt.alloc(), source)?;
    check(rt, hashing, base, &trace)?;
    Ok(trace)
}

// Writes the numbers of commits and answers, and has the writer hand on what it holds.
fn write_verdict<W: Write>(out: &mut W, trace: &Trace) -> Result<(), AuditingFault>
    ensures written { MatchResult result
        (λ _. Appends (W.contents out.old) (W.contents out.new) (verdict_text trace.now))
        (λ _. AppendsPart (W.contents out.old) (W.contents out.new) (verdict_text trace.now)) }
    ensures fault { IfErr result (λ fault. auditing_status fault ≡ 4) }
{
    let line = [
        Piece::Text("ok "),
        Piece::Number(trace.commits.as_slice().len() as u64),
        Piece::Text(" "),
        Piece::Number(trace.answers.as_slice().len() as u64),
        Piece::Text("\n"),
    ];
    if write_pieces(out, &line).is_err() {
        return Err(AuditingFault::Program(Fault::WriteFailed));
    }
    match out.flush() {
        Ok(()) => Ok(()),
        Err(_) => Err(AuditingFault::Program(Fault::WriteFailed)),
    }
}

// Writes the verdict on a trace.
fn report<R: Threads + Sync + AllocGlobal, I: Read + Drop, W: Write>(
    rt: &R,
    hashing: RandomState,
    base: Base,
    source: I,
    out: &mut W,
) -> Result<(), AuditingFault>
    ensures legal { OnOk result ((bytes : List ℕ) → I.remaining source ≡ Some bytes
        → Audits base bytes (W.contents out.old) (W.contents out.new)) }
    ensures part { OnErr result ((W.contents out.new ≡ W.contents out.old)
        ⊎ ((bytes : List ℕ) → I.remaining source ≡ Some bytes
        → AuditsPart base bytes (W.contents out.old) (W.contents out.new))) }
    ensures refused { IfErr result (λ fault. auditing_status fault ≡ 1 → (bytes : List ℕ)
        → I.remaining source ≡ Some bytes
        → IsRefusedTrace bytes) }
    ensures against { IfErr result (λ fault. auditing_status fault ≡ 3 → (bytes : List ℕ)
        → I.remaining source ≡ Some bytes
        → SpeaksAgainst base bytes) }
    ensures words { IfErr result (λ fault. auditing_status fault ≢ 2) }
{
    let trace = legal_trace(rt, hashing, base, source)?;
    write_verdict(out, &trace)
}

/// Checks the trace that `trace` spells over the base that `tables` holds, and writes the line `ok C A`, the numbers of
/// its commits and of its answers; or a fault line to `err`. The base is loaded first. The trace counts its own commits,
/// from 0, however many commits led to the base. The result is the exit status: 0 where the trace is legal, 1 where what
/// `tables` holds is refused or the trace cannot be understood, 3 where something speaks against the trace, and else 4.
pub fn run_audit<
    R: Threads + Sync + AllocGlobal,
    S: BaseSource,
    I: Read + Drop,
    W: Write,
    E: Write,
>(rt: &R, hashing: RandomState, tables: S, trace: I, out: &mut W, err: &mut E) -> u8
    ensures legal { result ≡ 0 → IsOver (S.holds tables) (λ base _. (bytes : List ℕ) → I.remaining trace ≡ Some bytes
        → Audits base bytes (W.contents out.old) (W.contents out.new)) }
    ensures part { result ≢ 0 → (W.contents out.new ≡ W.contents out.old)
        ⊎ IsOver (S.holds tables) (λ base _. (bytes : List ℕ) → I.remaining trace ≡ Some bytes
        → AuditsPart base bytes (W.contents out.old) (W.contents out.new)) }
    ensures quiet { result ≡ 0 → err.new ≡ err.old }
    ensures refused { result ≡ 1 → S.is_refused tables
        ⊎ ((bytes : List ℕ) → I.remaining trace ≡ Some bytes → IsRefusedTrace bytes) }
    ensures against { result ≡ 3 → IsOver (S.holds tables) (λ base _. (bytes : List ℕ)
        → I.remaining trace ≡ Some bytes
        → SpeaksAgainst base bytes) }
    ensures words { result ≢ 2 }
{
    let base = match tables.load(rt, err) {
        Ok(sourced) => sourced.base,
        Err(status) => return status,
    };
    match report(rt, hashing, base, trace, out) {
        Ok(()) => 0,
        Err(fault) => fault.tell(err),
    }
}
