//! `query --explain`: a question in words, or as one statement of SQL, for which no base is loaded; or in words over
//! the base of a source, with how much it is about.

ghost use Rattle.std.specs.Prelude.{◌≡◌, ◌≢◌, ◌⊎◌, IfOk, IfErr, MatchResult, map};
ghost use Rattle.std.specs.Io.KnownBytes.{Appends};
ghost use Rattle.std.specs.String.{string_bytes};
ghost use Rattle.base_source.specs.Over.{IsOver};
ghost use Rattle.query_command.specs.Asked.{AskNothing};
ghost use Rattle.query_command.specs.Explained.{Explains, ExplainsPart, explained_text};
ghost use Rattle.query_command.specs.Explained.{ExplainsOver, ExplainsOverPart, sized_text};
ghost use Rattle.ssb_files.specs.Status.{status_of};
ghost use Rattle.ssb_text.specs.Written.{AppendsPart};

use crate::asked::ask;
use crate::sizes::sizes;
use base_source::BaseSource;
use ssb_base::Base;
use ssb_explain::{SqlTarget, explanation, sql_statement};
use ssb_files::Fault;
use ssb_questions::{Question, question};
use ssb_text::write_bytes;
use std::alloc::{AllocError, Global};
use std::io::Write;
use std::thread::Threads;

// The text that explains a question.
fn explained(
    alloc: Global,
    sql: Option<SqlTarget>,
    question: &Question,
) -> Result<String, AllocError>
    ensures { IfOk result (λ text. string_bytes text ≡ explained_text sql question.now) }
{
    match sql {
        Some(target) => sql_statement(alloc, target, question),
        None => explanation(alloc, question),
    }
}

// Writes a text, and has the writer hand on what it holds.
fn write_text<W: Write>(out: &mut W, text: &str) -> Result<(), Fault>
    ensures written { MatchResult result
        (λ _. Appends (W.contents out.old) (W.contents out.new) text.now)
        (λ _. AppendsPart (W.contents out.old) (W.contents out.new) text.now) }
    ensures fault { IfErr result (λ fault. status_of fault ≡ 4) }
{
    if write_bytes(out, text.as_bytes()).is_err() {
        return Err(Fault::WriteFailed);
    }
    match out.flush() {
        Ok(()) => Ok(()),
        Err(_) => Err(Fault::WriteFailed),
    }
}

/// Writes what explains the question of this name and these constants (without constants, the benchmark's): in words, or
/// as one statement of a system's SQL; or a fault line to `err`. The result is the exit status: 0 with nothing written to
/// `err`, 2 where the question is refused, and else 4.
pub fn run_explain<W: Write, E: Write>(
    alloc: Global,
    name: &str,
    constants: &[&str],
    sql: Option<SqlTarget>,
    out: &mut W,
    err: &mut E,
) -> u8
    ensures explained { result ≡ 0
        → Explains name.now (map (λ word. word.now) constants.now) sql (W.contents out.old) (W.contents out.new) }
    ensures fault { result ≢ 0 → (W.contents out.new ≡ W.contents out.old)
        ⊎ ExplainsPart name.now (map (λ word. word.now) constants.now) sql (W.contents out.old) (W.contents out.new) }
    ensures quiet { result ≡ 0 → err.new ≡ err.old }
    ensures data { result ≢ 1 }
    ensures words { result ≡ 2 → AskNothing name.now (map (λ word. word.now) constants.now) }
{
    let question = match ask(alloc, name, constants) {
        Ok(question) => question,
        Err(fault) => return fault.tell(err),
    };
    let text = match explained(alloc, sql, &question) {
        Ok(text) => text,
        Err(_) => return Fault::OutOfMemory.tell(err),
    };
    match write_text(out, text.as_str()) {
        Ok(()) => 0,
        Err(fault) => fault.tell(err),
    }
}

// A question in words, and how much it is about over a base.
fn sized(alloc: Global, base: &Base, question: &Question) -> Result<String, AllocError>
    ensures { IfOk result (λ text. string_bytes text ≡ sized_text question.now base.now.dimensions) }
{
    let plan = question::plan(alloc, question)?;
    let words = explanation(alloc, question)?;
    let sizes = sizes(alloc, base, &plan)?;
    [words.as_str(), sizes.as_str()].concat(alloc)
}

/// Writes what explains the question of this name and these constants in words, and then how many rows of each
/// dimension its tests take, and how many groups there can be, over the base of a source; or a fault line to `err`. The
/// question is looked at first. The result is the exit status: 0 with nothing written to `err`, 1 where what the source
/// holds is refused, 2 where the question is, and else 4.
pub fn run_explain_over<R: Threads + Sync + AllocGlobal, S: BaseSource + Drop, W: Write, E: Write>(
    rt: &R,
    source: S,
    name: &str,
    constants: &[&str],
    out: &mut W,
    err: &mut E,
) -> u8
    ensures explained { result ≡ 0 → IsOver (S.holds source) (λ base after. ExplainsOver base name.now
        (map (λ word. word.now) constants.now) (W.contents out.old) (W.contents out.new)) }
    ensures fault { result ≢ 0 → (W.contents out.new ≡ W.contents out.old)
        ⊎ IsOver (S.holds source) (λ base after. ExplainsOverPart base name.now
        (map (λ word. word.now) constants.now) (W.contents out.old) (W.contents out.new)) }
    ensures quiet { result ≡ 0 → err.new ≡ err.old }
    ensures data { result ≡ 1 → S.is_refused source }
    ensures words { result ≡ 2 → AskNothing name.now (map (λ word. word.now) constants.now) }
{
    let question = match ask(rt.alloc(), name, constants) {
        Ok(question) => question,
        Err(fault) => return fault.tell(err),
    };
    let sourced = match source.load(rt, err) {
        Ok(sourced) => sourced,
        Err(status) => return status,
    };
    let text = match sized(rt.alloc(), &sourced.base, &question) {
        Ok(text) => text,
        Err(_) => return Fault::OutOfMemory.tell(err),
    };
    match write_text(out, text.as_str()) {
        Ok(()) => 0,
        Err(fault) => fault.tell(err),
    }
}
