//! `query --sql`: the rows of statements over the base of a source.

ghost use Rattle.std.specs.Prelude.{◌≡◌, ◌≢◌, ◌⊎◌, ℕ, List, false, IfErr, MatchResult, OnErr, OnOk};
ghost use Rattle.std.specs.Io.KnownBytes.{Appends};
ghost use Rattle.base_source.specs.Over.{IsOver};
ghost use Rattle.query_command.specs.ReportsAsked.{HasReportsText};
ghost use Rattle.query_command.specs.Statement.{ReportsStatements, ReportsStatementsPart};
ghost use Rattle.ssb_files.specs.Status.{status_of};
ghost use Rattle.ssb_formats.specs.Reports.{reports_shown};
ghost use Rattle.ssb_text.specs.Written.{AppendsPart};

use crate::asking::{ReportAsked, reports_of};
use crate::query::{Settings, asked_answers, fault_of, hand_on, tell_times};
use crate::stopwatch::{Stopwatch, TimedStep};
use base_source::{BaseSource, SourcedBase};
use ssb_files::{Fault, Finding, JobFault};
use ssb_formats::{Format, Reported, write_reports};
use ssb_sql::{SqlFault, statements_of};
use std::alloc::Global;
use std::io::{Read, Write};
use std::thread::Threads;
use std::time::Clock;
use std::{fmt, io};

/// Why a text is no statements.
#[derive(Clone, Copy, Debug, PartialEq, Eq)]
pub enum NoStatement {
    /// It has a fault.
    Sql(SqlFault),
    /// It is no UTF-8.
    NotUtf8,
    /// The reader underneath failed.
    Read,
}

impl fmt::Display for NoStatement {
    fn fmt<W: fmt::Write>(&self, f: &mut fmt::Formatter<W>) -> fmt::Result {
        match self {
            NoStatement::Sql(SqlFault::OutOfMemory) => f.write_str("out of memory"),
            NoStatement::Sql(fault) => write!(f, "sql: {fault}"),
            NoStatement::NotUtf8 => f.write_str("sql: 34 NotUtf8"),
            NoStatement::Read => f.write_str("sql: 75 Read"),
        }
    }
}

impl Finding for NoStatement {
    ghost use Rattle.query_command.specs.Statement.{no_statement_status};

    ghost found_status = { no_statement_status };

    fn status(&self) -> u8 {
        match self {
            NoStatement::Sql(SqlFault::OutOfMemory) | NoStatement::Read => 4,
            NoStatement::Sql(_) | NoStatement::NotUtf8 => 2,
        }
    }
}

/// The text of statements that `source` has, to its end.
pub fn statements_text<I: Read + Drop>(
    alloc: Global,
    mut source: I,
) -> Result<String, NoStatement> {
    let mut bytes = Vec::new(alloc);
    if let Err(error) = source.read_to_end(&mut bytes) {
        return Err(match error.kind() {
            io::ErrorKind::OutOfMemory => NoStatement::Sql(SqlFault::OutOfMemory),
            _ => NoStatement::Read,
        });
    }
    match String::from_utf8(bytes) {
        Ok(text) => Ok(text),
        Err(_) => Err(NoStatement::NotUtf8),
    }
}

// The statements that a text spells, parted by semicolons.
fn statements_in(alloc: Global, text: &str) -> Result<Vec<ReportAsked>, SqlFault> {
    let mut asked = Vec::new(alloc);
    for statement in statements_of(alloc, text)? {
        asked.push(ReportAsked::Statement(statement))?;
    }
    Ok(asked)
}

// Writes reports, and has the writer hand on what it holds.
fn write<W: Write>(
    alloc: Global,
    format: Format,
    reports: &[Reported<'_>],
    out: &mut W,
) -> Result<(), Fault>
    ensures written { MatchResult result
        (λ _. Appends (W.contents out.old) (W.contents out.new) (reports_shown format reports.now))
        (λ _. AppendsPart (W.contents out.old) (W.contents out.new) (reports_shown format reports.now)) }
    ensures fault { IfErr result (λ fault. status_of fault ≡ 4) }
{
    match write_reports(alloc, out, format, reports) {
        Ok(()) => hand_on(out),
        Err(fault) => Err(fault_of(fault)),
    }
}

// Writes the rows of statements over a base.
fn report<R: Threads + Sync + Clock + AllocGlobal, W: Write>(
    rt: &R,
    settings: Settings,
    sourced: SourcedBase,
    asked: &[ReportAsked],
    watch: &mut Stopwatch,
    out: &mut W,
) -> Result<(), Fault>
    ensures report { OnOk result ((report : List ℕ)
        × HasReportsText settings.format sourced.base sourced.after asked.now report
        × Appends (W.contents out.old) (W.contents out.new) report) }
    ensures part { OnErr result ((W.contents out.new ≡ W.contents out.old)
        ⊎ ((report : List ℕ) × HasReportsText settings.format sourced.base sourced.after asked.now report
        × AppendsPart (W.contents out.old) (W.contents out.new) report)) }
    ensures fault { IfErr result (λ fault. status_of fault ≡ 4) }
{
    let after = sourced.after;
    let answers = asked_answers(rt, settings.hashing, sourced, asked, watch)?;
    let reports = reports_of(rt.alloc(), asked, answers.as_slice(), after)?;
    write(rt.alloc(), settings.format, reports.as_slice(), out)
}

/// Writes the rows of the statements that a text spells, parted by semicolons, over the base of a source, from one pass
/// over its lines where few enough sums are asked; or a fault line to `err`. The text is read first. The result is the
/// exit status: 0 with nothing written to `err` but the times, where they are asked for; 1 where what the source holds
/// is refused, 2 where the text is, and else 4.
pub fn run_statements<
    R: Threads + Sync + Clock + AllocGlobal,
    S: BaseSource + Drop,
    W: Write,
    E: Write,
>(rt: &R, settings: Settings, source: S, text: &str, out: &mut W, err: &mut E) -> u8
    ensures report { result ≡ 0 → IsOver (S.holds source)
        (λ base after. ReportsStatements settings.format base after (W.contents out.old) (W.contents out.new)) }
    ensures fault { result ≢ 0 → (W.contents out.new ≡ W.contents out.old)
        ⊎ IsOver (S.holds source)
        (λ base after. ReportsStatementsPart settings.format base after (W.contents out.old) (W.contents out.new)) }
    ensures refused { result ≡ 2 → W.contents out.new ≡ W.contents out.old }
    ensures quiet { result ≡ 0 → settings.times ≡ false → err.new ≡ err.old }
    ensures data { result ≡ 1 → S.is_refused source }
{
    let asked = match statements_in(rt.alloc(), text) {
        Ok(asked) => asked,
        Err(fault) => return JobFault::Found(NoStatement::Sql(fault)).tell(err),
    };
    let times = settings.times;
    let mut watch = Stopwatch::start(rt, times);
    let sourced = match source.load(rt, err) {
        Ok(sourced) => sourced,
        Err(status) => return status,
    };
    watch.lap(rt, TimedStep::Load);
    match report(rt, settings, sourced, asked.as_slice(), &mut watch, out) {
        Ok(()) => {
            tell_times(&watch, times, err);
            0
        }
        Err(fault) => fault.tell(err),
    }
}
