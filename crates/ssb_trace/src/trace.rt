//! A trace from any reader.
ghost use Rattle.std.specs.Prelude.{◌≡◌, ℕ, ◌++◌, List, Some, IfOk, IfErr};
ghost use Rattle.std.specs.Option.{option_to_list};
ghost use Rattle.ssb_script.specs.declared.error.ScriptError.TheVariants as error;
ghost use Rattle.ssb_trace.specs.Entries.{answers_in, commits_in};
ghost use Rattle.ssb_trace.specs.Traces.{IsBegun, IsTraceFault, SpellsTrace};
ghost use Rattle.ssb_trace.specs.declared.unfinished.Unfinished.TheVariants as unfinished;

use crate::entry::TraceEntry;
use crate::unfinished::{TraceStep, Unfinished};
use csv::ByteRecord;
use row_store::Commit;
use ssb_audit::{Told, Trace};
use ssb_schema::Items;
use ssb_script::ScriptError;
use ssb_text::{next_record, record_reader};
use std::alloc::{AllocError, Global};
use std::io::Read;

// Keeps the entry that a record ended, if it ended one.
fn keep(
    commits: &mut Vec<Commit>,
    answers: &mut Vec<Told>,
    entry: Option<TraceEntry>,
) -> Result<(), AllocError>
    ensures commits { IfOk result (λ _. commits.new.items ≡ commits.old.items ++ commits_in (option_to_list entry)) }
    ensures answers { IfOk result (λ _. answers.new.items ≡ answers.old.items ++ answers_in (option_to_list entry)) }
{
    match entry {
        Some(TraceEntry::Commit(commit)) => commits.push(commit)?,
        Some(TraceEntry::Answer(told)) => answers.push(told)?,
        None => {}
    }
    Ok(())
}

// The trace of these commits and answers, where nothing more is begun.
fn trace_of(
    commits: Vec<Commit>,
    answers: Vec<Told>,
    begun: Unfinished,
) -> Result<Trace, ScriptError>
    ensures trace { IfOk result (λ trace. (begun ≡ unfinished.Nothing)
        × (trace ≡ record { commits = commits.items; answers = answers.items })) }
    ensures fault { IfErr result (λ e. (e ≡ error.NoCommit) × IsBegun begun) }
{
    match begun {
        Unfinished::Nothing => Ok(Trace {
            commits: Items::from_vec(commits),
            answers: Items::from_vec(answers),
        }),
        Unfinished::Commit(_) => Err(ScriptError::NoCommit),
        Unfinished::Answer(_) => Err(ScriptError::NoCommit),
    }
}

/// Reads a trace of at most `max_records` records to its end.
///
/// Its commits and its answers may stand in any order, each in one piece; the trace has them in the order in which they
/// stand. The error is the first that the records have, in their order, and within a record in the order of the checks:
/// a trace of too many records is told at the first one past the bound, and one that ends inside a commit, or before
/// the last row of an answer, at its end. It reads `max_records` + 1 records at most, and reserves room only for what
/// it has read.
pub fn read_trace<R: Read + Drop>(
    alloc: Global,
    source: R,
    max_records: u64,
) -> Result<Trace, ScriptError>
    ensures trace { IfOk result (λ trace. (text : List ℕ) → R.remaining source ≡ Some text
        → SpellsTrace max_records text trace) }
    ensures fault { IfErr result (λ e. (text : List ℕ) → R.remaining source ≡ Some text
        → IsTraceFault max_records text e) }
{
    let mut reader = record_reader(alloc, source);
    let mut fields = ByteRecord::new(alloc);
    let mut commits = Vec::new(alloc);
    let mut answers = Vec::new(alloc);
    let mut begun = Unfinished::Nothing;
    for before in 0..max_records {
        if !next_record(&mut reader, &mut fields)? {
            return trace_of(commits, answers, begun);
        }
        let TraceStep {
            entry,
            unfinished: next,
        } = begun.after(alloc, before, &fields)?;
        keep(&mut commits, &mut answers, entry)?;
        begun = next;
    }
    if next_record(&mut reader, &mut fields)? {
        return Err(ScriptError::TooLong);
    }
    trace_of(commits, answers, begun)
}
