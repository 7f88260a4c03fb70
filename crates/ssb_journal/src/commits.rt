//! Commits as the text of a group, and back.
ghost use Rattle.std.specs.Prelude.{◌≡◌, ◌≢◌, ◌+◌, ◌<◌, ◌≤◌, ◌++◌, true, length, take, IfOk, MatchOption, OnOk};
ghost use Rattle.std.specs.List.{AllByRecursion, AllZip};
ghost use Rattle.journal.specs.Groups.{lists};
ghost use Rattle.ssb_trace.specs.Allowed.{IsClient};
ghost use Rattle.ssb_trace.specs.TraceText.{trace_text};
ghost use Rattle.ssb_journal.specs.Gathered.{IsBatchOf};
ghost use Rattle.ssb_journal.specs.Kept.{trace_of, SpellsBatch, SpellCommits, SpellsNoBatch, IsFirstNoBatch};
ghost use Rattle.ssb_journal.specs.declared.fault.JournalFault.TheVariants.{Damaged};

use rayon::prelude::*;
use row_store::Commit;
use ssb_audit::Trace;
use ssb_schema::Items;
use ssb_script::ScriptError;
use ssb_trace::{commits_are_allowed, read_directly, read_trace, text_is_read_back, write_trace};
use std::alloc::{AllocError, Global};
use std::thread::Threads;

/// The text of commits, as a trace has them. It spells them.
pub(crate) fn text_of(alloc: Global, commits: Vec<Commit>) -> Result<Vec<u8>, AllocError>
    requires { AllByRecursion (λ commit. IsClient commit.client) commits.items }
    ensures text { IfOk result (λ text. text.items ≡ trace_text (trace_of commits.items)) }
    ensures spells { IfOk result (λ text. SpellsBatch text.items commits.items) }
{
    commits_are_allowed(commits.as_slice());
    text_is_read_back();
    let trace = Trace {
        commits: Items::from_vec(commits),
        answers: Items::from_vec(Vec::new(alloc)),
    };
    let mut text = Vec::new(alloc);
    match write_trace(&mut text, &trace) {
        Ok(()) => Ok(text),
        Err(_) => Err(AllocError),
    }
}

// Whether a text is at fault, and not the memory. A slice is read without a fault of its own.
fn is_of_text(error: ScriptError) -> bool
    ensures { result ≡ true → (error ≢ ScriptError.Read) × (error ≢ ScriptError.OutOfMemory) }
{
    !matches!(error, ScriptError::Read | ScriptError::OutOfMemory)
}

// The commits that the records of a text spell; none where these spell no commits.
fn batch_of_records(alloc: Global, text: &[u8]) -> Result<Option<Vec<Commit>>, AllocError>
    ensures { IfOk result (λ found. MatchOption found (SpellsNoBatch text.now)
        (λ batch. SpellsBatch text.now batch.items)) }
{
    let trace = match read_trace(alloc, text, u64::MAX) {
        Ok(trace) => trace,
        Err(error) if is_of_text(error) => return Ok(None),
        Err(_) => return Err(AllocError),
    };
    if trace.answers.len() > 0 {
        return Ok(None);
    }
    Ok(Some(trace.commits.into_vec()))
}

/// The commits that a text spells; none where it spells no commits. It is read directly off its bytes where nothing in
/// them is odd.
pub(crate) fn batch_of(alloc: Global, text: &[u8]) -> Result<Option<Vec<Commit>>, AllocError>
    ensures { IfOk result (λ found. MatchOption found (SpellsNoBatch text.now)
        (λ batch. SpellsBatch text.now batch.items)) }
{
    match read_directly(alloc, text) {
        Some(batch) => Ok(Some(batch)),
        None => batch_of_records(alloc, text),
    }
}

fn push_all(commits: &mut Vec<Commit>, batch: Vec<Commit>) -> Result<(), AllocError>
    ensures { OnOk result (commits.new.items ≡ commits.old.items ++ batch.items) }
{
    for commit in batch {
        commits.push(commit)?;
    }
    Ok(())
}

/// How many bytes of texts are read before their commits are handed on: so many that threads are worth beginning.
pub const MOST_TOGETHER: usize = 1_048_576;

// The commits of each text, read by as many threads as there are processors.
fn batches_of(
    rt: &(impl Threads + Sync),
    alloc: Global,
    texts: &[Vec<u8>],
) -> Result<Vec<Result<Option<Vec<Commit>>, AllocError>>, AllocError>
    ensures { IfOk result (λ batches. AllZip (λ text batch. IsBatchOf text.items batch) texts.now batches.items) }
{
    texts
        .par_iter()
        .with_min_len(1)
        .map(
            |text: &Vec<u8>| -> Result<Option<Vec<Commit>>, AllocError>
                ensures { IsBatchOf text.now.items result }
            { batch_of(alloc, text) },
        )
        .collect(rt, alloc)
}

/// The commits of the first texts, so many of them.
#[derive(Drop)]
pub(crate) struct SpelledTexts {
    pub(crate) count: usize,
    pub(crate) commits: Vec<Commit>,
}

/// The commits that texts spell, up to the first text that spells none. The first text is that of group 1. Threads read
/// them, and one puts them in order.
pub(crate) fn commits_of(
    rt: &(impl Threads + Sync),
    alloc: Global,
    texts: &[Vec<u8>],
) -> Result<SpelledTexts, AllocError>
    ensures within { IfOk result (λ spelled. spelled.count ≤ length texts.now) }
    ensures commits { IfOk result (λ spelled. SpellCommits (take spelled.count (lists texts.now))
        spelled.commits.items) }
    ensures next { IfOk result (λ spelled. spelled.count < length texts.now
        → IsFirstNoBatch (lists texts.now) (Damaged (spelled.count + 1))) }
{
    let mut commits = Vec::new(alloc);
    let mut count = 0usize;
    for batch in batches_of(rt, alloc, texts)? {
        let Some(batch) = batch? else {
            return Ok(SpelledTexts { count, commits });
        };
        push_all(&mut commits, batch)?;
        count += 1;
    }
    Ok(SpelledTexts { count, commits })
}
