//! What the records of a trace have begun and not ended, and what one more record does to it.
ghost use Rattle.std.specs.Prelude.{◌≡◌, ℕ, ◌+◌, ◌-◌, ◌<◌, ◌≤◌, ◌^◌, ◌++◌, ◌∷◌, [], Ok, Some, true, false, length, IfOk};
ghost use Rattle.std.specs.Prelude.{IfErr};
ghost use Rattle.csv.specs.Records.{fields_of};
ghost use Rattle.ssb_script.specs.Lines.{ScriptLine};
ghost use Rattle.ssb_script.specs.Scripts.{HasRoom, checks_in, is_refreshing};
ghost use Rattle.ssb_script.specs.Steps.{Follows as FollowsInScript, IsFoundBy, begun_in};
ghost use Rattle.ssb_trace.specs.Entries.{IsUnfinished, lines_of_unfinished};
ghost use Rattle.ssb_trace.specs.Lines as spec;
ghost use Rattle.ssb_trace.specs.Lines.{line_inside, row_after};
ghost use Rattle.ssb_trace.specs.Rows.{group_kinds as kinds_of};
ghost use Rattle.ssb_trace.specs.Steps.{CommitStep, Follows, Takes, TakesRecord};
ghost use Rattle.ssb_trace.specs.Traces.{checks_after, order_refused};
ghost use Rattle.ssb_trace.specs.declared.unfinished.Unfinished.TheVariants as unfinished;
ghost use Rattle.ssb_trace.specs.declared.word.TraceWord.TheVariants as words;
ghost use Rattle.ssb_script.specs.declared.error.ScriptError.TheVariants.{OutOfMemory};

use crate::control::control_of;
use crate::entry::TraceEntry;
use crate::heads::{AnswerHead, client_of_commit, head_of};
use crate::rows::{group_kinds, row_of};
use crate::word::{TraceWord, is_line};
use csv::ByteRecord;
use row_store::Commit;
use ssb_answers::ResultRow;
use ssb_audit::Told;
use ssb_questions::{ConstantKind, Question};
use ssb_schema::Items;
use ssb_script::{Begun, OrderLine, ScriptError};
use std::alloc::{AllocError, Global};

/// A commit whose actions are being read.
#[derive(Drop)]
pub(crate) struct UnfinishedCommit {
    /// Whose commit it is.
    pub client: u32,
    /// What its records have begun, as a refresh of a script.
    pub begun: Begun,
}

/// An answer whose rows are being read.
#[derive(Drop)]
pub(crate) struct UnfinishedAnswer {
    /// What its first record says.
    pub head: AnswerHead,
    /// What the group columns of its question hold.
    pub kinds: Items<ConstantKind>,
    /// Its rows so far.
    pub rows: Items<ResultRow>,
}

/// What is begun and not ended: nothing, a commit, or an answer.
#[derive(Drop)]
pub(crate) enum Unfinished {
    /// The next record begins a entry.
    Nothing,
    /// A commit whose `end` is to come.
    Commit(UnfinishedCommit),
    /// An answer of which rows are to come.
    Answer(UnfinishedAnswer),
}

/// What comes of one record: the entry that it ends, if it ends one, and what is begun after it.
#[derive(Drop)]
pub(crate) struct TraceStep {
    /// The entry that the record ended, if it ended one.
    pub entry: Option<TraceEntry>,
    /// What is begun after the record.
    pub unfinished: Unfinished,
}

// The record of a number begins a commit.
fn begin_commit(alloc: Global, number: u64, fields: &ByteRecord) -> Result<TraceStep, ScriptError>
    ensures step { IfOk result (TakesRecord number unfinished.Nothing (Some words.Commit) (fields_of fields.now)) }
    ensures fault { IfErr result (IsFoundBy (checks_after number unfinished.Nothing (Some words.Commit)
        (fields_of fields.now))) }
{
    match client_of_commit(fields) {
        Some(client) => Ok(TraceStep {
            entry: None,
            unfinished: Unfinished::Commit(UnfinishedCommit {
                client,
                begun: Begun::Refresh(Items::from_vec(Vec::new(alloc))),
            }),
        }),
        None => Err(ScriptError::BadLine(number)),
    }
}

// The record of a number begins an answer.
fn begin_answer(alloc: Global, number: u64, fields: &ByteRecord) -> Result<TraceStep, ScriptError>
    ensures step { IfOk result (TakesRecord number unfinished.Nothing (Some words.Answer) (fields_of fields.now)) }
    ensures fault { IfErr result (IsFoundBy (checks_after number unfinished.Nothing (Some words.Answer)
        (fields_of fields.now))) }
{
    match head_of(alloc, fields)? {
        Some(head) => {
            let kinds = group_kinds(alloc, &head.question)?;
            let rows = Items::from_vec(Vec::new(alloc));
            Ok(UnfinishedAnswer { head, kinds, rows }.step())
        }
        None => Err(ScriptError::BadLine(number)),
    }
}

// What comes of the record of a number where nothing is begun.
fn outside(
    alloc: Global,
    number: u64,
    word: Option<TraceWord>,
    fields: &ByteRecord,
) -> Result<TraceStep, ScriptError>
    ensures step { IfOk result (TakesRecord number unfinished.Nothing word (fields_of fields.now)) }
    ensures fault { IfErr result (IsFoundBy (checks_after number unfinished.Nothing word (fields_of fields.now))) }
{
    match word {
        Some(TraceWord::Commit) => begin_commit(alloc, number, fields),
        Some(TraceWord::Answer) => begin_answer(alloc, number, fields),
        _ => Err(ScriptError::BadLine(number)),
    }
}

// What comes of a record of a commit in a script's refresh, after so many.
fn after_in_refresh(
    begun: Begun,
    alloc: Global,
    before: u64,
    word: Option<TraceWord>,
    fields: &ByteRecord,
) -> Result<ssb_script::ScriptStep, ScriptError>
    requires counted { before < 2 ^ 64 - 1 }
    requires room { HasRoom before (begun_in begun) }
    ensures step { IfOk result (λ step. (line : ScriptLine) × (line_inside word (fields_of fields.now) ≡ Ok line)
        × FollowsInScript (before + 1) (begun_in begun) line step) }
    ensures fault { IfErr result (IsFoundBy (order_refused (begun_in begun) word ∷ checks_in (before + 1)
        (begun_in begun) (line_inside word (fields_of fields.now)))) }
{
    if is_line(word) {
        let row = OrderLine::of(alloc, fields)?;
        return begun.with_row(before + 1, row);
    }
    begun.with_control(alloc, before, control_of(word, fields))
}

// What comes of that in a commit of the client.
fn step_of_commit(client: u32, step: ssb_script::ScriptStep) -> TraceStep
    ensures { CommitStep client step result }
{
    let ssb_script::ScriptStep { request, begun } = step;
    match request {
        Some(ssb_script::Request::Refresh(refresh)) => TraceStep {
            entry: Some(TraceEntry::Commit(Commit { client, refresh })),
            unfinished: Unfinished::Nothing,
        },
        _ => TraceStep {
            entry: None,
            unfinished: Unfinished::Commit(UnfinishedCommit { client, begun }),
        },
    }
}

// The row of the question that a record of this word spells, if it spells one.
fn row_in(
    alloc: Global,
    question: &Question,
    kinds: &[ConstantKind],
    word: Option<TraceWord>,
    fields: &ByteRecord,
) -> Result<Option<ResultRow>, AllocError>
    requires { kinds.now ≡ kinds_of question.now }
    ensures { IfOk result (λ row. row ≡ row_after question.now word (fields_of fields.now)) }
{
    match word {
        Some(TraceWord::Row) => row_of(alloc, question.query(), kinds, fields),
        _ => Ok(None),
    }
}

impl UnfinishedCommit {
    // What comes of one more record, after so many.
    fn after(
        self,
        alloc: Global,
        before: u64,
        word: Option<TraceWord>,
        fields: &ByteRecord,
    ) -> Result<TraceStep, ScriptError>
        requires counted { before < 2 ^ 64 - 1 }
        requires inside { is_refreshing (begun_in self.begun) ≡ true }
        requires room { HasRoom before (begun_in self.begun) }
        ensures step { IfOk result (TakesRecord (before + 1) (unfinished.Commit self) word (fields_of fields.now)) }
        ensures fault { IfErr result (IsFoundBy (checks_after (before + 1) (unfinished.Commit self) word
            (fields_of fields.now))) }
    {
        let step = after_in_refresh(self.begun, alloc, before, word, fields)?;
        Ok(step_of_commit(self.client, step))
    }
}

impl UnfinishedAnswer {
    // The answer, once it has all its rows.
    fn step(self) -> TraceStep
        requires few { length self.rows ≤ self.head.count }
        requires kinds { self.kinds ≡ kinds_of self.head.question }
        ensures { (number : ℕ) → Takes number (lines_of_unfinished (unfinished.Answer self)) result }
    {
        if self.rows.len() as u64 == self.head.count {
            TraceStep {
                entry: Some(TraceEntry::Answer(Told {
                    client: self.head.client,
                    at: self.head.at,
                    question: self.head.question,
                    rows: self.rows,
                })),
                unfinished: Unfinished::Nothing,
            }
        } else {
            TraceStep {
                entry: None,
                unfinished: Unfinished::Answer(self),
            }
        }
    }

    // One more row.
    fn with(self, row: ResultRow) -> Result<TraceStep, ScriptError>
        requires fewer { length self.rows < self.head.count }
        requires kinds { self.kinds ≡ kinds_of self.head.question }
        ensures step { IfOk result (λ step. (number : ℕ)
            → Follows number (unfinished.Answer self) (spec.Row self.head.question row) step) }
        ensures fault { IfErr result (λ e. e ≡ OutOfMemory) }
    {
        let mut rows = self.rows.into_vec();
        rows.push(row)?;
        let rows = Items::from_vec(rows);
        Ok(UnfinishedAnswer {
            head: self.head,
            kinds: self.kinds,
            rows,
        }
        .step())
    }

    // What comes of the record of a number.
    fn after(
        self,
        alloc: Global,
        number: u64,
        word: Option<TraceWord>,
        fields: &ByteRecord,
    ) -> Result<TraceStep, ScriptError>
        requires fewer { length self.rows < self.head.count }
        requires kinds { self.kinds ≡ kinds_of self.head.question }
        ensures step { IfOk result (TakesRecord number (unfinished.Answer self) word (fields_of fields.now)) }
        ensures fault { IfErr result (IsFoundBy (checks_after number (unfinished.Answer self) word
            (fields_of fields.now))) }
    {
        match row_in(
            alloc,
            &self.head.question,
            self.kinds.as_slice(),
            word,
            fields,
        )? {
            Some(row) => self.with(row),
            None => Err(ScriptError::BadLine(number)),
        }
    }
}

impl Unfinished {
    /// What comes of one more record, after so many.
    pub(crate) fn after(
        self,
        alloc: Global,
        before: u64,
        fields: &ByteRecord,
    ) -> Result<TraceStep, ScriptError>
        requires counted { before < 2 ^ 64 - 1 }
        requires unfinished { IsUnfinished before self }
        ensures step { IfOk result (TakesRecord (before + 1) self (spec.word_of (fields_of fields.now))
            (fields_of fields.now)) }
        ensures fault { IfErr result (IsFoundBy (checks_after (before + 1) self (spec.word_of (fields_of fields.now))
            (fields_of fields.now))) }
    {
        let word = TraceWord::of(fields);
        match self {
            Unfinished::Nothing => outside(alloc, before + 1, word, fields),
            Unfinished::Commit(commit) => commit.after(alloc, before, word, fields),
            Unfinished::Answer(answer) => answer.after(alloc, before + 1, word, fields),
        }
    }
}
