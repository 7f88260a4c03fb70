//! A script of questions alone, from any reader.

ghost use Rattle.std.specs.Prelude.{◌≡◌, ◌≤◌, ◌+◌, ℕ, List, None, Some, IfOk, IfErr, IfSome, IfNone, OnOk};
ghost use Rattle.std.specs.Prelude.{nat_lt};
ghost use Rattle.csv.specs.Records.{fields_of};
ghost use Rattle.ssb_script.specs.Lines.{line_of, question_of, sql_of};
ghost use Rattle.ssb_script.specs.Questions.{Adds, AsksAlone, AsksNone, IsAskedBy, IsQuestionsFault, IsRecordFault};
ghost use Rattle.ssb_script.specs.Questions.{IsRefusal, Says, asked_so, error_of_read, most_alone, question_so};
ghost use Rattle.ssb_script.specs.declared.questions.QuestionsError.TheVariants.{NotAQuestion, OutOfMemory};

use crate::error::ScriptError;
use crate::fields::word_of;
use crate::question::question_at;
use crate::request::Asking;
use crate::statement::{self, StatementAsked, push_shared};
use crate::word::{is_query, is_sql};
use csv::ByteRecord;
use ssb_questions::Question;
use ssb_schema::Items;
use ssb_sql::SqlFault;
use ssb_text::{ReadError, next_record, record_reader};
use std::alloc::{AllocError, AllocFailed, Global};
use std::io::Read;
use thiserror::Error;

/// The most questions of such a script, and so the most records.
pub const MOST_ALONE: u64 = 64;

/// Why a text is no script of questions alone. Records are numbered from 1.
#[derive(Clone, Copy, Debug, PartialEq, Eq, Error)]
pub enum QuestionsError {
    /// A record that asks no question, or the 65th question; of a text without records, the first.
    #[error("98 NotAQuestion {0}")]
    NotAQuestion(u64),
    /// The text of this `sql` record is no statement.
    #[error("79 Sql {0} {1}")]
    Sql(u64, SqlFault),
    /// The reader underneath failed.
    #[error("75 Read")]
    Read,
    /// Memory ran out.
    #[error("out of memory")]
    OutOfMemory,
}

impl From<AllocError> for QuestionsError {
    ghost from_gives = { λ _ e. e ≡ OutOfMemory };

    fn from(_e: AllocError) -> QuestionsError {
        QuestionsError::OutOfMemory
    }
}

impl<T: Drop> From<AllocFailed<T>> for QuestionsError {
    ghost from_gives = { λ _ e. e ≡ OutOfMemory };

    fn from(_e: AllocFailed<T>) -> QuestionsError {
        QuestionsError::OutOfMemory
    }
}

impl From<ReadError> for QuestionsError {
    ghost from_gives = { λ why e. e ≡ error_of_read why };

    fn from(why: ReadError) -> QuestionsError {
        match why {
            ReadError::Read => QuestionsError::Read,
            ReadError::OutOfMemory => QuestionsError::OutOfMemory,
        }
    }
}

// The question that a `query` record of this number asks, if it asks one.
fn question_in(
    alloc: Global,
    number: u64,
    fields: &ByteRecord,
) -> Result<Option<Asking>, QuestionsError>
    ensures some { IfOk result (λ asking. IfSome asking (Says (question_so (question_of (fields_of fields.now))))) }
    ensures none { IfOk result (λ asking. IfNone asking (AsksNone (question_so (question_of (fields_of fields.now))))) }
    ensures fault { IfErr result (IsRefusal number (question_so (question_of (fields_of fields.now)))) }
{
    match question_at(alloc, 1, 2, fields)? {
        Some(question) => Ok(Some(Asking::Alone(question))),
        None => Ok(None),
    }
}

// The statement that a `sql` record of this number asks, if it has a text.
fn statement_in(
    alloc: Global,
    number: u64,
    fields: &ByteRecord,
) -> Result<Option<Asking>, QuestionsError>
    ensures some { IfOk result (λ asking. IfSome asking (Says (asked_so (sql_of (fields_of fields.now))))) }
    ensures none { IfOk result (λ asking. IfNone asking (AsksNone (asked_so (sql_of (fields_of fields.now))))) }
    ensures fault { IfErr result (IsRefusal number (asked_so (sql_of (fields_of fields.now)))) }
{
    let Some(text) = statement::sql_of(alloc, fields)? else {
        return Ok(None);
    };
    match StatementAsked::of(alloc, number, text) {
        Ok(asked) => Ok(Some(Asking::Statement(Box::new(alloc, asked)?))),
        Err(ScriptError::Sql(_, why)) => Err(QuestionsError::Sql(number, why)),
        Err(_) => Err(QuestionsError::OutOfMemory),
    }
}

// What the record of this number asks, if it is a `query` or a `sql` record.
fn asking_of(
    alloc: Global,
    number: u64,
    fields: &ByteRecord,
) -> Result<Option<Asking>, QuestionsError>
    ensures some { IfOk result (λ asking. IfSome asking (IsAskedBy (fields_of fields.now))) }
    ensures none { IfOk result (λ asking. IfNone asking (AsksNone (line_of (fields_of fields.now)))) }
    ensures fault { IfErr result (IsRefusal number (line_of (fields_of fields.now))) }
{
    let word = word_of(fields);
    if is_query(word) {
        return question_in(alloc, number, fields);
    }
    if is_sql(word) {
        return statement_in(alloc, number, fields);
    }
    Ok(None)
}

// Whether so many questions and so many more are too many.
fn are_too_many(count: usize, more: usize) -> bool
    ensures { result ≡ nat_lt most_alone (count + more) }
{
    count.saturating_add(more) > MOST_ALONE as usize
}

// Adds the questions that the record of this number asks.
fn add_record(
    alloc: Global,
    number: u64,
    fields: &ByteRecord,
    questions: &mut Vec<Question>,
) -> Result<(), QuestionsError>
    ensures added { OnOk result (Adds (fields_of fields.now) questions.old.items questions.new.items) }
    ensures fault { IfErr result (IsRecordFault number questions.old.items (fields_of fields.now)) }
{
    let Some(asking) = asking_of(alloc, number, fields)? else {
        return Err(QuestionsError::NotAQuestion(number));
    };
    let more = asking.into_questions(alloc)?;
    if are_too_many(questions.len(), more.len()) {
        return Err(QuestionsError::NotAQuestion(number));
    }
    Ok(push_shared(questions, more.as_slice())?)
}

// These questions, behind so many records, of which there has to be one.
fn some_of(records: u64, questions: Vec<Question>) -> Result<Vec<Question>, QuestionsError>
    ensures some { IfOk result (λ some. (some.items ≡ questions.items) × (1 ≤ records)) }
    ensures none { IfErr result (λ e. (records ≡ 0) × (e ≡ NotAQuestion 1)) }
{
    if records == 0 {
        return Err(QuestionsError::NotAQuestion(1));
    }
    Ok(questions)
}

/// Reads a script of `query` and `sql` records alone to its end: 1 to 64 records, and their questions, 64 at most, in
/// order; those of a statement one after another.
///
/// The error is the first record that asks no question, or with which there are more than 64; of a text without records
/// it is the first. A record that spells a query which takes no such constants asks none. A statement's text that is
/// refused is told with its fault.
pub fn read_questions<R: Read + Drop>(
    alloc: Global,
    source: R,
) -> Result<Vec<Question>, QuestionsError>
    ensures questions { IfOk result (λ questions. (text : List ℕ) → R.remaining source ≡ Some text
        → AsksAlone text questions.items) }
    ensures fault { IfErr result (λ e. (text : List ℕ) → R.remaining source ≡ Some text
        → IsQuestionsFault text e) }
{
    let mut reader = record_reader(alloc, source);
    let mut fields = ByteRecord::new(alloc);
    let mut questions = Vec::new(alloc);
    for before in 0..MOST_ALONE {
        if !next_record(&mut reader, &mut fields)? {
            return some_of(before, questions);
        }
        add_record(alloc, before + 1, &fields, &mut questions)?;
    }
    if next_record(&mut reader, &mut fields)? {
        return Err(QuestionsError::NotAQuestion(MOST_ALONE + 1));
    }
    Ok(questions)
}
