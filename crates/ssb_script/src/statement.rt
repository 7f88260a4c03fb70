//! The `sql` records of a script: statements of SQL, each asked as its questions together.

ghost use Rattle.std.specs.Prelude.{◌≡◌, ◌++◌, IfOk, IfErr, OnOk, flat_map, map};
ghost use Rattle.csv.specs.Records.{fields_of};
ghost use Rattle.ssb_script.specs.Lines as spec;
ghost use Rattle.ssb_script.specs.Requests.{IsWholeStatement};
ghost use Rattle.ssb_script.specs.Steps.{TellsStatement};

use crate::error::ScriptError;
use crate::fields::columns;
use crate::question::without_closing;
use csv::ByteRecord;
use ssb_questions::Question;
use ssb_schema::{Items, Text};
use ssb_sql::{SqlFault, Statement, statement_of};
use ssb_text::text;
use std::alloc::{AllocError, Global};

/// A statement, and the text that spells it.
#[derive(Drop)]
pub struct StatementAsked {
    /// The text, as its record has it.
    pub text: Text,
    /// What it is read as.
    pub statement: Statement,
}

// Adds a field behind a bar.
fn push_behind_bar(text: &mut Vec<u8>, field: &[u8]) -> Result<(), AllocError>
    ensures { OnOk result (text.new.items ≡ text.old.items ++ spec.behind_bar field.now) }
{
    text.push(b'|')?;
    text.extend_from_slice(field)
}

// Adds fields, each behind a bar.
fn push_others(text: &mut Vec<u8>, fields: &[&[u8]]) -> Result<(), AllocError>
    ensures { OnOk result (text.new.items
        ≡ text.old.items ++ flat_map spec.behind_bar (map (λ field. field.now) fields.now)) }
{
    for field in fields {
        push_behind_bar(text, field)?;
    }
    Ok(())
}

// Fields with a bar between one and the next.
fn barred(alloc: Global, fields: &[&[u8]]) -> Result<Vec<u8>, AllocError>
    ensures { IfOk result (λ text. text.items ≡ spec.barred (map (λ field. field.now) fields.now)) }
{
    let mut text = Vec::new(alloc);
    if let [first, others @ ..] = fields {
        text.extend_from_slice(first)?;
        push_others(&mut text, others)?;
    }
    Ok(text)
}

/// The text of the statement that a `sql` record asks, if it has one.
pub(crate) fn sql_of(alloc: Global, fields: &ByteRecord) -> Result<Option<Text>, AllocError>
    ensures { IfOk result (λ text. text ≡ spec.sql_of (fields_of fields.now)) }
{
    if fields.len() < 2 {
        return Ok(None);
    }
    let columns = columns(alloc, 1, fields)?;
    let bytes = barred(alloc, without_closing(columns.as_slice()))?;
    match text(bytes.as_slice()) {
        Some(text) => Ok(Some(Text::from_str(alloc, text)?)),
        None => Ok(None),
    }
}

/// Adds questions, each shared.
pub(crate) fn push_shared(
    questions: &mut Vec<Question>,
    more: &[Question],
) -> Result<(), AllocError>
    ensures { OnOk result (questions.new.items ≡ questions.old.items ++ more.now) }
{
    for question in more {
        questions.push(question.share()?)?;
    }
    Ok(())
}

impl StatementAsked {
    /// The statement that a text spells, which the record of this number has.
    pub(crate) fn of(alloc: Global, number: u64, text: Text) -> Result<StatementAsked, ScriptError>
        ensures text { IfOk result (λ asked. asked.text ≡ text) }
        ensures whole { IfOk result IsWholeStatement }
        ensures fault { IfErr result (TellsStatement number text) }
    {
        match statement_of(alloc, text.as_str()) {
            Ok(statement) => Ok(StatementAsked { text, statement }),
            Err(SqlFault::OutOfMemory) => Err(ScriptError::OutOfMemory),
            Err(why) => Err(ScriptError::Sql(number, why)),
        }
    }

    /// Its questions, each shared.
    pub fn shared_questions(&self, alloc: Global) -> Result<Items<Question>, AllocError>
        ensures { IfOk result (λ questions. questions ≡ self.now.statement.questions.items) }
    {
        let mut questions = Vec::new(alloc);
        push_shared(&mut questions, self.statement.questions.as_slice())?;
        Ok(Items::from_vec(questions))
    }
}
