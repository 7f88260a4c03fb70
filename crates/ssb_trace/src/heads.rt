//! The `commit` and `answer` records of a trace.
ghost use Rattle.std.specs.Prelude.{◌≡◌, ◌<◌, ◌^◌, IfOk, IfSome};
ghost use Rattle.csv.specs.Records.{fields_of};
ghost use Rattle.ssb_trace.specs.Heads as spec;

use csv::ByteRecord;
use ssb_questions::Question;
use ssb_schema::number;
use ssb_script::question_at;
use ssb_text::{has_columns, trimmed_at};
use std::alloc::{AllocError, Global};

/// The first record of an answer: its client, its number of commits, its question, and how many rows follow.
#[derive(Drop)]
pub struct AnswerHead {
    /// Whom it was given to, 1 to 16.
    pub client: u32,
    /// How many commits it stands after.
    pub at: u64,
    /// What was asked.
    pub question: Question,
    /// How many rows follow.
    pub count: u64,
}

/// The client of a number, 1 to 16.
pub(crate) fn client_numbered(number: u64) -> Option<u32>
    ensures { result ≡ spec.client_numbered number }
{
    if 1 <= number && number <= 16 {
        Some(number as u32)
    } else {
        None
    }
}

// The number of a client.
fn client_of(bytes: &[u8]) -> Option<u32>
    ensures { result ≡ spec.client_of bytes.now }
{
    client_numbered(number(bytes)?)
}

/// The client whose commit a record begins, if it spells one.
pub fn client_of_commit(fields: &ByteRecord) -> Option<u32>
    ensures { result ≡ spec.commit_of (fields_of fields.now) }
{
    if !has_columns(fields, 2) {
        return None;
    }
    client_of(trimmed_at(fields, 1))
}

/// The answer that a record begins, if it spells one.
pub fn head_of(alloc: Global, fields: &ByteRecord) -> Result<Option<AnswerHead>, AllocError>
    ensures { IfOk result (λ head. head ≡ spec.head_of (fields_of fields.now)) }
{
    let Some(client) = client_of(trimmed_at(fields, 1)) else {
        return Ok(None);
    };
    let Some(at) = number(trimmed_at(fields, 2)) else {
        return Ok(None);
    };
    let Some(question) = question_at(alloc, 3, 5, fields)? else {
        return Ok(None);
    };
    let Some(count) = number(trimmed_at(fields, 4)) else {
        return Ok(None);
    };
    Ok(Some(AnswerHead {
        client,
        at,
        question,
        count,
    }))
}
