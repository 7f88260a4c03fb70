//! The requests of a session that no script has.

ghost use Rattle.std.specs.Prelude.{◌≡◌, IfNone, IfOk, IfSome};
ghost use Rattle.csv.specs.Records.{fields_of};
ghost use Rattle.ssb_questions.specs.Clause as clause;
ghost use Rattle.stream_sessions.specs.SessionRequests as spec;
ghost use Rattle.stream_sessions.specs.SessionRequests.{AsksNothing, AsksSession};

use crate::lookup::Lookup;
use csv::ByteRecord;
use ssb_formats::ReplyFormat;
use ssb_schema::{Column, query_columns};
use ssb_text::{ReadError, has_columns, next_record, record_reader, trimmed_at};
use std::alloc::Global;

/// What a request asks of its session.
#[derive(Clone, Copy, Debug, PartialEq, Eq)]
pub(crate) enum SessionRequest {
    /// This format, from here on.
    Format(ReplyFormat),
    /// What is looked up.
    LookUp(Lookup),
}

// The column of this name, of those that questions read.
fn column_named(name: &[u8]) -> Option<Column>
    ensures { result ≡ clause.column_named name.now }
{
    query_columns()
        .iter()
        .copied()
        .find(|column| column.name().as_bytes() == name)
}

// What a word asks that stands alone.
fn asked_alone(word: &[u8]) -> Option<SessionRequest>
    ensures { result ≡ spec.asked_alone word.now }
{
    if word == b"columns".as_slice() {
        return Some(SessionRequest::LookUp(Lookup::Columns));
    }
    if word == b"status".as_slice() {
        return Some(SessionRequest::LookUp(Lookup::Status));
    }
    None
}

// What a word asks with a name behind it.
fn asked_by_name(word: &[u8], name: &[u8]) -> Option<SessionRequest>
    ensures { result ≡ spec.asked_by_name word.now name.now }
{
    if word == b"format".as_slice() {
        return match ReplyFormat::named(name) {
            Some(format) => Some(SessionRequest::Format(format)),
            None => None,
        };
    }
    if word == b"values".as_slice() {
        return match column_named(name) {
            Some(column) => Some(SessionRequest::LookUp(Lookup::Values(column))),
            None => None,
        };
    }
    None
}

// What a record asks of its session.
fn request_of(fields: &ByteRecord) -> Option<SessionRequest>
    ensures { result ≡ spec.request_of (fields_of fields.now) }
{
    if has_columns(fields, 1) {
        return asked_alone(trimmed_at(fields, 0));
    }
    if has_columns(fields, 2) {
        return asked_by_name(trimmed_at(fields, 0), trimmed_at(fields, 1));
    }
    None
}

/// What a request asks of its session, if it is one record that does.
pub(crate) fn session_request(
    alloc: Global,
    request: &[u8],
) -> Result<Option<SessionRequest>, ReadError>
    ensures asked { IfOk result (λ asked. IfSome asked (AsksSession request.now)) }
    ensures nothing { IfOk result (λ asked. IfNone asked (AsksNothing request.now)) }
{
    let mut reader = record_reader(alloc, request);
    let mut fields = ByteRecord::new(alloc);
    if !next_record(&mut reader, &mut fields)? {
        return Ok(None);
    }
    let Some(asked) = request_of(&fields) else {
        return Ok(None);
    };
    if next_record(&mut reader, &mut fields)? {
        return Ok(None);
    }
    Ok(Some(asked))
}
