//! The `query` records of a script: a query's name, alone or with all its constants; those of `star` are clauses.

ghost use Rattle.std.specs.Prelude.{◌≡◌, ◌+◌, ◌<◌, ◌^◌, Some, None, length, map, option_map, IfOk};
ghost use Rattle.std.specs.Option.{option_and_then};
ghost use Rattle.csv.specs.Records.{fields_of};
ghost use Rattle.ssb_questions.specs.Queries.{standard_constants};
ghost use Rattle.ssb_script.specs.Lines as spec;
ghost use Rattle.ssb_script.specs.Lines.{constant_spelled, constants_given, taken_by};

use crate::fields::columns;
use csv::ByteRecord;
use ssb_questions::{ConstantKind, QUERIES_AND_STAR, Query, Question, QuestionError, Value};
use ssb_schema::{Text, number};
use ssb_text::{has_columns, text, trimmed, trimmed_at};
use std::alloc::{AllocError, Global};

// The query that bytes name.
fn query_named(name: &[u8]) -> Option<Query>
    ensures { result ≡ spec.query_named name.now }
{
    QUERIES_AND_STAR
        .iter()
        .copied()
        .find(|query| query.name().as_bytes() == name)
}

// The constant of a kind that bytes spell.
fn constant_of(alloc: Global, kind: ConstantKind, bytes: &[u8]) -> Result<Option<Value>, AllocError>
    ensures { IfOk result (λ constant. constant ≡ constant_spelled kind bytes.now) }
{
    match kind {
        ConstantKind::Text(_) => match text(bytes) {
            Some(text) => Ok(Some(Value::Text(Text::from_str(alloc, text)?))),
            None => Ok(None),
        },
        ConstantKind::Number => match number(bytes) {
            Some(n) => Ok(Some(Value::Number(n))),
            None => Ok(None),
        },
    }
}

/// The constants of these kinds that the fields from a place on, counted from 0, spell one by one, if each does.
#[tactic(auto, unfolding(crate::specs::Lines::constants_from))]
pub fn constants_from(
    alloc: Global,
    place: usize,
    kinds: &[ConstantKind],
    fields: &ByteRecord,
) -> Result<Option<Vec<Value>>, AllocError>
    requires { place + length kinds.now < 2 ^ 64 }
    ensures { IfOk result (λ found. option_map (λ constants. constants.items) found ≡ spec.constants_from place
        kinds.now (fields_of fields.now)) }
{
    let mut constants = Vec::new(alloc);
    for (i, kind) in kinds.iter().enumerate() {
        let Some(constant) = constant_of(alloc, *kind, trimmed_at(fields, place + i))? else {
            return Ok(None);
        };
        constants.push(constant)?;
    }
    Ok(Some(constants))
}

/// Fields without a last one of no bytes.
#[tactic(auto, unfolding(crate::specs::Lines::without_closing))]
pub(crate) fn without_closing<'a>(fields: &'a [&'a [u8]]) -> &'a [&'a [u8]]
    ensures { map (λ field. field.now) result.now ≡ spec.without_closing (map (λ field. field.now) fields.now) }
{
    match fields {
        [front @ .., last] if last.is_empty() => front,
        _ => fields,
    }
}

// The texts that fields spell one by one, if each does.
#[tactic(auto, unfolding(crate::specs::Lines::texts_spelled))]
fn texts_spelled(alloc: Global, fields: &[&[u8]]) -> Result<Option<Vec<Value>>, AllocError>
    ensures { IfOk result (λ found. option_map (λ texts. texts.items) found
        ≡ spec.texts_spelled (map (λ field. field.now) fields.now)) }
{
    let mut texts = Vec::new(alloc);
    for field in fields {
        let Some(text) = text(trimmed(field)) else {
            return Ok(None);
        };
        texts.push(Value::Text(Text::from_str(alloc, text)?))?;
    }
    Ok(Some(texts))
}

// The question of a query with the constants that it has where none are given, if it takes them.
fn standard(alloc: Global, query: Query) -> Result<Option<Question>, AllocError>
    ensures { IfOk result (λ question. question ≡ option_map (λ constants. (query, constants))
        (taken_by query (standard_constants query))) }
{
    match Question::standard(alloc, query) {
        Ok(question) => Ok(Some(question)),
        Err(QuestionError::Refused(_, _)) => Ok(None),
        Err(QuestionError::OutOfMemory(_)) => Err(AllocError),
    }
}

// The question of a query with constants, if there are some and it takes them.
fn taken(
    alloc: Global,
    query: Query,
    constants: Option<Vec<Value>>,
) -> Result<Option<Question>, AllocError>
    ensures { IfOk result (λ question. question ≡ option_map (λ constants. (query, constants))
        (option_and_then (taken_by query) (option_map (λ constants. constants.items) constants))) }
{
    let Some(constants) = constants else {
        return Ok(None);
    };
    match Question::with(alloc, query, constants) {
        Ok(question) => Ok(Some(question)),
        Err(QuestionError::Refused(_, _)) => Ok(None),
        Err(QuestionError::OutOfMemory(_)) => Err(AllocError),
    }
}

// The question of a query with constants of these kinds, where its record gives none or all from a place on.
fn question_of_kinds(
    alloc: Global,
    query: Query,
    kinds: &[ConstantKind],
    place: usize,
    fields: &ByteRecord,
) -> Result<Option<Question>, AllocError>
    requires { place < 2 ^ 32 }
    ensures { IfOk result (λ question. question ≡ option_map (λ constants. (query, constants))
        (option_and_then (taken_by query) (constants_given place query (Some kinds.now) (fields_of fields.now)))) }
{
    if has_columns(fields, place) {
        return standard(alloc, query);
    }
    if !has_columns(fields, place + kinds.len()) {
        return Ok(None);
    }
    taken(alloc, query, constants_from(alloc, place, kinds, fields)?)
}

// The question of `star` with the constants that its record gives from a place on.
fn question_of_clauses(
    alloc: Global,
    query: Query,
    place: usize,
    fields: &ByteRecord,
) -> Result<Option<Question>, AllocError>
    ensures { IfOk result (λ question. question ≡ option_map (λ constants. (query, constants))
        (option_and_then (taken_by query) (constants_given place query None (fields_of fields.now)))) }
{
    let columns = columns(alloc, place, fields)?;
    taken(
        alloc,
        query,
        texts_spelled(alloc, without_closing(columns.as_slice()))?,
    )
}

// The question of a query with the constants that its record gives from a place on.
#[tactic(auto, unfolding(crate::specs::Lines::constants_at))]
fn question_over(
    alloc: Global,
    query: Query,
    place: usize,
    fields: &ByteRecord,
) -> Result<Option<Question>, AllocError>
    requires { place < 2 ^ 32 }
    ensures { IfOk result (λ question. question ≡ option_map (λ constants. (query, constants))
        (spec.constants_at place query (fields_of fields.now))) }
{
    match query.constant_kinds() {
        Some(kinds) => question_of_kinds(alloc, query, kinds, place, fields),
        None => question_of_clauses(alloc, query, place, fields),
    }
}

/// The question whose query's name stands at one place of a record, and whose constants from another on, both counted
/// from 0, if the record asks one.
pub fn question_at(
    alloc: Global,
    name: usize,
    place: usize,
    fields: &ByteRecord,
) -> Result<Option<Question>, AllocError>
    requires { place < 2 ^ 32 }
    ensures { IfOk result (λ question. question ≡ spec.question_at name place (fields_of fields.now)) }
{
    match query_named(trimmed_at(fields, name)) {
        Some(query) => question_over(alloc, query, place, fields),
        None => Ok(None),
    }
}
