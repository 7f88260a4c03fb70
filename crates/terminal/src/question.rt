//! What a session reads for a typed line.

ghost use Rattle.std.specs.Prelude.{◌≡◌, ◌++◌, map, option_map, IfOk, OnOk};
ghost use Rattle.std.specs.List.{flat_map};
ghost use Rattle.terminal.specs.Typed as spec;

use crate::fields::{are_alike, between_bars, filled_fields, is_barred, said, trimmed, words_of};
use crate::quotes::{is_quoted, unquoted};
use crate::record_word::{BARRED, BLANK, RecordWord};
use ssb_questions::{QUERIES_AND_STAR, Query};
use std::alloc::{AllocError, Global};

// The query that a field names, in any case.
fn query_named(field: &[u8]) -> Option<Query>
    ensures { result ≡ spec.query_named field.now }
{
    let name = trimmed(field);
    QUERIES_AND_STAR
        .iter()
        .copied()
        .find(|query| are_alike(query.name().as_bytes(), name))
}

// Whether a field is the word that asks.
fn asks(field: &[u8]) -> bool
    ensures { result ≡ spec.asks field.now }
{
    are_alike(b"query", trimmed(field))
}

/// A query that was named, and the fields behind its name.
#[derive(Clone, Copy)]
pub(crate) struct TypedQuestion<'a> {
    pub(crate) query: Query,
    pub(crate) constants: &'a [&'a [u8]],
}

// The question whose name is the first of these fields.
fn question_by_name<'a>(fields: &'a [&'a [u8]]) -> Option<TypedQuestion<'a>>
    ensures { option_map spec.question_in result ≡ spec.question_by_name (map (λ field. field.now) fields.now) }
{
    let [name, constants @ ..] = fields else {
        return None;
    };
    Some(TypedQuestion {
        query: query_named(name)?,
        constants,
    })
}

// The question that fields ask, with the word `query` before it or without.
fn question_of<'a>(fields: &'a [&'a [u8]]) -> Option<TypedQuestion<'a>>
    ensures { option_map spec.question_in result ≡ spec.question_of (map (λ field. field.now) fields.now) }
{
    match fields {
        [first, behind @ ..] if asks(first) => question_by_name(behind),
        _ => question_by_name(fields),
    }
}

// Appends fields to a record, each behind a bar.
fn push_fields(text: &mut Vec<u8>, fields: &[&[u8]]) -> Result<(), AllocError>
    ensures { OnOk result (text.new.items ≡ text.old.items
        ++ flat_map (λ field. spec.field_text field.now) fields.now) }
{
    for field in fields {
        text.push(b'|')?;
        text.extend_from_slice(trimmed(field))?;
    }
    Ok(())
}

// The beginning of a record that asks a query.
fn record_head(alloc: Global, query: Query) -> Result<Vec<u8>, AllocError>
    ensures { IfOk result (λ text. text.items ≡ spec.record_head query) }
{
    let mut text = Vec::new(alloc);
    text.extend_from_slice(b"query|")?;
    text.extend_from_slice(query.name().as_bytes())?;
    Ok(text)
}

// The record of a script that asks a question.
fn record_of(alloc: Global, query: Query, constants: &[&[u8]]) -> Result<Vec<u8>, AllocError>
    ensures { IfOk result (λ text. text.items
        ≡ spec.record_of (query, map (λ constant. constant.now) constants.now)) }
{
    let mut text = record_head(alloc, query)?;
    push_fields(&mut text, constants)?;
    text.push(b'\n')?;
    Ok(text)
}

// The record that asks what a line's fields ask, or else the line.
fn question_line(alloc: Global, line: &[u8], fields: &[&[u8]]) -> Result<Vec<u8>, AllocError>
    ensures { IfOk result (λ bytes. bytes.items
        ≡ spec.record_or_line line.now (spec.question_of (map (λ field. field.now) fields.now))) }
{
    match question_of(fields) {
        Some(TypedQuestion { query, constants }) => record_of(alloc, query, constants),
        None => line.to_vec(alloc),
    }
}

// The record of a word, with the fields behind it.
fn word_record(alloc: Global, word: RecordWord, behind: &[&[u8]]) -> Result<Vec<u8>, AllocError>
    ensures { IfOk result (λ text. text.items ≡ spec.word_record word (map (λ field. field.now) behind.now)) }
{
    let mut text = Vec::new(alloc);
    text.extend_from_slice(word.spelling())?;
    push_fields(&mut text, behind)?;
    text.push(b'\n')?;
    Ok(text)
}

// The record that a line's fields spell, which may begin with one of these words, or else the line.
fn record_spelled(
    alloc: Global,
    line: &[u8],
    words: &[RecordWord],
    fields: &[&[u8]],
) -> Result<Vec<u8>, AllocError>
    ensures { IfOk result (λ bytes. bytes.items
        ≡ spec.record_spelled line.now words.now (map (λ field. field.now) fields.now)) }
{
    let [first, behind @ ..] = fields else {
        return line.to_vec(alloc);
    };
    match RecordWord::among(words, first) {
        Some(word) => word_record(alloc, word, behind),
        None => question_line(alloc, line, fields),
    }
}

// The record that a quoted text spells, or else the line.
fn quoted_record(alloc: Global, line: &[u8], text: &[u8]) -> Result<Vec<u8>, AllocError>
    ensures { IfOk result (λ bytes. bytes.items ≡ spec.quoted_record line.now text.now) }
{
    let barred = unquoted(alloc, text)?;
    let fields = filled_fields(alloc, barred.as_slice())?;
    record_spelled(alloc, line, &BLANK, fields.as_slice())
}

// The record that a text spells whose fields blanks part, or else the line.
fn blank_record(alloc: Global, line: &[u8], text: &[u8]) -> Result<Vec<u8>, AllocError>
    ensures { IfOk result (λ bytes. bytes.items ≡ spec.blank_record line.now text.now) }
{
    if is_quoted(text) {
        return quoted_record(alloc, line, text);
    }
    let fields = words_of(alloc, text)?;
    record_spelled(alloc, line, &BLANK, fields.as_slice())
}

/// What a session reads for a line: a record that asks, where it begins with the name of a query, in any case, or with
/// the word `query` and a name; a record that begins with one of the other words, in any case, where blanks part its
/// fields; else the line itself. Where bars part the fields, of these words `format` alone may be in any case.
pub fn session_line(alloc: Global, line: &[u8]) -> Result<Vec<u8>, AllocError>
    ensures { IfOk result (λ bytes. bytes.items ≡ spec.session_line line.now) }
{
    let text = said(line);
    if !is_barred(text) {
        return blank_record(alloc, line, text);
    }
    let fields = between_bars(alloc, text)?;
    record_spelled(alloc, line, &BARRED, fields.as_slice())
}
