//! A text, cut into its parts: one token each.
ghost use Rattle.std.specs.Prelude.{◌≡◌, Some, option_map};
ghost use Rattle.ssb_sql.specs.Texts.{bare_token};
ghost use Rattle.ssb_sql.specs.Parts as spec;

use crate::cutting::{Cut, behind, behind_gaps, between_quotes, cut_off};
use crate::lexeme::Lexeme;
use crate::token::{SqlToken, SqlWord};
use crate::words::{same_word, table_with, token_of};
use ssb_questions::Spelled;
use ssb_schema::{Table, number};

/// A token, what it begins with, the table whose column it is where a name stands before it, and what stands behind.
#[derive(Clone, Copy)]
pub(crate) struct Part<'a> {
    pub first: &'a str,
    pub token: SqlToken<'a>,
    pub table: Option<Table>,
    pub rest: &'a str,
}

/// What is wrong in the place of a part.
#[derive(Clone, Copy)]
pub(crate) enum NoPart {
    Bad,
    UnknownName,
}

fn plain<'a>(first: &'a str, rest: &'a str, token: SqlToken<'a>) -> Result<Part<'a>, NoPart>
    ensures { spec.part_read result ≡ Some (spec.plain first.now rest.now (bare_token token.entry)) }
{
    Ok(Part {
        first,
        token,
        table: None,
        rest,
    })
}

fn number_part<'a>(digits: &'a str, rest: &'a str) -> Result<Part<'a>, NoPart>
    ensures { spec.part_read result ≡ option_map (spec.plain digits.now rest.now) (spec.number_token digits.now) }
{
    match number(digits.as_bytes()) {
        Some(n) if n < 4_294_967_296 => { plain(digits, rest, SqlToken::Value(Spelled::Number(n))) }
        Some(n) => plain(digits, rest, SqlToken::Large(n)),
        None => Err(NoPart::Bad),
    }
}

fn text_part<'a>(quoted: &'a str, rest: &'a str) -> Result<Part<'a>, NoPart>
    ensures { spec.part_read result ≡ option_map (spec.plain quoted.now rest.now) (spec.text_token quoted.now) }
{
    match between_quotes(quoted) {
        Some(text) => plain(quoted, rest, SqlToken::Value(Spelled::Text(text))),
        None => Err(NoPart::Bad),
    }
}

// COLLATE, with the "C" behind it.
fn collated<'a>(word: &'a str, rest: &'a str) -> Result<Part<'a>, NoPart>
    ensures { spec.part_read result ≡ spec.collated word.now rest.now }
{
    match behind(behind_gaps(rest), "\"C\"") {
        Some(rest) => plain(word, rest, SqlToken::Word(SqlWord::ByBytes)),
        None => Err(NoPart::Bad),
    }
}

// A column, behind a name and a point.
fn qualified<'a>(first: &'a str, text: &'a str) -> Result<Part<'a>, NoPart>
    ensures { spec.part_read result ≡ spec.qualified first.now (spec.cut text.now) }
{
    match cut_off(text) {
        Some(
            Cut {
                lexeme: Lexeme::Word,
                piece,
                rest,
            },
        ) => match table_with(piece) {
            Some(table) => Ok(Part {
                first,
                token: token_of(piece),
                table: Some(table),
                rest,
            }),
            None => Err(NoPart::UnknownName),
        },
        _ => Err(NoPart::Bad),
    }
}

fn word_part<'a>(word: &'a str, rest: &'a str) -> Result<Part<'a>, NoPart>
    ensures { spec.part_read result ≡ spec.word_part word.now rest.now }
{
    if same_word(word, "COLLATE") {
        return collated(word, rest);
    }
    match behind(rest, ".") {
        Some(others) => qualified(word, others),
        None => plain(word, rest, token_of(word)),
    }
}

fn part_of<'a>(own: Cut<'a>) -> Result<Part<'a>, NoPart>
    ensures { spec.part_read result ≡ spec.part_as own.entry.lexeme own.entry.piece.now own.entry.rest.now }
{
    let Cut {
        lexeme,
        piece,
        rest,
    } = own;
    match lexeme {
        Lexeme::Word => word_part(piece, rest),
        Lexeme::Number => number_part(piece, rest),
        Lexeme::Text => text_part(piece, rest),
        Lexeme::Mark(mark) => plain(piece, rest, SqlToken::Mark(mark)),
        Lexeme::Gap | Lexeme::Point => Err(NoPart::Bad),
    }
}

/// The part that a text begins with.
pub(crate) fn next_part<'a>(text: &'a str) -> Result<Part<'a>, NoPart>
    ensures { spec.part_read result ≡ spec.next_part text.now }
{
    match cut_off(text) {
        Some(own) => part_of(own),
        None => Err(NoPart::Bad),
    }
}
