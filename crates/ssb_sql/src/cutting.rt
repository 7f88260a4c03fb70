//! A lexeme, cut off a text.
ghost use Rattle.std.specs.Prelude.{◌≡◌, option_map};
ghost use Rattle.ssb_sql.specs.Parts as spec;

use crate::lexeme::{Lexeme, front_of};

/// What stands at the front of a text, its bytes, and what stands behind it.
#[derive(Clone, Copy)]
pub(crate) struct Cut<'a> {
    pub lexeme: Lexeme,
    pub piece: &'a str,
    pub rest: &'a str,
}

/// What stands at the front of a text; none where it is empty, or begins with nothing that a statement has.
pub(crate) fn cut_off(text: &str) -> Option<Cut<'_>>
    ensures { option_map spec.cut_now result ≡ spec.cut text.now }
{
    let front = front_of(text.as_bytes())?;
    let (piece, rest) = text.split_at(front.size);
    Some(Cut {
        lexeme: front.lexeme,
        piece,
        rest,
    })
}

// The text behind a blank or a comment, where it begins with one.
fn behind_gap(text: &str) -> Option<&str>
    ensures { option_map (λ rest. rest.now) result ≡ spec.behind_gap text.now }
{
    match cut_off(text) {
        Some(own) => match own.lexeme {
            Lexeme::Gap => Some(own.rest),
            _ => None,
        },
        None => None,
    }
}

/// The text behind blanks and comments.
pub(crate) fn behind_gaps(text: &str) -> &str
    ensures { result.now ≡ spec.without_gaps text.now }
{
    let mut behind = text;
    for _number in 0..text.len() {
        match behind_gap(behind) {
            Some(rest) => behind = rest,
            None => return behind,
        }
    }
    behind
}

/// The text behind a mark, where it begins with the mark.
pub(crate) fn behind<'a>(text: &'a str, mark: &str) -> Option<&'a str>
    ensures { option_map (λ rest. rest.now) result ≡ spec.behind mark.now text.now }
{
    text.strip_prefix(mark)
}

// The text before a quote at its end.
fn before_quote<'a>(text: &'a str) -> Option<&'a str>
    ensures { option_map (λ before. before.now) result ≡ spec.before_last 39 text.now }
{
    text.strip_suffix('\'')
}

/// The text between two quotes.
pub(crate) fn between_quotes<'a>(quoted: &'a str) -> Option<&'a str>
    ensures { option_map (λ text. text.now) result ≡ spec.between_quotes quoted.now }
{
    match behind(quoted, "'") {
        Some(text) => before_quote(text),
        None => None,
    }
}
