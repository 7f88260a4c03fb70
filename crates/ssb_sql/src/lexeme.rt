//! What stands at the front of a text.
ghost use Rattle.std.specs.Prelude.{◌≡◌, true, false, length, ◌≤◌, IfSome};
ghost use Rattle.ssb_sql.specs.Lexemes as spec;

use crate::token::Mark;

/// What parts of a text are.
#[derive(Clone, Copy)]
pub(crate) enum Lexeme {
    /// Blanks, ends of lines, or a comment.
    Gap,
    /// Letters, digits and `_`, with no digit first.
    Word,
    /// Digits, with no letter behind them.
    Number,
    /// A text between `'`, in which `'` stands doubled.
    Text,
    /// A mark.
    Mark(Mark),
    /// `.`, between a table and its column.
    Point,
}

/// What stands at the front of a text: what it is, and how many bytes it has.
#[derive(Clone, Copy)]
pub(crate) struct Front {
    pub lexeme: Lexeme,
    pub size: usize,
}

/// A class of bytes.
#[derive(Clone, Copy)]
enum Class {
    /// Blanks and ends of lines.
    Blank,
    Digit,
    /// What words are made of.
    Word,
    /// All but the end of a line.
    Line,
}

fn is_in(class: Class, b: u8) -> bool
    ensures { result ≡ spec.is_in class b }
{
    match class {
        Class::Blank => b == b' ' || (b'\t' <= b && b <= b'\r'),
        Class::Digit => b.is_ascii_digit(),
        Class::Word => b.is_ascii_alphanumeric() || b == b'_',
        Class::Line => b != b'\n',
    }
}

// How many bytes of a class a text begins with.
fn run_len(class: Class, bytes: &[u8]) -> usize
    ensures len { result ≡ spec.run_len class bytes.now }
    ensures within { result ≤ length bytes.now }
{
    for (at, b) in bytes.iter().enumerate() {
        if !is_in(class, *b) {
            return at;
        }
    }
    bytes.len()
}

fn begins(byte: u8, bytes: &[u8]) -> bool
    ensures { result ≡ spec.begins byte bytes.now }
{
    match bytes {
        [] => false,
        [first, ..] => *first == byte,
    }
}

// The length of what stands behind `/*` in a comment; none where it does not end.
fn comment_len(bytes: &[u8]) -> Option<usize>
    ensures len { result ≡ spec.comment_len false bytes.now }
    ensures within { IfSome result (λ len. len ≤ length bytes.now) }
{
    let mut is_behind_star = false;
    for (at, b) in bytes.iter().enumerate() {
        if is_behind_star && *b == b'/' {
            return Some(at + 1);
        }
        is_behind_star = *b == b'*';
    }
    None
}

// Whether a text has ended before a byte: behind a quote, which another one does not double.
fn has_ended(is_within: bool, b: u8) -> bool
    ensures { result ≡ spec.has_ended is_within b }
{
    !is_within && b != b'\''
}

fn is_within_behind(is_within: bool, b: u8) -> bool
    ensures { result ≡ spec.is_within_behind is_within b }
{
    !(is_within && b == b'\'')
}

// The length of what stands behind the first quote of a text, with the last one; none where it does not end.
fn quoted_len(bytes: &[u8]) -> Option<usize>
    ensures len { result ≡ spec.quoted_len true bytes.now }
    ensures within { IfSome result (λ len. len ≤ length bytes.now) }
{
    let mut is_within = true;
    for (at, b) in bytes.iter().enumerate() {
        if has_ended(is_within, *b) {
            return Some(at);
        }
        is_within = is_within_behind(is_within, *b);
    }
    if is_within { None } else { Some(bytes.len()) }
}

fn sized(lexeme: Lexeme, size: usize) -> Option<Front>
    ensures { result ≡ spec.sized lexeme size }
{
    Some(Front { lexeme, size })
}

fn mark(own: Mark, size: usize) -> Option<Front>
    ensures { result ≡ spec.mark own size }
{
    sized(Lexeme::Mark(own), size)
}

fn may_follow_number(bytes: &[u8]) -> bool
    ensures { result ≡ spec.may_follow_number bytes.now }
{
    match bytes {
        [] => true,
        [first, ..] => !(is_in(Class::Word, *first) || *first == b'.'),
    }
}

fn number_at(bytes: &[u8]) -> Option<Front>
    ensures { result ≡ spec.number_at bytes.now }
{
    let size = run_len(Class::Digit, bytes);
    if may_follow_number(&bytes[size..]) {
        sized(Lexeme::Number, size)
    } else {
        None
    }
}

// A comment to its line's end, or `-`, by what stands behind the first byte.
fn minus_at(bytes: &[u8]) -> Option<Front>
    ensures { result ≡ spec.minus_at bytes.now }
{
    if begins(b'-', bytes) {
        sized(Lexeme::Gap, run_len(Class::Line, bytes) + 1)
    } else {
        mark(Mark::Minus, 1)
    }
}

// A comment up to its `*/`.
fn slash_at(bytes: &[u8]) -> Option<Front>
    ensures { result ≡ spec.slash_at bytes.now }
{
    match bytes {
        [b'*', behind @ ..] => sized(Lexeme::Gap, comment_len(behind)? + 2),
        _ => None,
    }
}

fn less_at(bytes: &[u8]) -> Option<Front>
    ensures { result ≡ spec.less_at bytes.now }
{
    if begins(b'=', bytes) {
        mark(Mark::LessOrEqual, 2)
    } else if begins(b'>', bytes) {
        mark(Mark::NotEqual, 2)
    } else {
        mark(Mark::Less, 1)
    }
}

fn greater_at(bytes: &[u8]) -> Option<Front>
    ensures { result ≡ spec.greater_at bytes.now }
{
    if begins(b'=', bytes) {
        mark(Mark::GreaterOrEqual, 2)
    } else {
        mark(Mark::Greater, 1)
    }
}

fn not_at(bytes: &[u8]) -> Option<Front>
    ensures { result ≡ spec.not_at bytes.now }
{
    if begins(b'=', bytes) {
        mark(Mark::NotEqual, 2)
    } else {
        None
    }
}

fn text_at(bytes: &[u8]) -> Option<Front>
    ensures { result ≡ spec.text_at bytes.now }
{
    sized(Lexeme::Text, quoted_len(bytes)? + 1)
}

// A mark of one byte.
fn single(b: u8) -> Option<Front>
    ensures { result ≡ spec.single b }
{
    match b {
        b'(' => mark(Mark::Open, 1),
        b')' => mark(Mark::Close, 1),
        b',' => mark(Mark::Comma, 1),
        b';' => mark(Mark::Semicolon, 1),
        b'*' => mark(Mark::Star, 1),
        b'=' => mark(Mark::Equal, 1),
        b'.' => sized(Lexeme::Point, 1),
        _ => None,
    }
}

// What a byte of no class begins, by what stands behind it.
fn mark_at(b: u8, behind: &[u8]) -> Option<Front>
    ensures { result ≡ spec.mark_at b behind.now }
{
    match b {
        b'-' => minus_at(behind),
        b'/' => slash_at(behind),
        b'<' => less_at(behind),
        b'>' => greater_at(behind),
        b'!' => not_at(behind),
        b'\'' => text_at(behind),
        b => single(b),
    }
}

/// What stands at the front of a text; none where it is empty, or begins with nothing that a statement has.
pub(crate) fn front_of(bytes: &[u8]) -> Option<Front>
    ensures { result ≡ spec.front_of bytes.now }
{
    match bytes {
        [] => None,
        [b, behind @ ..] => {
            if is_in(Class::Blank, *b) {
                sized(Lexeme::Gap, run_len(Class::Blank, bytes))
            } else if is_in(Class::Digit, *b) {
                number_at(bytes)
            } else if is_in(Class::Word, *b) {
                sized(Lexeme::Word, run_len(Class::Word, bytes))
            } else {
                mark_at(*b, behind)
            }
        }
    }
}
