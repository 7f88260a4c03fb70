//! The fields of a typed line.

ghost use Rattle.std.specs.Prelude.{◌≡◌, map, IfOk};
ghost use Rattle.std.specs.Char.{is_ascii_whitespace};
ghost use Rattle.std.specs.List.{filter, slice_split};
ghost use Rattle.terminal.specs.Typed as spec;
ghost use Rattle.terminal.specs.Typed.{has_bytes, is_bar};

use std::alloc::{AllocError, Global};

/// Whether two texts have the same letters, in any case.
pub(crate) fn are_alike(one: &[u8], other: &[u8]) -> bool
    ensures { result ≡ spec.are_alike one.now other.now }
{
    one.eq_ignore_ascii_case(other)
}

/// Bytes without the blanks around them: spaces, tabs and ends of line.
pub(crate) fn trimmed(bytes: &[u8]) -> &[u8]
    ensures { result.now ≡ spec.trimmed bytes.now }
{
    bytes.trim_ascii()
}

/// Whether bars part the fields of a text.
pub(crate) fn is_barred(text: &[u8]) -> bool
    ensures { result ≡ spec.is_barred text.now }
{
    text.contains(&b'|')
}

// A text without a `;` at its end.
fn without_mark(text: &[u8]) -> &[u8]
    ensures { result.now ≡ spec.without_mark text.now }
{
    let length = text.len();
    if length > 0 && text[length - 1] == b';' {
        &text[..length - 1]
    } else {
        text
    }
}

/// What a line says: it without the blanks around it, and without a `;` at its end where no bar parts its fields.
pub(crate) fn said(line: &[u8]) -> &[u8]
    ensures { result.now ≡ spec.said line.now }
{
    let text = trimmed(line);
    if is_barred(text) {
        text
    } else {
        trimmed(without_mark(text))
    }
}

/// What stands between the bars of a text.
pub(crate) fn between_bars(alloc: Global, text: &[u8]) -> Result<Vec<&[u8]>, AllocError>
    ensures { IfOk result (λ fields. map (λ field. field.now) fields.items ≡ slice_split is_bar text.now) }
{
    text.split(|byte| *byte == b'|').collect(alloc)
}

/// What stands between the bars of a text, if anything does.
pub(crate) fn filled_fields(alloc: Global, text: &[u8]) -> Result<Vec<&[u8]>, AllocError>
    ensures { IfOk result (λ fields. map (λ field. field.now) fields.items
        ≡ filter has_bytes (slice_split is_bar text.now)) }
{
    text.split(|byte| *byte == b'|')
        .filter(|word| !word.is_empty())
        .collect(alloc)
}

/// What stands between the blanks of a text.
pub(crate) fn words_of(alloc: Global, text: &[u8]) -> Result<Vec<&[u8]>, AllocError>
    ensures { IfOk result (λ words. map (λ word. word.now) words.items
        ≡ filter has_bytes (slice_split is_ascii_whitespace text.now)) }
{
    text.split(|byte| byte.is_ascii_whitespace())
        .filter(|word| !word.is_empty())
        .collect(alloc)
}
