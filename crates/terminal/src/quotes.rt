//! Quotes in a typed line: a blank between them parts nothing.

ghost use Rattle.std.specs.Prelude.{◌≡◌, ◌++◌, IfOk, OnOk};
ghost use Rattle.terminal.specs.Typed as spec;

use std::alloc::{AllocError, Global};

// No quote is open.
const NONE: u8 = 0;

fn is_quote(byte: u8) -> bool
    ensures { result ≡ spec.is_quote byte }
{
    byte == b'\'' || byte == b'"'
}

// The quote that is open behind a byte, where this one, or none, is open before it.
fn quote_behind(quote: u8, byte: u8) -> u8
    ensures { result ≡ spec.quote_behind quote byte }
{
    if quote == NONE {
        if is_quote(byte) { byte } else { NONE }
    } else if byte == quote {
        NONE
    } else {
        quote
    }
}

// The quote that is open at the end of a text.
fn open_at_end(text: &[u8]) -> u8
    ensures { result ≡ spec.open_behind 0 text.now }
{
    let mut quote = NONE;
    for byte in text {
        quote = quote_behind(quote, *byte);
    }
    quote
}

/// Whether a text has quotes, and each of them is closed.
pub(crate) fn is_quoted(text: &[u8]) -> bool
    ensures { result ≡ spec.is_quoted text.now }
{
    text.iter().any(|byte| is_quote(*byte)) && open_at_end(text) == NONE
}

// Appends what a byte stands for, where this quote, or none, is open before it.
fn push_meant(text: &mut Vec<u8>, quote: u8, byte: u8) -> Result<(), AllocError>
    ensures { OnOk result (text.new.items ≡ text.old.items ++ spec.meant_by quote byte) }
{
    if quote_behind(quote, byte) != quote {
        return Ok(());
    }
    if quote == NONE && byte.is_ascii_whitespace() {
        text.push(b'|')?;
    } else {
        text.push(byte)?;
    }
    Ok(())
}

/// A text without its quotes, in which bars stand for the blanks outside of them.
pub(crate) fn unquoted(alloc: Global, text: &[u8]) -> Result<Vec<u8>, AllocError>
    ensures { IfOk result (λ meant. meant.items ≡ spec.unquoted 0 text.now) }
{
    let mut meant = Vec::new(alloc);
    let mut quote = NONE;
    for byte in text {
        push_meant(&mut meant, quote, *byte)?;
        quote = quote_behind(quote, *byte);
    }
    Ok(meant)
}
