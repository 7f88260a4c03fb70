//! Texts put together.

ghost use Rattle.std.specs.Prelude.{◌≡◌, ◌==◌, ◌++◌, ◌<◌, IfOk, map};
ghost use Rattle.std.specs.List.{slice_split};
ghost use Rattle.std.specs.String.{string_bytes};
ghost use Rattle.ssb_explain.specs.Texts as spec;

use std::alloc::{AllocError, Global};

/// The texts, with a text between each two.
pub fn joined(alloc: Global, between: &str, texts: &[String]) -> Result<String, AllocError>
    ensures { IfOk result (λ text. string_bytes text ≡ spec.joined between.now (map string_bytes texts.now)) }
{
    texts.join(alloc, between)
}

/// The texts, with a comma between each two.
pub fn commas(alloc: Global, texts: &[String]) -> Result<String, AllocError>
    ensures { IfOk result (λ text. string_bytes text ≡ spec.commas (map string_bytes texts.now)) }
{
    joined(alloc, ", ", texts)
}

// The parts of a text between the bytes that are this one.
fn parts(alloc: Global, byte: char, text: &str) -> Result<Vec<&str>, AllocError>
    requires { byte < 128 }
    ensures { IfOk result (λ parts. map (λ part. part.now) parts.items ≡ slice_split (λ b. b == byte) text.now) }
{
    text.split(byte).collect(alloc)
}

/// The text with another one in place of each byte that is this one.
pub fn replaced(alloc: Global, byte: char, other: &str, text: &str) -> Result<String, AllocError>
    requires { byte < 128 }
    ensures { IfOk result (λ made. string_bytes made ≡ spec.replaced byte other.now text.now) }
{
    let parts = parts(alloc, byte, text)?;
    parts.as_slice().join(alloc, other)
}

/// Three texts, one after another.
pub fn three(alloc: Global, first: &str, second: &str, third: &str) -> Result<String, AllocError>
    ensures { IfOk result (λ text. string_bytes text ≡ first.now ++ (second.now ++ third.now)) }
{
    let mut text = String::from_str(alloc, first)?;
    text.push_str(second)?;
    text.push_str(third)?;
    Ok(text)
}
