//! Records that begin with a word, read directly off the start of a text where nothing in them is odd.
//!
//! The records of csv stay the rule: what is read here is what they are ([`crate::records`]). Whatever is not plainly
//! such a record, which ends with a line feed, is left to them.

ghost use Rattle.std.specs.Prelude.{◌≡◌, [], ◌∷◌, IfSome};
ghost use Rattle.ssb_schema.specs.Rows.{line_values};
ghost use Rattle.ssb_text.specs.Direct.{BeginsWithField, BeginsWithLined, BeginsWithNumbered, BeginsWithRecord};
ghost use Rattle.ssb_text.specs.Direct.{EndsWithNumber, IsWord};

use crate::direct::{field_length, take_line};
use crate::layout::BAR;
use crate::spelling::trimmed;
use ssb_schema::{Line, number};
use std::alloc::Global;

// What stands behind a text's first byte, where it is this one.
fn take_byte(text: &[u8], byte: u8) -> Option<&[u8]>
    ensures { IfSome result (λ behind. text.now ≡ byte ∷ behind.now) }
{
    match text.split_first() {
        Some((first, behind)) if *first == byte => Some(behind),
        _ => None,
    }
}

/// What stands behind the first record of a text, where that is this word alone.
pub fn take_word<'a>(text: &'a [u8], word: &[u8]) -> Option<&'a [u8]>
    requires { IsWord word.now }
    ensures { IfSome result (λ behind. BeginsWithRecord text.now (word.now ∷ []) behind.now) }
{
    take_byte(text.strip_prefix(word)?, b'\n')
}

// What stands behind the bar of a text's first field, where that is this word.
fn take_first<'a>(text: &'a [u8], word: &[u8]) -> Option<&'a [u8]>
    requires { IsWord word.now }
    ensures { IfSome result (λ behind. BeginsWithField text.now word.now behind.now) }
{
    take_byte(text.strip_prefix(word)?, BAR)
}

// The number in the last field of a record, and what stands behind the record.
fn take_last_number(text: &[u8]) -> Option<(u64, &[u8])>
    ensures { IfSome result (λ taken. EndsWithNumber text.now taken.0 taken.1.now) }
{
    let (field, end) = text.split_at(field_length(text));
    let behind = take_byte(end, b'\n')?;
    Some((number(trimmed(field))?, behind))
}

/// The number in the first record of a text, where that is this word and a number, and what stands behind the record.
pub fn take_numbered<'a>(text: &'a [u8], word: &[u8]) -> Option<(u64, &'a [u8])>
    requires { IsWord word.now }
    ensures { IfSome result (λ taken. BeginsWithNumbered word.now text.now taken.0 taken.1.now) }
{
    take_last_number(take_first(text, word)?)
}

/// The line in the first record of a text, where that is this word and the columns of a line that the schema takes, and
/// what stands behind the record.
pub fn take_lined<'a>(alloc: Global, text: &'a [u8], word: &[u8]) -> Option<(Line, &'a [u8])>
    requires { IsWord word.now }
    ensures { IfSome result (λ taken. BeginsWithLined word.now text.now (line_values taken.0) taken.1.now) }
{
    take_line(alloc, take_first(text, word)?)
}
