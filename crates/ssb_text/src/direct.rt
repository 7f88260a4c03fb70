//! The lines of a block, read directly off its bytes where nothing in them is odd.
//!
//! The records of csv stay the rule: what is read here is what they are ([`crate::records`]). Whatever is not plainly a
//! line, as a CR, a field that is no number of up to 19 digits or a row that the schema refuses, is left to them.

ghost use Rattle.std.specs.Prelude.{◌≡◌, ◌≤◌, false, not, true, IfOk, IfSome, length, map, take};
ghost use Rattle.std.specs.List.{list_all};
ghost use Rattle.ssb_schema.specs.Columns.{is_plain_byte};
ghost use Rattle.ssb_schema.specs.Rows.{line_values};
ghost use Rattle.ssb_text.specs.Direct.{BeginsWithLine, BeginsWithNumber, BeginsWithRow, BeginsWithText, EndsLine};
ghost use Rattle.ssb_text.specs.Direct.{EndsWithText};
ghost use Rattle.ssb_text.specs.Lines.{SpellsAll};
ghost use Rattle.ssb_text.specs.TextLines.{HasNoMark};

use crate::layout::BAR;
use crate::records::ReadError;
use crate::spelling::{text as spelled, trimmed};
use ssb_schema::{Line, LineFields, LineTexts};
use std::alloc::Global;

// The first byte of a byte order mark.
const MARK: u8 = 0xEF;

// How many digits always write a number of 64 bits.
const DIGITS: usize = 19;

// The number in the first field of a text, and what stands behind the field's bar. Inlined, since a line reads a dozen.
#[inline(always)]
fn take_number(text: &[u8]) -> Option<(u64, &[u8])>
    ensures { IfSome result (λ taken. BeginsWithNumber text.now taken.0 taken.1.now) }
{
    let mut value = 0u64;
    for (at, b) in text.iter().enumerate() {
        if *b == BAR && at > 0 {
            return Some((value, &text[at + 1..]));
        }
        if !b.is_ascii_digit() || at >= DIGITS {
            return None;
        }
        value = value * 10 + u64::from(*b - b'0');
    }
    None
}

// Whether a byte ends a field.
fn ends_field(byte: u8) -> bool
    ensures { result ≡ not (is_plain_byte byte) }
{
    byte == BAR || byte == b'\n' || byte == b'\r'
}

/// How many bytes the first field of a text has.
pub(crate) fn field_length(text: &[u8]) -> usize
    ensures within { result ≤ length text.now }
    ensures plain { list_all is_plain_byte (take result text.now) ≡ true }
{
    for (at, b) in text.iter().enumerate() {
        if ends_field(*b) {
            return at;
        }
    }
    text.len()
}

// The text in the first field, and what stands behind the field's bar.
fn take_text(text: &[u8]) -> Option<(&str, &[u8])>
    ensures { IfSome result (λ taken. BeginsWithText text.now taken.0.now taken.1.now) }
{
    let (field, end) = text.split_at(field_length(text));
    match end {
        [BAR, behind @ ..] => Some((spelled(trimmed(field))?, behind)),
        _ => None,
    }
}

// What stands behind the end of a line.
fn take_end(end: &[u8]) -> Option<&[u8]>
    ensures { IfSome result (λ behind. EndsLine end.now behind.now) }
{
    let rest = match end {
        [BAR, rest @ ..] => rest,
        _ => end,
    };
    match rest {
        [] => Some(rest),
        [b'\n', behind @ ..] => Some(behind),
        _ => None,
    }
}

// The text in the last field of a line, and what stands behind the line's end.
fn take_last(text: &[u8]) -> Option<(&str, &[u8])>
    ensures { IfSome result (λ taken. EndsWithText text.now taken.0.now taken.1.now) }
{
    let (field, end) = text.split_at(field_length(text));
    Some((spelled(trimmed(field))?, take_end(end)?))
}

// The values of the first line of a text, and what stands behind the line.
fn take_fields(alloc: Global, text: &[u8]) -> Option<(LineFields, &[u8])>
    ensures { IfSome result (λ taken. BeginsWithRow text.now (line_values taken.0) taken.1.now) }
{
    let (order_key, text) = take_number(text)?;
    let (line_number, text) = take_number(text)?;
    let (customer_key, text) = take_number(text)?;
    let (part_key, text) = take_number(text)?;
    let (supplier_key, text) = take_number(text)?;
    let (order_date, text) = take_number(text)?;
    let (order_priority, text) = take_text(text)?;
    let (ship_priority, text) = take_text(text)?;
    let (quantity, text) = take_number(text)?;
    let (extended_price, text) = take_number(text)?;
    let (order_total_price, text) = take_number(text)?;
    let (discount, text) = take_number(text)?;
    let (revenue, text) = take_number(text)?;
    let (supply_cost, text) = take_number(text)?;
    let (tax, text) = take_number(text)?;
    let (commit_date, text) = take_number(text)?;
    let (ship_mode, text) = take_last(text)?;
    let texts = LineTexts::new(alloc, order_priority, ship_priority, ship_mode).ok()?;
    let fields = LineFields {
        order_key,
        line_number,
        customer_key,
        part_key,
        supplier_key,
        order_date,
        quantity,
        extended_price,
        order_total_price,
        discount,
        revenue,
        supply_cost,
        tax,
        commit_date,
        texts,
    };
    Some((fields, text))
}

/// The first line of a text, and what stands behind it.
pub(crate) fn take_line(alloc: Global, text: &[u8]) -> Option<(Line, &[u8])>
    ensures { IfSome result (λ taken. BeginsWithLine text.now (line_values taken.0) taken.1.now) }
{
    let (fields, behind) = take_fields(alloc, text)?;
    match Line::new(fields) {
        Ok(line) => Some((line, behind)),
        Err(_) => None,
    }
}

/// Whether a text may begin with a byte order mark, which its records are without.
pub fn may_be_marked(text: &[u8]) -> bool
    ensures { result ≡ false → HasNoMark text.now }
{
    match text.split_first() {
        Some((first, _)) => *first == MARK,
        None => false,
    }
}

/// Puts the lines of a block in place of those that were there, and says whether it took the whole block.
pub(crate) fn read_directly(
    alloc: Global,
    block: &[u8],
    lines: &mut Vec<Line>,
) -> Result<bool, ReadError>
    ensures { IfOk result (λ whole. whole ≡ true → SpellsAll block.now (map line_values lines.new.items)) }
{
    lines.clear();
    if may_be_marked(block) {
        return Ok(false);
    }
    let mut rest = block;
    while let Some((first, behind)) = rest.split_first() {
        if *first == b'\n' {
            rest = behind;
            continue;
        }
        let Some((line, behind)) = take_line(alloc, rest) else {
            return Ok(false);
        };
        if lines.push(line).is_err() {
            return Err(ReadError::OutOfMemory);
        }
        rest = behind;
    }
    Ok(true)
}
