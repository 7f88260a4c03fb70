//! Dense numbers for the codes of a group column.
ghost use Rattle.std.specs.Prelude.{◌≡◌, ◌≢◌, ◌⊎◌, ℕ, ◌<◌, ◌≤◌, ◌+◌, [], ◌∷◌, ◌++◌, All, IfOk, OnOk, length};
ghost use Rattle.std.specs.Prelude.{slice_index, vec_len, nat_eq};
ghost use Rattle.std.specs.Int.{bit_at};
ghost use Rattle.scan_kernel.specs.Masks.{questions_a_pass};
ghost use Rattle.scan_kernel.specs.Places.{mask_in};
ghost use Rattle.shared_scan.specs.Numbering.{AreNumbered, HasMasks, IsTaken, IsUsed};

use ssb_schema::Items;
use std::alloc::{AllocError, Global};

/// The codes that have a number, by number, and the number of each code; a code without has `NONE`.
#[derive(Drop)]
pub struct Numbering {
    pub kept: Vec<u32>,
    pub numbers: Vec<u32>,
}

/// Stands for no number.
pub const NONE: u32 = u32::MAX;

fn no_numbers(alloc: Global, count: usize) -> Result<Vec<u32>, AllocError>
    ensures len { IfOk result (λ v. vec_len v ≡ count) }
    ensures none { IfOk result (λ v. (code : ℕ) → code < count → slice_index v.items code ≡ 4294967295) }
{
    vec![in alloc; NONE; count]
}

/// Gives the code a number if it has none.
fn number_code(numbering: &mut Numbering, code: u32) -> Result<(), AllocError>
    requires code { code < vec_len numbering.old.numbers }
    requires room { vec_len numbering.old.kept < 4294967295 }
    requires was { AreNumbered numbering.old.numbers.items numbering.old.kept.items }
    ensures is { OnOk result (AreNumbered numbering.new.numbers.items numbering.new.kept.items) }
    ensures grows { vec_len numbering.new.kept ≤ vec_len numbering.old.kept + 1 }
    ensures keeps_or_adds { OnOk result ((numbering.new.kept.items ≡ numbering.old.kept.items)
        ⊎ (numbering.new.kept.items ≡ numbering.old.kept.items ++ code ∷ [])) }
    ensures len { vec_len numbering.new.numbers ≡ vec_len numbering.old.numbers }
    ensures has { OnOk result (slice_index numbering.new.numbers.items code ≢ 4294967295) }
    ensures keeps { OnOk result ((other : ℕ) → slice_index numbering.old.numbers.items other ≢ 4294967295
        → slice_index numbering.new.numbers.items other ≢ 4294967295) }
{
    if numbering.numbers[code as usize] == NONE {
        let number = numbering.kept.len() as u32;
        numbering.kept.push(code)?;
        numbering.numbers[code as usize] = number;
    }
    Ok(())
}

/// Whether a mask has the bit of a question.
pub fn has_bit(mask: u16, question: usize) -> bool
    requires { question < questions_a_pass }
    ensures { result ≡ nat_eq (bit_at mask question) 1 }
{
    (mask >> question) & 1 == 1
}

/// Sets in the mask of each row's code the bits of the row's mask.
fn mark(seen: &mut [u16], codes: &[u32], masks: &[u16])
    requires within { All (λ code. code < length seen.old) codes.now }
    requires masks { length codes.now ≤ length masks.now }
    ensures len { length seen.new ≡ length seen.old }
    ensures each { (p k : ℕ) → p < length codes.now → bit_at (slice_index masks.now p) k ≡ 1
        → bit_at (slice_index seen.new (slice_index codes.now p)) k ≡ 1 }
    ensures only { (code k : ℕ) → bit_at (slice_index seen.new code) k ≡ 1
        → (bit_at (slice_index seen.old code) k ≡ 1) ⊎ IsTaken codes.now (Some masks.now) k code }
{
    for row in 0..codes.len() {
        seen[codes[row] as usize] |= masks[row];
    }
}

/// Of each code, which questions take a row that has it, as a bit for each question.
fn seen_by(
    alloc: Global,
    codes: &[u32],
    count: usize,
    masks: &Option<Items<u16>>,
) -> Result<Vec<u16>, AllocError>
    requires within { All (λ code. code < count) codes.now }
    requires masks { (p : ℕ) → p < length codes.now → HasMasks masks.now p }
    ensures len { IfOk result (λ seen. length seen.items ≡ count) }
    ensures each { IfOk result (λ seen. (p k : ℕ) → p < length codes.now → k < questions_a_pass
        → bit_at (mask_in masks.now p) k ≡ 1 → bit_at (slice_index seen.items (slice_index codes.now p)) k ≡ 1) }
    ensures only { IfOk result (λ seen. (code k : ℕ) → code < count → k < questions_a_pass → IsUsed codes.now code
        → bit_at (slice_index seen.items code) k ≡ 1 → IsTaken codes.now masks.now k code) }
{
    match masks {
        Some(masks) => {
            let mut seen = vec![in alloc; 0; count]?;
            mark(&mut seen, codes, masks.as_slice());
            Ok(seen)
        }
        None => vec![in alloc; u16::MAX; count],
    }
}

/// Numbers the codes that a question sees, in their order.
fn number_seen(alloc: Global, seen: &[u16], question: usize) -> Result<Numbering, AllocError>
    requires question { question < questions_a_pass }
    requires few { length seen.now < 4294967295 }
    ensures len { IfOk result (λ numbering. vec_len numbering.numbers ≡ length seen.now) }
    ensures few { IfOk result (λ numbering. vec_len numbering.kept ≤ length seen.now) }
    ensures numbered { IfOk result (λ numbering. AreNumbered numbering.numbers.items numbering.kept.items) }
    ensures each { IfOk result (λ numbering. (code : ℕ) → code < length seen.now
        → bit_at (slice_index seen.now code) question ≡ 1 → slice_index numbering.numbers.items code ≢ 4294967295) }
    ensures only { IfOk result (λ numbering. (number : ℕ) → number < length numbering.kept.items
        → bit_at (slice_index seen.now (slice_index numbering.kept.items number)) question ≡ 1) }
{
    let numbers = no_numbers(alloc, seen.len())?;
    let mut numbering = Numbering {
        kept: Vec::new(alloc),
        numbers,
    };
    for code in 0..seen.len() {
        if has_bit(seen[code], question) {
            number_code(&mut numbering, code as u32)?;
        }
    }
    Ok(numbering)
}

/// Numbers the codes of the rows that a question takes, in the order of the codes.
pub fn number_codes(
    alloc: Global,
    codes: &[u32],
    count: usize,
    masks: &Option<Items<u16>>,
    question: usize,
) -> Result<Numbering, AllocError>
    requires question { question < questions_a_pass }
    requires few { count < 4294967295 }
    requires within { All (λ code. code < count) codes.now }
    requires masks { (p : ℕ) → p < length codes.now → HasMasks masks.now p }
    ensures len { IfOk result (λ numbering. vec_len numbering.numbers ≡ count) }
    ensures few { IfOk result (λ numbering. vec_len numbering.kept ≤ count) }
    ensures numbered { IfOk result (λ numbering. AreNumbered numbering.numbers.items numbering.kept.items) }
    ensures each { IfOk result (λ numbering. (p : ℕ) → p < length codes.now
        → bit_at (mask_in masks.now p) question ≡ 1
        → slice_index numbering.numbers.items (slice_index codes.now p) ≢ 4294967295) }
    ensures only { IfOk result (λ numbering. (number : ℕ) → number < length numbering.kept.items
        → IsUsed codes.now (slice_index numbering.kept.items number)
        → IsTaken codes.now masks.now question (slice_index numbering.kept.items number)) }
{
    let seen = seen_by(alloc, codes, count, masks)?;
    let numbering = number_seen(alloc, &seen, question)?;
    Ok(numbering)
}
