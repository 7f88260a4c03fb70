//! The group columns of a question, made ready.
ghost use Rattle.std.specs.Prelude.{◌≡◌, ◌≢◌, ℕ, ◌<◌, ◌≤◌, ◌*◌, ◌^◌, All, IfOk, length, map, slice_index};
ghost use Rattle.std.specs.Prelude.{slice_index_or};
ghost use Rattle.ssb_questions.specs.declared.value.Value.TheVariants.{Number};
ghost use Rattle.dimension_index.specs.Values.{values_of};
ghost use Rattle.ssb_base.specs.Limits.{most_dimension_rows};
ghost use Rattle.scan_kernel.specs.Masks.{questions_a_pass};
ghost use Rattle.shared_scan.specs.Numbering.{HasMasks, IsPreparedColumn};

use crate::numbering::{NONE, number_codes};
use dimension_index::{Dictionary, FirstRows};
use ssb_answers::Value;
use ssb_schema::{Column, Items};
use std::alloc::{AllocError, Global};

/// The values of codes.
fn values_at(
    alloc: Global,
    dictionary: &Dictionary,
    codes: &[u32],
) -> Result<Items<Value>, AllocError>
    requires { All (λ code. code < length dictionary.now) codes.now }
    ensures { IfOk result (λ values. values ≡ map (λ code. slice_index_or dictionary.now code (Number 0)) codes.now) }
{
    let mut values = Vec::with_capacity(alloc, codes.len())?;
    for code in codes {
        values.push(dictionary.value(*code).clone()?)?;
    }
    Ok(Items::from_vec(values))
}

/// A number times the step; where a code has no number, no row reads what it adds.
fn part(number: u32, step: u128) -> u128
    ensures { number ≢ 4294967295 → number * step < 2 ^ 128 → result ≡ number * step }
{
    if number == NONE {
        return 0;
    }
    u128::from(number).wrapping_mul(step)
}

/// Makes parts of numbers below a count: each times the step.
fn parts_of(alloc: Global, numbers: &[u32], count: u32, step: u128) -> Result<Vec<u128>, AllocError>
    requires below { (code : ℕ) → code < length numbers.now → slice_index numbers.now code ≢ 4294967295
        → slice_index numbers.now code < count }
    requires fits { count * step < 2 ^ 128 }
    ensures len { IfOk result (λ parts. length parts.items ≡ length numbers.now) }
    ensures each { IfOk result (λ parts. (code : ℕ) → code < length numbers.now
        → slice_index numbers.now code ≢ 4294967295 → slice_index parts.items code ≡ slice_index numbers.now code *
        step) }
{
    let mut parts = Vec::with_capacity(alloc, numbers.len())?;
    for number in numbers {
        parts.push(part(*number, step))?;
    }
    Ok(parts)
}

/// A group column made ready for a question: its values by number, and what each code of the column adds to the number
/// of a group.
#[derive(Drop)]
pub struct GroupPart {
    pub column: Column,
    pub values: Items<Value>,
    pub parts: Vec<u128>,
}

/// Makes a group column ready for a question, where numbers of groups so far are below the step.
pub fn prepare(
    alloc: Global,
    index: &FirstRows,
    column: Column,
    masks: &Option<Items<u16>>,
    question: usize,
    step: u128,
) -> Result<GroupPart, AllocError>
    requires question { question < questions_a_pass }
    requires few { length (values_of index.now column) ≤ most_dimension_rows }
    requires step { step ≤ 2 ^ 60 }
    requires masks { (p : ℕ) → p < length (values_of index.now column) → HasMasks masks.now p }
    ensures column { IfOk result (λ part. part.column ≡ column) }
    ensures prepared { IfOk result (λ part. IsPreparedColumn (values_of index.now column) masks.now question step
        part.values part.parts.items) }
    ensures few { IfOk result (λ part. length part.values ≤ most_dimension_rows) }
{
    let codes = index.codes_of(column);
    let numbering = number_codes(alloc, codes, index.codes(column), masks, question)?;
    let values = values_at(alloc, index.dictionary(column), &numbering.kept)?;
    let count = numbering.kept.len() as u32;
    let parts = parts_of(alloc, &numbering.numbers, count, step)?;
    Ok(GroupPart {
        column,
        values,
        parts,
    })
}
