//! The masks of a batch: which plans take each row, as a bit for each plan.
//!
//! Each distinct value of a tested column is looked at once for each plan, and has a mask of its own: a plan that does
//! not test the column takes every value. A row's mask is then the `&` of those of its values.
ghost use Rattle.std.specs.Prelude.{◌≡◌, ℕ, ◌≤◌, ◌<◌, ◌/◌, ◌%◌, ◌&&◌, All, length, IfOk, bit_and, slice_index};
ghost use Rattle.scan_kernel.specs.Masks.{IsMask, questions_a_pass};
ghost use Rattle.ssb_answers.specs.RowValues.{is_within};
ghost use Rattle.dimension_index.specs.Keys.{keys_of};
ghost use Rattle.shared_scan.specs.Masking.{AreCodeMasks, AreRowMasks, TellDimension, TellTerms};

use crate::plan_tests::tested_places;
use crate::tested::{DimensionCell, LineTerms, Tested};
use dimension_index::{Dictionary, FirstRows};
use ssb_answers::Plan;
use ssb_schema::{Column, Items, Table};
use std::alloc::{AllocError, Global};

/// Bit k is set where plan k takes it.
fn mask_of<T: Tested>(plans: &[Plan], item: &T) -> u16
    requires few { length plans.now ≤ questions_a_pass }
    ensures { IsMask (λ plan. T.takes plan item.now) plans.now result }
{
    let mut mask = 0u16;
    for number in 0..plans.len() {
        if item.is_taken(&plans[number]) {
            mask |= 1 << number;
        }
    }
    mask
}

/// The masks of a column's distinct values, by code.
fn code_masks(
    alloc: Global,
    plans: &[Plan],
    column: Column,
    dictionary: &Dictionary,
) -> Result<Vec<u16>, AllocError>
    requires few { length plans.now ≤ questions_a_pass }
    ensures { IfOk result (λ masks. AreCodeMasks column plans.now dictionary.now masks.items) }
{
    let mut masks = Vec::with_capacity(alloc, dictionary.len())?;
    for code in 0..dictionary.len() {
        let cell = DimensionCell {
            table: column.table,
            place: column.place,
            value: dictionary.column_value(code),
        };
        masks.push(mask_of(plans, &cell))?;
    }
    Ok(masks)
}

/// Leaves of each row's mask the bits that the mask of its code has.
fn narrow(masks: &mut [u16], codes: &[u32], of_codes: &[u16])
    requires len { length codes.now ≡ length masks.old }
    requires within { All (λ code. code < length of_codes.now) codes.now }
    ensures len { length masks.new ≡ length masks.old }
    ensures each { (p : ℕ) → p < length masks.old
        → slice_index masks.new p
        ≡ bit_and (slice_index masks.old p) (slice_index of_codes.now (slice_index codes.now p)) }
{
    for row in 0..masks.len() {
        masks[row] &= of_codes[codes[row] as usize];
    }
}

/// The masks of a dimension's rows, by position, from the columns at these places.
fn row_masks(
    alloc: Global,
    index: &FirstRows,
    plans: &[Plan],
    table: Table,
    places: &[usize],
) -> Result<Vec<u16>, AllocError>
    requires few { length plans.now ≤ questions_a_pass }
    ensures { IfOk result (λ masks. AreRowMasks index.now table plans.now places.now masks.items) }
{
    let mut masks = vec![in alloc; u16::MAX; index.positions(table)]?;
    for place in places {
        let column = Column {
            table,
            place: *place,
        };
        let of_codes = code_masks(alloc, plans, column, index.dictionary(column))?;
        narrow(&mut masks, index.codes_of(column), &of_codes);
    }
    Ok(masks)
}

/// The masks of a dimension's rows, by position; none where no plan tests them.
pub fn dimension_masks(
    alloc: Global,
    index: &FirstRows,
    plans: &[Plan],
    table: Table,
) -> Result<Option<Items<u16>>, AllocError>
    requires few { length plans.now ≤ questions_a_pass }
    ensures { IfOk result (λ masks. TellDimension index.now table plans.now masks) }
{
    let places = tested_places(alloc, plans, table)?;
    if places.is_empty() {
        return Ok(None);
    }
    let masks = row_masks(alloc, index, plans, table, &places)?;
    Ok(Some(Items::from_vec(masks)))
}

/// The mask of a code of quantity and discount; a quantity of 0 is that of a free place, which no plan takes.
fn terms_mask(plans: &[Plan], code: u16) -> u16
    requires few { length plans.now ≤ questions_a_pass }
    requires code { code < 1024 }
    ensures free { code < 16 → result ≡ 0 }
    ensures live { 16 ≤ code → IsMask (λ plan. is_within plan.quantity (code / 16) && is_within plan.discount
        (code % 16)) plans.now result }
{
    if code < 16 {
        return 0;
    }
    let terms = LineTerms {
        quantity: (code / 16) as u8,
        discount: (code % 16) as u8,
    };
    mask_of(plans, &terms)
}

/// The masks of all codes of quantity and discount.
pub fn terms_masks(alloc: Global, plans: &[Plan]) -> Result<Vec<u16>, AllocError>
    requires few { length plans.now ≤ questions_a_pass }
    ensures { IfOk result (λ masks. TellTerms plans.now masks.items) }
{
    let mut masks = Vec::with_capacity(alloc, 1024)?;
    for code in 0..1024u16 {
        masks.push(terms_mask(plans, code))?;
    }
    Ok(masks)
}
