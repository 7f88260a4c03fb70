//! The classes of rows: a row's class is the position of the first row that no query can tell from it.
ghost use Rattle.std.specs.Prelude.{◌≡◌, ◌<◌, ◌^◌, ◌∷◌, [], map, length, slice_get, Some, IfOk, OnOk, unwrap_or};
ghost use Rattle.std.specs.HashMap.{get};
ghost use Rattle.std.specs.List.{range_with_len};
ghost use Rattle.dimension_index.specs.Classes.{classes_by, extent_of};
ghost use Rattle.dimension_index.specs.Told.{RowCodes as Codes, same_told, told_at, told_rows, first_in, noted};

use crate::coded::CodedColumn;
use std::alloc::{AllocError, Global};
use std::collections::HashMap;

/// What queries can tell of a row: its codes in four columns.
type RowCodes = (u32, u32, u32, u32);

// Where the codes were seen first: here, if they are new.
fn first_place(
    seen: &mut HashMap<RowCodes, u32>,
    told: &RowCodes,
    here: u32,
) -> Result<u32, AllocError>
    ensures place { IfOk result (λ place. place ≡ unwrap_or (get same_told seen.old told.now) here) }
    ensures seen { OnOk result ((other : Codes) → get same_told seen.new other ≡ noted (get same_told seen.old) told.now
        here other) }
{
    if let Some(place) = seen.get(told) {
        return Ok(*place);
    }
    match seen.insert(*told, here) {
        Ok(_) => Ok(here),
        Err(_) => Err(AllocError),
    }
}

// The codes of a row.
fn row_at(rows: &[RowCodes], row: usize) -> RowCodes
    requires { row < length rows.now }
    ensures { Some result ≡ slice_get rows.now row }
{
    rows[row]
}

// Of each row, where its codes stand first.
fn first_places(alloc: Global, rows: &[RowCodes]) -> Result<Vec<u32>, AllocError>
    requires { length rows.now < 2 ^ 32 }
    ensures { IfOk result (λ places. places.items ≡ map (first_in rows.now) rows.now) }
{
    let mut seen: HashMap<RowCodes, u32> = HashMap::new(alloc);
    let mut places = Vec::with_capacity(alloc, rows.len())?;
    for row in 0..rows.len() {
        let told = row_at(rows, row);
        let place = first_place(&mut seen, &told, row as u32)?;
        places.push(place)?;
    }
    Ok(places)
}

// The codes of a row in four columns.
fn row_codes(first: &[u32], second: &[u32], third: &[u32], fourth: &[u32], row: usize) -> RowCodes
    requires first { row < length first.now }
    requires second { row < length second.now }
    requires third { row < length third.now }
    requires fourth { row < length fourth.now }
    ensures { result ≡ told_at first.now second.now third.now fourth.now row }
{
    (first[row], second[row], third[row], fourth[row])
}

// The codes of all rows in four columns.
fn told_rows(
    alloc: Global,
    first: &[u32],
    second: &[u32],
    third: &[u32],
    fourth: &[u32],
) -> Result<Vec<RowCodes>, AllocError>
    requires second { length second.now ≡ length first.now }
    requires third { length third.now ≡ length first.now }
    requires fourth { length fourth.now ≡ length first.now }
    ensures { IfOk result (λ rows. rows.items ≡ told_rows first.now second.now third.now fourth.now) }
{
    let mut rows = Vec::with_capacity(alloc, first.len())?;
    for row in 0..first.len() {
        rows.push(row_codes(first, second, third, fourth, row))?;
    }
    Ok(rows)
}

/// The class of each row of a dimension, of which these are the columns that queries read.
pub fn classes_by(
    alloc: Global,
    first: &CodedColumn,
    second: &CodedColumn,
    third: &CodedColumn,
    fourth: &CodedColumn,
) -> Result<Vec<u32>, AllocError>
    requires few { length first.now < 2 ^ 32 }
    requires second { length second.now ≡ length first.now }
    requires third { length third.now ≡ length first.now }
    requires fourth { length fourth.now ≡ length first.now }
    ensures { IfOk result (λ classes. classes.items
        ≡ classes_by (first.now ∷ second.now ∷ third.now ∷ fourth.now ∷ []) (length first.now)) }
{
    let rows = told_rows(
        alloc,
        first.codes(),
        second.codes(),
        third.codes(),
        fourth.codes(),
    )?;
    first_places(alloc, &rows)
}

/// The classes of so many rows, each of its own.
pub fn numbered(alloc: Global, count: usize) -> Result<Vec<u32>, AllocError>
    requires { count < 2 ^ 32 }
    ensures { IfOk result (λ classes. classes.items ≡ map (λ place. place) (range_with_len 0 count)) }
{
    let mut classes = Vec::with_capacity(alloc, count)?;
    for place in 0..count {
        classes.push(place as u32)?;
    }
    Ok(classes)
}

/// The number of rows up to the last that begins a class.
pub fn extent_of(classes: &[u32]) -> usize
    ensures { result ≡ extent_of classes.now }
{
    let mut most = 0;
    for class in classes {
        let end = *class as usize + 1;
        if most < end {
            most = end;
        }
    }
    most
}
