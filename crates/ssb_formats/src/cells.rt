//! The printed cells of an answer: its heads, and those of each row.

ghost use Rattle.std.specs.Prelude.{◌≡◌, IfOk, map};
ghost use Rattle.ssb_formats.specs.Cells.{are_numbers, heads_of, in_place, takes_numbers};
ghost use Rattle.ssb_report.specs.AnswerText.{columns_of, value_text};
ghost use Rattle.ssb_text.specs.Numbers.{sum_text};
ghost use Rattle.ssb_schema.specs.Columns.{column_name};

use itoa::Buffer;
use ssb_answers::ResultRow;
use ssb_questions::clause::kind_in;
use ssb_questions::{ConstantKind, Plan, Query, Value};
use ssb_schema::{Column, Text};
use std::alloc::{AllocError, Global};

pub(crate) fn value_cell(alloc: Global, value: &Value) -> Result<Text, AllocError>
    ensures { IfOk result (λ cell. cell ≡ value_text value.now) }
{
    match value {
        Value::Text(text) => Text::from_str(alloc, text.as_str()),
        Value::Number(number) => Text::from_str(alloc, Buffer::new().format(*number)),
    }
}

pub(crate) fn sum_cell(alloc: Global, sum: Option<i64>) -> Result<Text, AllocError>
    ensures { IfOk result (λ cell. cell ≡ sum_text sum) }
{
    match sum {
        Some(sum) => Text::from_str(alloc, Buffer::new().format(sum)),
        None => Text::from_str(alloc, "NULL"),
    }
}

/// Items of the group columns, with that of the sum at its printed place.
pub(crate) fn with_sum<T: Drop>(
    query: Query,
    sum: T,
    mut items: Vec<T>,
) -> Result<Vec<T>, AllocError>
    ensures { IfOk result (λ all. all.items ≡ in_place query sum items.items) }
{
    if query.sum_stands_first() {
        items.insert(0, sum)?;
        return Ok(items);
    }
    items.push(sum)?;
    Ok(items)
}

pub(crate) fn value_cells(alloc: Global, values: &[Value]) -> Result<Vec<Text>, AllocError>
    ensures { IfOk result (λ cells. cells.items ≡ map value_text values.now) }
{
    let mut cells = Vec::new(alloc);
    for value in values {
        cells.push(value_cell(alloc, value)?)?;
    }
    Ok(cells)
}

pub(crate) fn name_cells(alloc: Global, columns: &[Column]) -> Result<Vec<Text>, AllocError>
    ensures { IfOk result (λ cells. cells.items ≡ map column_name columns.now) }
{
    let mut cells = Vec::new(alloc);
    for column in columns {
        cells.push(Text::from_str(alloc, column.name())?)?;
    }
    Ok(cells)
}

/// The heads of the printed columns.
pub(crate) fn head_cells(alloc: Global, query: Query, plan: &Plan) -> Result<Vec<Text>, AllocError>
    ensures { IfOk result (λ cells. cells.items ≡ heads_of query plan.now) }
{
    let sum = Text::from_str(alloc, plan.measure.name())?;
    with_sum(query, sum, name_cells(alloc, plan.groups.as_slice())?)
}

/// The cells of a row, as its report prints them.
pub(crate) fn row_cells(
    alloc: Global,
    query: Query,
    row: &ResultRow,
) -> Result<Vec<Text>, AllocError>
    ensures { IfOk result (λ cells. cells.items ≡ columns_of query row.now) }
{
    let sum = sum_cell(alloc, row.sum)?;
    with_sum(query, sum, value_cells(alloc, row.groups.as_slice())?)
}

pub(crate) fn number_flags(alloc: Global, columns: &[Column]) -> Result<Vec<bool>, AllocError>
    ensures { IfOk result (λ flags. flags.items ≡ map takes_numbers columns.now) }
{
    let mut flags = Vec::new(alloc);
    for column in columns {
        flags.push(matches!(kind_in(*column), ConstantKind::Number))?;
    }
    Ok(flags)
}

/// Which of the printed columns have numbers.
pub(crate) fn are_numbers(alloc: Global, query: Query, plan: &Plan) -> Result<Vec<bool>, AllocError>
    ensures { IfOk result (λ flags. flags.items ≡ are_numbers query plan.now) }
{
    with_sum(query, true, number_flags(alloc, plan.groups.as_slice())?)
}
