//! Rows from counts and sums by group number.
ghost use Rattle.std.specs.Prelude.{◌≡◌, ◌<◌, length, pos, IfOk, slice_index, slice_index_or, nat_lt, Some, None, []};
ghost use Rattle.std.specs.Prelude.{◌∷◌, if◌then◌else◌};
ghost use Rattle.ssb_questions.specs.Plan.{OrdersAllGroups};
ghost use Rattle.scan_kernel.specs.Groups.{size_of, counts_of, group_values};
ghost use Rattle.scan_kernel.specs.Dense.{dense_rows, AnswersAll};

use ssb_answers::{Plan, ResultRow, Value, sort_rows};
use ssb_schema::Items;
use std::alloc::{AllocError, Global};

/// The values of the group of a number, where each column lists its values by code.
pub fn group_of_number(
    alloc: Global,
    columns: &[Items<Value>],
    number: u128,
) -> Result<Items<Value>, AllocError>
    requires below { number < size_of (counts_of columns.now) }
    ensures { IfOk result (λ group. group ≡ group_values columns.now number) }
{
    let mut group = Vec::new(alloc);
    let mut left = number;
    for at in 0..columns.len() {
        let values = columns[at].as_slice();
        let count = values.len() as u128;
        group.push(values[(left % count) as usize].clone()?)?;
        left /= count;
    }
    Ok(Items::from_vec(group))
}

/// The sum of a number.
pub fn sum_at(sums: &[i64], number: usize) -> i64
    requires { number < length sums.now }
    ensures { result ≡ slice_index_or sums.now number (pos 0) }
{
    match sums.get(number) {
        Some(sum) => *sum,
        None => 0,
    }
}

/// The row of a group.
pub fn row(groups: Items<Value>, sum: i64) -> ResultRow
    ensures { result ≡ record { groups = groups; sum = Some sum } }
{
    ResultRow {
        groups,
        sum: Some(sum),
    }
}

/// The rows of the groups that have combinations.
fn rows_by_number(
    alloc: Global,
    columns: &[Items<Value>],
    counts: &[u64],
    sums: &[i64],
) -> Result<Vec<ResultRow>, AllocError>
    requires counts { length counts.now ≡ size_of (counts_of columns.now) }
    requires sums { length sums.now ≡ size_of (counts_of columns.now) }
    ensures { IfOk result (λ rows. rows.items ≡ dense_rows (length counts.now) (group_values columns.now)
        (λ g. slice_index counts.now g) (λ g. slice_index_or sums.now g (pos 0))) }
{
    let mut rows = Vec::new(alloc);
    for number in 0..counts.len() {
        if counts[number] > 0 {
            let groups = group_of_number(alloc, columns, number as u128)?;
            rows.push(row(groups, sum_at(sums, number)))?;
        }
    }
    Ok(rows)
}

/// The one row of a plan without group columns.
pub fn total_row(alloc: Global, count: u64, sum: i64) -> Result<Vec<ResultRow>, AllocError>
    ensures { IfOk result (λ rows. rows.items ≡ record { groups = []; sum = if nat_lt 0 count then Some sum else None }
        ∷ []) }
{
    let groups = Items::from_vec(Vec::new(alloc));
    let sum = if count > 0 { Some(sum) } else { None };
    let mut rows = Vec::new(alloc);
    rows.push(ResultRow { groups, sum })?;
    Ok(rows)
}

/// The rows of a plan from counts and sums by group number.
pub fn answer_rows(
    alloc: Global,
    plan: &Plan,
    columns: &[Items<Value>],
    counts: &[u64],
    sums: &[i64],
) -> Result<Vec<ResultRow>, AllocError>
    requires ordered { OrdersAllGroups plan.now }
    requires columns { length columns.now ≡ length plan.now.groups }
    requires counts { length counts.now ≡ size_of (counts_of columns.now) }
    requires sums { length sums.now ≡ size_of (counts_of columns.now) }
    ensures { IfOk result (λ rows. AnswersAll plan.now (length counts.now) (group_values columns.now)
        (λ g. slice_index counts.now g) (λ g. slice_index_or sums.now g (pos 0)) rows.items) }
{
    if plan.groups.len() == 0 {
        return total_row(alloc, counts[0], sum_at(sums, 0));
    }
    let mut rows = rows_by_number(alloc, columns, counts, sums)?;
    sort_rows(plan, &mut rows)?;
    Ok(rows)
}
