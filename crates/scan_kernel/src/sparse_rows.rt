//! Rows from the counts and sums of some groups alone, each beside its group's number.
ghost use Rattle.std.specs.Prelude.{◌≡◌, ◌<◌, All, IfOk, length, nat_eq};
ghost use Rattle.std.specs.List.{IsDistinct};
ghost use Rattle.ssb_questions.specs.Plan.{OrdersAllGroups};
ghost use Rattle.scan_kernel.specs.Groups.{size_of, counts_of, group_values};
ghost use Rattle.scan_kernel.specs.Dense.{AnswersAll};
ghost use Rattle.scan_kernel.specs.SparseRows.{count_of, sum_of, sparse_rows};

use crate::rows::{group_of_number, row, sum_at, total_row};
use ssb_answers::{Plan, ResultRow, Value, sort_rows};
use ssb_schema::Items;
use std::alloc::{AllocError, Global};

/// The rows of those of the groups that have combinations.
fn rows_of_numbers(
    alloc: Global,
    columns: &[Items<Value>],
    numbers: &[u128],
    counts: &[u64],
    sums: &[i64],
) -> Result<Vec<ResultRow>, AllocError>
    requires below { All (λ number. number < size_of (counts_of columns.now)) numbers.now }
    requires apart { IsDistinct nat_eq numbers.now }
    requires counts { length counts.now ≡ length numbers.now }
    requires sums { length sums.now ≡ length numbers.now }
    ensures { IfOk result (λ rows. rows.items ≡ sparse_rows numbers.now (group_values columns.now)
        (count_of numbers.now counts.now) (sum_of numbers.now sums.now)) }
{
    let mut rows = Vec::new(alloc);
    for at in 0..numbers.len() {
        if counts[at] > 0 {
            let groups = group_of_number(alloc, columns, numbers[at])?;
            rows.push(row(groups, sum_at(sums, at)))?;
        }
    }
    Ok(rows)
}

/// The rows of a plan from the counts and sums of the groups that have combinations, each beside its group's number.
pub fn answer_sparse(
    alloc: Global,
    plan: &Plan,
    columns: &[Items<Value>],
    numbers: &[u128],
    counts: &[u64],
    sums: &[i64],
) -> Result<Vec<ResultRow>, AllocError>
    requires ordered { OrdersAllGroups plan.now }
    requires columns { length columns.now ≡ length plan.now.groups }
    requires below { All (λ number. number < size_of (counts_of columns.now)) numbers.now }
    requires apart { IsDistinct nat_eq numbers.now }
    requires counts { length counts.now ≡ length numbers.now }
    requires sums { length sums.now ≡ length numbers.now }
    ensures { IfOk result (λ rows. AnswersAll plan.now (size_of (counts_of columns.now)) (group_values columns.now)
        (count_of numbers.now counts.now) (sum_of numbers.now sums.now) rows.items) }
{
    if plan.groups.len() == 0 {
        if numbers.is_empty() {
            return total_row(alloc, 0, 0);
        }
        return total_row(alloc, counts[0], sum_at(sums, 0));
    }
    let mut rows = rows_of_numbers(alloc, columns, numbers, counts, sums)?;
    sort_rows(plan, &mut rows)?;
    Ok(rows)
}
