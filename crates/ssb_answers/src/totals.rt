//! The sums so far, kept by group.
ghost use Rattle.std.specs.Prelude.{◌≡◌, OnOk, IfOk, map, pos, unwrap_or};
ghost use Rattle.std.specs.BTreeMap.{IsOrdered, get};
ghost use Rattle.ssb_answers.specs.Answer.{groups_cmp};
ghost use Rattle.ssb_answers.specs.Totals.{Adds, HasRoom, row_from};

use crate::answer::ResultRow;
use ssb_questions::Value;
use ssb_schema::Items;
use std::alloc::{AllocError, Global};
use std::collections::BTreeMap;

/// Sums by groups.
pub type SumsByGroup = BTreeMap<Items<Value>, i64>;

/// The sum of a group, or 0 where it has none.
fn sum_of(totals: &SumsByGroup, groups: &Items<Value>) -> i64
    ensures { result ≡ unwrap_or (get groups_cmp totals.now groups.now) (pos 0) }
{
    match totals.get(groups) {
        Some(sum) => *sum,
        None => 0,
    }
}

/// Adds an amount to the sum of a group.
pub fn add(totals: &mut SumsByGroup, groups: Items<Value>, amount: i64) -> Result<(), AllocError>
    requires { HasRoom totals.old groups amount }
    ensures { OnOk result (Adds totals.old totals.new groups amount) }
{
    let sum = sum_of(totals, &groups) + amount;
    totals.insert(groups, sum)?;
    Ok(())
}

/// The rows of the groups.
pub fn into_rows(alloc: Global, totals: SumsByGroup) -> Result<Vec<ResultRow>, AllocError>
    ensures rows { IfOk result (λ rows. rows.items ≡ map row_from totals.entries) }
    ensures ordered { OnOk result (IsOrdered groups_cmp totals) }
{
    let mut rows = Vec::new(alloc);
    for (groups, sum) in totals {
        rows.push(ResultRow {
            groups,
            sum: Some(sum),
        })?;
    }
    Ok(rows)
}
