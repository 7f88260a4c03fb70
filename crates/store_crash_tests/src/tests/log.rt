//! The log of a run: each commit adds an order, the first one order 11, the next order 12, and so on.
ghost use Rattle.std.specs.Prelude.{IfOk};
ghost use Rattle.std.specs.List.{AllByRecursion};
ghost use Rattle.ssb_trace.specs.Allowed.{IsClient};

use row_store::Commit;
use small_data::LINEORDER;
use std::alloc::{AllocError, Global};
use std::test::Fail;
use test_fixtures::adding;

/// How many commits a group has.
pub(crate) const A_GROUP: u64 = 2;

// The greatest key that no commit adds.
const KEYS: u64 = 10;

// The commit of this number.
fn commit(alloc: Global, number: u64) -> Result<Commit, Fail>
    ensures { IfOk result (λ commit. IsClient commit.client) }
{
    Ok(Commit {
        client: 1,
        refresh: adding(alloc, KEYS.saturating_add(number))?,
    })
}

/// The group of commits behind so many.
pub(crate) fn group_behind(alloc: Global, before: u64) -> Result<Vec<Commit>, Fail>
    ensures { IfOk result (λ commits. AllByRecursion (λ commit. IsClient commit.client) commits.items) }
{
    let first = commit(alloc, before.saturating_add(1))?;
    let second = commit(alloc, before.saturating_add(A_GROUP))?;
    Ok(vec![in alloc; first, second]?)
}

/// The rows of lineorder after so many commits: each as its file has it, without the closing bar.
pub(crate) fn rows_after(alloc: Global, commits: u64) -> Result<String, AllocError> {
    let mut text = String::new(alloc);
    for line in LINEORDER.lines() {
        text.push_str(line.strip_suffix("|").unwrap_or(line))?;
        text.push_str("\n")?;
    }
    for number in 1..=commits {
        let key = KEYS.saturating_add(number);
        let row = format!(in alloc;
            "{key}|1|3|4|3|19971215|o|0|1|10|10|0|10|2000|0|19971215|AIR\n"
        )?;
        text.push_str(row.as_str())?;
    }
    Ok(text)
}
