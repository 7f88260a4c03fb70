//! The rows of the primary replica: limits that the program does not have, calls that it does not make, and refreshes
//! that lack memory. Replies were worked out by hand.

use crate::tests::{reads, same};
use row_store::{Cause, RefreshError, RowStore};
use ssb_base::Limits;
use ssb_report::write_reply;
use ssb_schema::Refresh;
use ssb_script::Request;
use std::alloc::Global;
use std::hash::RandomState;
use std::process::Abort;
use std::random::RandomSource;
use std::sync::Arc;
use std::test::Fail;
use std::thread::Threads;
use test_fixtures::{adding, requests, small_base};

// A store of the small data set within these limits.
fn opened<R: Threads + Sync + AllocGlobal + RandomSource>(
    rt: &R,
    limits: Limits,
) -> Result<RowStore, Fail> {
    let alloc = rt.alloc();
    let base = small_base(rt, alloc, limits)?;
    Ok(RowStore::new(alloc, base, RandomState::new(rt)?)?)
}

// Refreshes a store. Where memory is wanting, the store is as it was, and the same refresh is tried once more.
fn reply(store: &mut RowStore, told: &mut Vec<u8>, refresh: &Arc<Refresh>) -> Result<(), Fail> {
    let before = (store.len(), store.line_count());
    let mut reply = store.refresh(1, Arc::try_clone(refresh)?);
    if let Err(RefreshError::OutOfMemory) = reply {
        if (store.len(), store.line_count()) != before {
            return Err("changed for want of memory")?;
        }
        reply = store.refresh(1, Arc::try_clone(refresh)?);
    }
    Ok(write_reply(told, &reply)?)
}

// The replies of a store to the refreshes of a script.
fn reply_all(store: &mut RowStore, told: &mut Vec<u8>, script: &[Request]) -> Result<(), Fail> {
    for request in script {
        if let Request::Refresh(refresh) = request {
            reply(store, told, refresh)?;
        }
    }
    Ok(())
}

// The replies of a store to a script, and how many lines are live then.
fn told(alloc: Global, store: &mut RowStore, script: &str) -> Result<String, Fail> {
    let mut told = Vec::new(alloc);
    told.reserve(1000)?;
    reply_all(store, &mut told, &requests(alloc, script)?)?;
    let told = str::from_utf8(told.as_slice())?;
    Ok(format!(in alloc; "{told}lines {}", store.line_count())?)
}

// The same of a store of the small data set within these limits.
fn replies<R: Threads + Sync + AllocGlobal + RandomSource>(
    rt: &R,
    limits: Limits,
    script: &str,
) -> Result<String, Fail> {
    let mut store = opened(rt, limits)?;
    told(rt.alloc(), &mut store, script)
}

// Rows of a dimension, lines and commits, and whether a warehouse may be limited to these.
const BOUNDS: &[(usize, usize, u64, bool)] = &[
    (1, 0, 1, true),
    (1_048_576, 134_217_728, 72_057_594_037_927_936, true),
    (0, 4, 1, false),
    (1_048_577, 4, 1, false),
    (4, 134_217_729, 1, false),
    (4, 4, 0, false),
    (4, 4, 72_057_594_037_927_937, false),
];

#[test]
fn limits_have_bounds(rt: HostRuntime) -> Result<(), Fail> {
    for (rows, lines, commits, allowed) in BOUNDS {
        same(
            &rt,
            &Limits::new(*rows, *lines, *commits).is_some(),
            allowed,
        );
    }
    Ok(())
}

// Four lines are live. Order 9 has one, order 2 is withdrawn for two, and then for one.
const FULL: &str = "\
begin
add
line|9|1|3|4|3|19971215|o|0|1|10|10|0|10|2000|0|19971215|AIR
commit
begin
withdraw|2
add
line|9|1|3|4|3|19971215|o|0|1|10|10|0|10|2000|0|19971215|AIR
line|9|2|3|4|3|19971215|o|0|1|10|10|0|10|2000|0|19971215|AIR
commit
begin
amend
line|2|1|3|4|3|19971215|o|0|1|10|10|0|10|2000|0|19971215|AIR
line|2|2|3|4|3|19971215|o|0|1|10|10|0|10|2000|0|19971215|AIR
commit
begin
add
line|9|1|3|4|3|19971216|o|0|1|10|10|0|10|2000|0|19971215|AIR
commit
begin
withdraw|2
add
line|9|1|3|4|3|19971215|o|0|1|10|10|0|10|2000|0|19971215|AIR
commit
begin
withdraw|77
commit
";

#[test]
fn four_lines_and_one_commit_are_the_limits(rt: HostRuntime) -> Result<(), Fail> {
    let told = replies(&rt, Limits::new(4, 4, 1).ok_or("limits")?, FULL)?;
    reads(
        &rt,
        &told,
        "\
refused at 0 action 1: 46 LinesFull
refused at 0 action 2: 46 LinesFull
refused at 0 action 1: 46 LinesFull
refused at 0 action 1: 45 UnknownDate
committed 1
refused at 1 action 0: 40 LogFull
lines 4",
    );
    Ok(())
}

const AMENDED: &str = "\
begin
amend
line|2|1|3|4|3|19971215|o|0|1|10|10|0|10|2000|0|19971215|AIR
commit
begin
amend
line|1|1|3|4|3|19971215|o|0|1|10|10|0|10|2000|0|19971215|AIR
commit
";

#[test]
fn amended_orders_do_not_count_their_old_lines(rt: HostRuntime) -> Result<(), Fail> {
    let told = replies(&rt, Limits::new(4, 4, 2).ok_or("limits")?, AMENDED)?;
    reads(&rt, &told, "committed 1\ncommitted 2\nlines 3");
    Ok(())
}

// Order 2 has one line; order 9 is one line too many, until order 1 has one line; then order 2 may not have two.
const PUT: &str = "\
begin
put
line|2|1|3|4|3|19971215|o|0|1|10|10|0|10|2000|0|19971215|AIR
commit
begin
put
line|9|1|3|4|3|19971215|o|0|1|10|10|0|10|2000|0|19971215|AIR
commit
begin
put
line|1|1|3|4|3|19971215|o|0|1|10|10|0|10|2000|0|19971215|AIR
put
line|9|1|3|4|3|19971215|o|0|1|10|10|0|10|2000|0|19971215|AIR
commit
begin
put
line|2|1|3|4|3|19971215|o|0|1|10|10|0|10|2000|0|19971215|AIR
line|2|2|3|4|3|19971215|o|0|1|10|10|0|10|2000|0|19971215|AIR
commit
";

#[test]
fn orders_that_are_put_do_not_count_their_old_lines(rt: HostRuntime) -> Result<(), Fail> {
    let told = replies(&rt, Limits::new(4, 4, 3).ok_or("limits")?, PUT)?;
    reads(
        &rt,
        &told,
        "\
committed 1
refused at 1 action 1: 46 LinesFull
committed 2
refused at 2 action 1: 46 LinesFull
lines 4",
    );
    Ok(())
}

// The line numbers of an order's lines.
fn numbers_of(alloc: Global, store: &RowStore, key: u64) -> Result<String, Fail> {
    let mut told = String::new(alloc);
    if let Some(order) = store.lines_of(key) {
        for place in 0..order.len() {
            if let Some(line) = order.get(place) {
                write!(told, "{} ", line.line_number())?;
            }
        }
    }
    Ok(told)
}

// Order 9 is accepted as the first commit.
fn commit_nine<A: Abort>(rt: &A, alloc: Global, store: &mut RowStore) -> Result<(), Fail> {
    let nine = adding(alloc, 9)?;
    same(rt, &store.check(&nine).is_ok(), &true);
    same(rt, &store.apply(3, nine)?.number, &1);
    same(rt, &commits_from(store, 0), &Some(1));
    same(rt, &commits_from(store, 1), &Some(0));
    Ok(())
}

// How many commits there are behind the first `n`, where none of them is forgotten.
fn commits_from(store: &RowStore, n: u64) -> Option<usize> {
    if n > store.len() as u64 {
        return None;
    }
    Some(store.log_from(n)?.len())
}

// A second order 9 is refused, and why.
fn refuse_nine<A: Abort>(rt: &A, alloc: Global, store: &RowStore) -> Result<(), Fail> {
    let nine = adding(alloc, 9)?;
    let refusal = store.check(&nine).err().ok_or("accepted")?;
    same(rt, &refusal.action, &1);
    same(rt, &refusal.cause, &Cause::Present(9));
    Ok(())
}

// The line numbers of an order's lines are these.
fn have<A: Abort>(
    rt: &A,
    alloc: Global,
    store: &RowStore,
    (order, numbers): (u64, &str),
) -> Result<(), Fail> {
    reads(rt, &numbers_of(alloc, store, order)?, numbers);
    Ok(())
}

// Order 9 has its line once it is committed, and then it is refused.
fn commit_and_look<A: Abort>(rt: &A, alloc: Global, store: &mut RowStore) -> Result<(), Fail> {
    have(rt, alloc, store, (9, ""))?;
    have(rt, alloc, store, (1, "1 2 "))?;
    commit_nine(rt, alloc, store)?;
    have(rt, alloc, store, (9, "1 "))?;
    refuse_nine(rt, alloc, store)
}

#[test]
fn a_committed_order_has_its_lines(rt: HostRuntime) -> Result<(), Fail> {
    let mut store = opened(&rt, Limits::standard())?;
    commit_and_look(&rt, rt.alloc(), &mut store)?;
    let (base, log) = store.into_parts();
    same(&rt, &(base.lines().len(), log.len()), &(4, 1));
    let commits = log.into_commits().ok_or("forgotten")?;
    same(&rt, &commits.len(), &1);
    Ok(())
}

#[test]
fn a_forgotten_commit_is_counted_and_its_lines_stay(rt: HostRuntime) -> Result<(), Fail> {
    let mut store = opened(&rt, Limits::standard())?;
    commit_and_look(&rt, rt.alloc(), &mut store)?;
    same(&rt, &store.forget(1).len(), &1);
    same(&rt, &commits_from(&store, 0), &None);
    same(&rt, &commits_from(&store, 1), &Some(0));
    have(&rt, rt.alloc(), &store, (9, "1 "))?;
    refuse_nine(&rt, rt.alloc(), &store)?;
    let (_base, log) = store.into_parts();
    same(&rt, &log.len(), &1);
    same(&rt, &log.into_commits().is_none(), &true);
    Ok(())
}

// Order 9 comes with one line, then has two, goes and comes again; a loaded order goes with it.
const STEPS: [&str; 6] = [
    "\
begin
add
line|9|1|3|4|3|19971215|o|0|1|10|10|0|10|2000|0|19971215|AIR
commit
",
    "\
begin
amend
line|9|2|3|4|3|19971215|o|0|1|10|10|0|10|2000|0|19971215|AIR
line|9|5|3|4|3|19971215|o|0|1|10|10|0|10|2000|0|19971215|AIR
commit
",
    "\
begin
withdraw|1
withdraw|9
commit
",
    "\
begin
withdraw|9
commit
",
    "\
begin
amend
line|1|1|3|4|3|19971215|o|0|1|10|10|0|10|2000|0|19971215|AIR
commit
",
    "\
begin
add
line|9|3|3|4|3|19971215|o|0|1|10|10|0|10|2000|0|19971215|AIR
commit
",
];

// The replies to a step and the lines of order 9 then; the commits are forgotten before the lines are looked at.
fn step(alloc: Global, store: &mut RowStore, script: &str) -> Result<String, Fail> {
    let told = told(alloc, store, script)?;
    let count = store.len() as u64;
    let forgotten = store.forget(count);
    let nine = numbers_of(alloc, store, 9)?;
    Ok(format!(in alloc; "{told}, {} forgotten, 9: {nine}\n", forgotten.len())?)
}

// The same for each of the steps.
fn all_steps(alloc: Global, store: &mut RowStore) -> Result<String, Fail> {
    let mut all = String::new(alloc);
    for script in STEPS {
        all.push_str(&step(alloc, store, script)?)?;
    }
    Ok(all)
}

#[test]
fn forgotten_orders_are_amended_and_withdrawn_and_come_again(rt: HostRuntime) -> Result<(), Fail> {
    let mut store = opened(&rt, Limits::standard())?;
    reads(
        &rt,
        &all_steps(rt.alloc(), &mut store)?,
        "\
committed 1
lines 5, 1 forgotten, 9: 1 
committed 2
lines 6, 1 forgotten, 9: 2 5 
committed 3
lines 2, 1 forgotten, 9: 
refused at 3 action 1: 47 Absent 9
lines 2, 0 forgotten, 9: 
refused at 3 action 1: 48 AmendAbsent 1
lines 2, 0 forgotten, 9: 
committed 4
lines 3, 1 forgotten, 9: 3 
",
    );
    Ok(())
}

// After three commits of which the first two are forgotten: how many there are behind each number, and at the end.
fn ask_for_each<A: Abort>(rt: &A, store: &mut RowStore) {
    same(rt, &store.forget(2).len(), &2);
    same(rt, &commits_from(store, 0), &None);
    same(rt, &commits_from(store, 1), &None);
    same(rt, &commits_from(store, 2), &Some(1));
    same(rt, &commits_from(store, 3), &Some(0));
    same(rt, &(store.forget(1).len(), store.forget(4).len()), &(0, 0));
    same(rt, &commits_from(store, 2), &Some(1));
}

#[test]
fn who_asks_for_forgotten_commits_gets_none(rt: HostRuntime) -> Result<(), Fail> {
    let alloc = rt.alloc();
    let mut store = opened(&rt, Limits::standard())?;
    for order in 9..12 {
        store.apply(1, adding(alloc, order)?)?;
    }
    ask_for_each(&rt, &mut store);
    Ok(())
}
