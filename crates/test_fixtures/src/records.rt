//! Requests, as a script writes them.

use ssb_questions::Question;
use ssb_schema::{Items, Refresh};
use ssb_script::{Request, ScriptError, read_script};
use std::alloc::Global;
use std::sync::Arc;

// More records than any script of a test has.
const MOST_RECORDS: u64 = 1000;

/// The requests of a script.
pub fn requests(alloc: Global, script: &str) -> Result<Vec<Request>, ScriptError> {
    Ok(read_script(alloc, script.as_bytes(), MOST_RECORDS)?.requests)
}

/// The refresh of these actions: the records that stand between `begin` and `commit`.
pub fn refresh(alloc: Global, actions: &str) -> Result<Arc<Refresh>, ScriptError> {
    let script = format!(in alloc; "begin\n{actions}commit\n")?;
    match requests(alloc, script.as_str())?.pop() {
        Some(Request::Refresh(refresh)) => Ok(refresh),
        _ => Err(ScriptError::NoCommit),
    }
}

/// A request of these queries, parted by spaces, each with the benchmark's constants.
pub fn asking(alloc: Global, queries: &str) -> Result<Items<Question>, ScriptError> {
    let mut script = String::from_str(alloc, "ask\n")?;
    for query in queries.split(' ') {
        let record = format!(in alloc; "query|{query}\n")?;
        script.push_str(record.as_str())?;
    }
    script.push_str("answer\n")?;
    match requests(alloc, script.as_str())?.pop() {
        Some(Request::Ask(asking)) => Ok(asking.into_questions(alloc)?),
        _ => Err(ScriptError::NoAnswer),
    }
}

/// A refresh that adds an order of this key, whose one line takes 1,990 from the profit of query 4.1 in 1997.
pub fn adding(alloc: Global, key: u64) -> Result<Arc<Refresh>, ScriptError> {
    let actions = format!(in alloc;
        "add\nline|{key}|1|3|4|3|19971215|o|0|1|10|10|0|10|2000|0|19971215|AIR\n"
    )?;
    refresh(alloc, actions.as_str())
}
