//! The small data set.

use small_data::tables;
use ssb_base::{Base, Limits};
use ssb_text::load;
use std::alloc::Global;
use std::sync::Arc;
use std::test::Fail;
use std::thread::Threads;

// Of this size a block has one line of the small data set.
const BLOCK: u32 = 64;

/// The small data set, of four lines, within these limits.
pub fn small_base(
    rt: &(impl Threads + Sync),
    alloc: Global,
    limits: Limits,
) -> Result<Arc<Base>, Fail> {
    Ok(Arc::new(alloc, load(rt, alloc, limits, BLOCK, tables())?)?)
}

/// The small data set within the program's limits.
pub fn standard_base(rt: &(impl Threads + Sync), alloc: Global) -> Result<Arc<Base>, Fail> {
    small_base(rt, alloc, Limits::standard())
}
