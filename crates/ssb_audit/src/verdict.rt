//! The audit of a trace.

ghost use Rattle.std.specs.Prelude.{OnOk};
ghost use Rattle.ssb_audit.specs.Legal.{IsLegalTrace};
ghost use Rattle.ssb_audit.specs.Traces.{Tells, trace_fault};

use crate::answers::check_answers;
use crate::commits::check_commits;
use crate::fault::AuditFault;
use crate::trace::Trace;
use ssb_base::Base;
use std::alloc::Global;
use std::hash::RandomState;
use std::sync::Arc;
use std::thread::Threads;

/// Whether a trace is legal over a base: its commits one after another, and then its answers in the trace's order.
///
/// The fault is the first in this order: a commit that is refused after those before it; then, answer by answer, one
/// that is after more commits than there are, one that is after fewer than its client's answer before, and one whose
/// rows are not those of its question over the warehouse after its number of commits. Only want of memory may come
/// before it.
///
/// Rows are looked at by as many threads as there are processors; `hashing` is for the keys of orders.
pub fn audit<R: Threads + Sync>(
    rt: &R,
    alloc: Global,
    base: Arc<Base>,
    hashing: RandomState,
    trace: &Trace,
) -> Result<(), AuditFault>
    ensures legal { OnOk result (IsLegalTrace base.value trace.now) }
    ensures fault { Tells result (trace_fault base.value trace.now) }
{
    let commits = trace.commits.as_slice();
    check_commits(alloc, Arc::try_clone(&base)?, hashing, commits)?;
    check_answers(rt, alloc, &base, hashing, commits, trace.answers.as_slice())
}
