//! The answers of a trace, one after another.

ghost use Rattle.std.specs.Prelude.{◌≡◌, ◌-◌, ◌<◌, ◌^◌, length};
ghost use Rattle.std.specs.Option.{option_copied};
ghost use Rattle.row_store.specs.Legal.{IsLegal};
ghost use Rattle.ssb_audit.specs.InOrder.{AreInOrder};
ghost use Rattle.ssb_audit.specs.Traces as spec;
ghost use Rattle.ssb_audit.specs.Traces.{Tells, first_from, answer_fault};

use crate::fault::AuditFault;
use crate::trace::Told;
use crate::walk::first_wrong;
use row_store::Commit;
use ssb_base::Base;
use std::alloc::Global;
use std::hash::RandomState;
use std::sync::Arc;
use std::thread::Threads;

// Which of its client's answers the next one is, counted from 1.
fn turn_of(client: u32, earlier: &[Told]) -> u64
    requires { length earlier.now < 2 ^ 64 - 1 }
    ensures { result ≡ spec.turn_of client earlier.now }
{
    let before = earlier.iter().filter(|told| told.client == client).count();
    before as u64 + 1
}

// The client's last answer among the earlier ones.
fn last_of(client: u32, earlier: &[Told]) -> Option<&Told>
    ensures { option_copied result ≡ spec.last_of client earlier.now }
{
    earlier.iter().rev().find(|told| told.client == client)
}

// Whether an answer is after fewer commits than its client's answer before it.
fn went_back(earlier: &[Told], told: &Told) -> bool
    ensures { result ≡ spec.went_back earlier.now told.now }
{
    match last_of(told.client, earlier) {
        Some(last) => told.at < last.at,
        None => false,
    }
}

// The fault of an answer's number of commits, where there are so many.
fn order_fault(commits: usize, earlier: &[Told], told: &Told) -> Option<AuditFault>
    requires { length earlier.now < 2 ^ 64 - 1 }
    ensures { result ≡ spec.order_fault commits earlier.now told.now }
{
    if told.at > commits as u64 {
        return Some(AuditFault::AtTooLarge(told.client, turn_of(told.client, earlier)));
    }
    if went_back(earlier, told) {
        return Some(AuditFault::WentBack(told.client, turn_of(told.client, earlier)));
    }
    None
}

// How many answers come before the first with a fault of order, and that fault.
struct InOrder {
    count: usize,
    fault: Option<AuditFault>,
}

// The answers before the first that is after more commits than there are, or after fewer than its client's answer
// before.
fn in_order_of(commits: usize, answers: &[Told]) -> InOrder
    ensures { AreInOrder commits answers.now result.count result.fault }
{
    for (place, told) in answers.iter().enumerate() {
        if let Some(fault) = order_fault(commits, &answers[..place], told) {
            return InOrder {
                count: place,
                fault: Some(fault),
            };
        }
    }
    InOrder {
        count: answers.len(),
        fault: None,
    }
}

/// Whether each answer is one that its client may have got: after no more commits than there are and no fewer than its
/// client's answer before, with the rows of its question.
///
/// Rows are looked at for the answers before the first fault of order alone. They are looked at in the order of the
/// answers' numbers of commits, and the fault is that of the first answer in the trace's order.
pub(crate) fn check_answers<R: Threads + Sync>(
    rt: &R,
    alloc: Global,
    base: &Arc<Base>,
    hashing: RandomState,
    commits: &[Commit],
    answers: &[Told],
) -> Result<(), AuditFault>
    requires { IsLegal base.now.value commits.now }
    ensures { Tells result (first_from (answer_fault base.now.value commits.now answers.now) 0 answers.now) }
{
    let InOrder { count, fault } = in_order_of(commits.len(), answers);
    let wrong = first_wrong(rt, alloc, base, hashing, commits, &answers[..count])?;
    if wrong < count {
        let told = &answers[wrong];
        let turn = turn_of(told.client, &answers[..wrong]);
        return Err(AuditFault::WrongRows(told.client, turn));
    }
    match fault {
        Some(fault) => Err(fault),
        None => Ok(()),
    }
}
