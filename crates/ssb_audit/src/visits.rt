//! The order in which the rows of a trace's answers are looked at: that of their numbers of commits.

ghost use Rattle.std.specs.Prelude.{◌≡◌, ◌+◌, ◌<◌, ◌≤◌, length, slice_index_or, IfOk, IsPermutation};
ghost use Rattle.std.specs.List.{AllWithin};
ghost use Rattle.std.specs.List.Sorted.{IsNonDecreasingBy};
ghost use Rattle.scan_kernel.specs.Masks.{questions_a_pass};
ghost use Rattle.ssb_audit.specs.Visits as spec;

use crate::trace::Told;
use scan_kernel::QUESTIONS_A_PASS;
use std::alloc::{AllocError, Global};

/// A visit to an answer: after how many commits, and the answer's place in the trace, counted from 0.
#[derive(Clone, Copy)]
pub(crate) struct Visit {
    pub at: u64,
    pub place: usize,
}

/// A visit to each answer, in the order of their numbers of commits.
pub(crate) fn visits_of(alloc: Global, answers: &[Told]) -> Result<Vec<Visit>, AllocError>
    ensures each { IfOk result (λ visits. IsPermutation (spec.visits_of answers.now) visits.items) }
    ensures sorted { IfOk result (λ visits. IsNonDecreasingBy (λ visit. visit.at) visits.items) }
{
    let mut visits = Vec::with_capacity(alloc, answers.len())?;
    for (place, told) in answers.iter().enumerate() {
        visits.push(Visit { at: told.at, place })?;
    }
    visits.sort_by_key(|visit| visit.at)?;
    Ok(visits)
}

/// The end of the batch that begins with a visit: those that follow it at the same number of commits, as many as one
/// pass answers.
pub(crate) fn batch_end(visits: &[Visit], begin: usize) -> usize
    requires { begin < length visits.now }
    ensures some { begin < result }
    ensures most { result ≤ begin + questions_a_pass }
    ensures within { result ≤ length visits.now }
    ensures same { (first : Visit)
        → AllWithin (λ visit. visit.at ≡ (slice_index_or visits.now begin first).at) visits.now begin result }
{
    let at = visits[begin].at;
    let most = begin + (visits.len() - begin).min(QUESTIONS_A_PASS);
    for end in begin + 1..most {
        if visits[end].at != at {
            return end;
        }
    }
    most
}
