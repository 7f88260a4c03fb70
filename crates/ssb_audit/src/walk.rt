//! The walk over the commits, on which the question of each answer is asked again.

ghost use Rattle.std.specs.Prelude.{◌≡◌, ◌≤◌, if◌then◌else◌, min, [], All, List, length, IfOk, IsPermutation};
ghost use Rattle.std.specs.List.Sorted.{IsNonDecreasingBy};
ghost use Rattle.ssb_base.specs.Base.{IsSound};
ghost use Rattle.row_store.specs.History.{CommitRecord};
ghost use Rattle.row_store.specs.Legal.{IsLegal};
ghost use Rattle.row_store.specs.State.{StandsFor, state_of};
ghost use Rattle.fact_columns.specs.Stored.{columns_state};
ghost use Rattle.scan_kernel.specs.Masks.{questions_a_pass};
ghost use Rattle.shared_scan.specs.Answers.{AreSnapshot};
ghost use Rattle.ssb_audit.specs.Visits as spec;
ghost use Rattle.ssb_audit.specs.Visits.{IsIn, AreAsked, has_rows, IsFirstOther, IsFirstWrongOf, IsFirstWrong};

use crate::snapshot::advance;
use crate::trace::Told;
use crate::visits::{Visit, batch_end, visits_of};
use dimension_index::index_of;
use fact_columns::Columns;
use row_store::Commit;
use shared_scan::answer;
use ssb_answers::Rows;
use ssb_base::Base;
use ssb_questions::Question;
use std::alloc::{AllocError, Global};
use std::hash::RandomState;
use std::sync::Arc;
use std::thread::Threads;

// The questions of the answers that are visited.
fn questions_of(
    alloc: Global,
    answers: &[Told],
    visits: &[Visit],
) -> Result<Vec<Question>, AllocError>
    requires { All (IsIn answers.now) visits.now }
    ensures { IfOk result (λ questions. AreAsked answers.now visits.now questions.items) }
{
    let mut questions = Vec::with_capacity(alloc, visits.len())?;
    for visit in visits {
        questions.push(answers[visit.place].question.share()?)?;
    }
    Ok(questions)
}

// The place, where it is before the first one and the answer there has other rows than were found; else the first one.
fn earlier(first: usize, place: usize, told: &Told, found: &Rows) -> usize
    ensures { result ≡ (if has_rows told.now found.now.list then first else min first place) }
{
    if told.rows == found.list {
        first
    } else {
        first.min(place)
    }
}

// The first place before the limit of an answer with other rows than were found, or the limit.
fn first_other(answers: &[Told], visits: &[Visit], found: &[Rows], limit: usize) -> usize
    requires answers { All (IsIn answers.now) visits.now }
    requires each { length found.now ≡ length visits.now }
    ensures { IsFirstOther answers.now visits.now found.now (length visits.now) limit result }
{
    let mut first = limit;
    for (k, visit) in visits.iter().enumerate() {
        first = earlier(first, visit.place, &answers[visit.place], &found[k]);
    }
    first
}

// The first place before the limit of an answer that has not its question's rows over the columns, or the limit.
fn check_batch<R: Threads + Sync>(
    rt: &R,
    alloc: Global,
    columns: &Columns,
    answers: &[Told],
    visits: &[Visit],
    limit: usize,
) -> Result<usize, AllocError>
    requires few { length visits.now ≤ questions_a_pass }
    requires answers { All (IsIn answers.now) visits.now }
    requires snapshot { AreSnapshot columns.now }
    ensures { (history : List CommitRecord) → StandsFor (columns_state columns.now) history
        → IfOk result (λ place. IsFirstWrongOf columns.now.base history answers.now visits.now limit place) }
{
    let questions = questions_of(alloc, answers, visits)?;
    let found = answer(rt, alloc, columns, questions.as_slice())?;
    Ok(first_other(answers, visits, found.as_slice(), limit))
}

// The place of the first answer that has not its question's rows, or the number of answers. The columns take the
// commits as the visits come to them.
fn walk<R: Threads + Sync>(
    rt: &R,
    alloc: Global,
    columns: &mut Columns,
    commits: &[Commit],
    answers: &[Told],
    visits: &[Visit],
) -> Result<usize, AllocError>
    requires loaded { columns_state columns.old ≡ state_of columns.old.base [] }
    requires sound { IsSound columns.old.base }
    requires legal { IsLegal columns.old.base commits.now }
    requires within { All (λ told. told.at ≤ length commits.now) answers.now }
    requires each { IsPermutation (spec.visits_of answers.now) visits.now }
    requires sorted { IsNonDecreasingBy (λ visit. visit.at) visits.now }
    ensures { IfOk result (λ place. IsFirstWrong columns.old.base commits.now answers.now place) }
{
    let mut first = answers.len();
    let mut begin = 0;
    while begin < visits.len() {
        let end = batch_end(visits, begin);
        advance(columns, commits, visits[begin].at as usize)?;
        let batch = &visits[begin..end];
        first = check_batch(rt, alloc, columns, answers, batch, first)?;
        begin = end;
    }
    Ok(first)
}

/// The place of the first answer that has not the rows of its question after its number of commits; the number of
/// answers where there is none. It goes over the commits once.
pub(crate) fn first_wrong<R: Threads + Sync>(
    rt: &R,
    alloc: Global,
    base: &Arc<Base>,
    hashing: RandomState,
    commits: &[Commit],
    answers: &[Told],
) -> Result<usize, AllocError>
    requires legal { IsLegal base.now.value commits.now }
    requires within { All (λ told. told.at ≤ length commits.now) answers.now }
    ensures { IfOk result (λ place. IsFirstWrong base.now.value commits.now answers.now place) }
{
    let visits = visits_of(alloc, answers)?;
    let index = index_of(alloc, base)?;
    let mut columns = Columns::new(rt, alloc, index, hashing)?;
    base.soundness();
    walk(rt, alloc, &mut columns, commits, answers, visits.as_slice())
}
