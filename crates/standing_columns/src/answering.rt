//! The answers to questions: those that stand by their totals, the others by passes over the columns.
ghost use Rattle.std.specs.Prelude.{◌≡◌, ◌+◌, ◌<◌, ◌∷◌, List, IfOk, MatchOption, filter, not};
ghost use Rattle.std.specs.Vec.Iter.{into_iter_items, into_iter_len};
ghost use Rattle.row_store.specs.History.{CommitRecord};
ghost use Rattle.row_store.specs.State.{StandsFor};
ghost use Rattle.fact_columns.specs.Stored.{columns_state};
ghost use Rattle.fact_columns.specs.Watching.{live_lines};
ghost use Rattle.shared_scan.specs.Answers.{AreSnapshot, answers_after};
ghost use Rattle.standing_columns.specs.Standing.{AllFollow, stands};

use crate::columns::StandingColumns;
use crate::questions::StandingQuestions;
use fact_columns::Columns;
use scan_kernel::QUESTIONS_A_PASS;
use ssb_answers::{Question, Rows};
use std::alloc::{AllocError, Global};
use std::thread::Threads;
use std::vec::IntoIter;

// The questions that do not stand.
fn others_of(
    alloc: Global,
    standing: &StandingQuestions,
    questions: &[Question],
) -> Result<Vec<Question>, AllocError>
    ensures { IfOk result (λ others. others.items
        ≡ filter (λ question. not (stands standing.now question)) questions.now) }
{
    let mut others = Vec::new(alloc);
    for question in questions {
        if !standing.stands(question) {
            others.push(question.share()?)?;
        }
    }
    Ok(others)
}

// The rows of each question, in passes over these columns.
fn scan_all<R: Threads + Sync>(
    rt: &R,
    alloc: Global,
    columns: &Columns,
    questions: &[Question],
) -> Result<Vec<Rows>, AllocError>
    requires snapshot { AreSnapshot columns.now }
    ensures { (history : List CommitRecord) → StandsFor (columns_state columns.now) history
        → IfOk result (λ rows. rows.items ≡ answers_after columns.now.base history questions.now) }
{
    let mut rows = Vec::new(alloc);
    let mut rest = questions;
    while !rest.is_empty() {
        let count = rest.len().min(QUESTIONS_A_PASS);
        let (pass, later) = rest.split_at(count);
        let mut found = shared_scan::answer(rt, alloc, columns, pass)?;
        rows.append(&mut found)?;
        rest = later;
    }
    Ok(rows)
}

// The rows of a question by its totals, or the next that were found for the others.
fn own_or_next(own: Option<Rows>, found: &mut IntoIter<Rows>) -> Rows
    requires { own ≡ None → 0 < into_iter_len found.old }
    ensures rows { MatchOption own (into_iter_items found.old ≡ result ∷ into_iter_items found.new)
        (λ rows. (result ≡ rows) × (into_iter_items found.new ≡ into_iter_items found.old)) }
    ensures len { MatchOption own (into_iter_len found.new + 1 ≡ into_iter_len found.old)
        (λ _. into_iter_len found.new ≡ into_iter_len found.old) }
{
    if let Some(rows) = own {
        return rows;
    }
    match found.next() {
        Some(rows) => rows,
        None => unreachable!(),
    }
}

// For each question, in order, its rows by its totals, or the next that were found for the others.
fn merged(
    alloc: Global,
    standing: &StandingQuestions,
    columns: &Columns,
    questions: &[Question],
    found: Vec<Rows>,
) -> Result<Vec<Rows>, AllocError>
    requires snapshot { AreSnapshot columns.now }
    requires follow { AllFollow standing.now columns.now.base (live_lines columns.now.places) }
    requires found { (history : List CommitRecord) → StandsFor (columns_state columns.now) history
        → found.items ≡ answers_after columns.now.base history
        (filter (λ question. not (stands standing.now question)) questions.now) }
    ensures { (history : List CommitRecord) → StandsFor (columns_state columns.now) history
        → IfOk result (λ rows. rows.items ≡ answers_after columns.now.base history questions.now) }
{
    let mut rows = Vec::with_capacity(alloc, questions.len())?;
    let mut found = found.into_iter();
    for question in questions {
        let own = standing.rows(alloc, columns, question)?;
        rows.push(own_or_next(own, &mut found))?;
    }
    Ok(rows)
}

/// For each question, in order, its rows as if it had been alone: by its totals where it stands, else in a pass over
/// the columns with at most fifteen others. Fails for want of memory alone.
pub fn answer<R: Threads + Sync>(
    rt: &R,
    alloc: Global,
    columns: &StandingColumns,
    questions: &[Question],
) -> Result<Vec<Rows>, AllocError>
    requires snapshot { AreSnapshot columns.now }
    ensures { (history : List CommitRecord) → StandsFor (columns_state columns.now) history
        → IfOk result (λ rows. rows.items ≡ answers_after columns.now.base history questions.now) }
{
    let others = others_of(alloc, &columns.standing, questions)?;
    let found = scan_all(rt, alloc, &columns.columns, &others)?;
    merged(alloc, &columns.standing, &columns.columns, questions, found)
}
