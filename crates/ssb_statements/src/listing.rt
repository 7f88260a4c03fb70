//! What is listed of a statement: its rows under their heads, of the answers to its questions.

ghost use Rattle.std.specs.Prelude.{◌≡◌, IfOk, map};
ghost use Rattle.ssb_statements.specs.Listing as spec;
ghost use Rattle.ssb_statements.specs.Listing.{HasRows, IsListing, listing_of, rows_of};

use crate::arranging::arranged;
use crate::cell::StatementCell;
use ssb_answers::{Answer, Unserved};
use ssb_questions::ConstantKind;
use ssb_questions::clause::kind_in;
use ssb_schema::{Column, Items, Text};
use ssb_sql::{Shown, Statement};
use std::alloc::{AllocError, Global};

/// The rows of a statement, with what their text needs.
#[derive(Drop)]
pub struct StatementRows {
    pub heads: Vec<Text>,
    /// Which of the columns have numbers.
    pub are_numbers: Vec<bool>,
    /// After how many commits the rows are so.
    pub at: u64,
    pub rows: Vec<Items<StatementCell>>,
}

/// What the answers to a statement's questions make of it.
#[derive(Drop)]
pub enum Listing {
    /// Its rows.
    Rows(StatementRows),
    /// No rows, since its questions were left unanswered for this cause, or memory ran out.
    Unserved(Unserved),
}

// Whether a printed column has numbers.
fn is_number(groups: &[Column], shown: Shown) -> bool
    ensures { result ≡ spec.is_number groups.now shown }
{
    match shown {
        Shown::Group(place) => match groups.get(place) {
            Some(column) => matches!(kind_in(*column), ConstantKind::Number),
            None => false,
        },
        Shown::Sum(_) | Shown::Count(_) | Shown::Average(_, _) => true,
    }
}

fn number_flags(alloc: Global, groups: &[Column], shown: &[Shown]) -> Result<Vec<bool>, AllocError>
    ensures { IfOk result (λ flags. flags.items ≡ map (spec.is_number groups.now) shown.now) }
{
    let mut flags = Vec::new(alloc);
    for one in shown {
        flags.push(is_number(groups, *one))?;
    }
    Ok(flags)
}

/// The rows of a statement, of the answers to its questions after so many commits.
pub fn statement_rows(
    alloc: Global,
    statement: &Statement,
    answers: &[Answer],
    at: u64,
) -> Result<StatementRows, AllocError>
    ensures { IfOk result (λ rows. HasRows statement.now answers.now at (rows_of rows)) }
{
    let rows = arranged(alloc, statement, answers)?;
    let groups = statement.groups.as_slice();
    let columns = statement.shown.as_slice();
    let are_numbers = number_flags(alloc, groups, columns)?;
    let heads = statement.heads.clone()?;
    Ok(StatementRows {
        heads,
        are_numbers,
        at,
        rows,
    })
}

// The first cause for which one of these is left unanswered.
fn cause_in(answers: &[Answer]) -> Option<Unserved>
    ensures { result ≡ spec.cause_in answers.now }
{
    match answers {
        [] => None,
        [Answer::Unserved { cause, .. }, ..] => Some(*cause),
        [Answer::Rows { .. }, others @ ..] => cause_in(others),
    }
}

// After how many commits the first of these is so.
fn moment_of(answers: &[Answer]) -> u64
    ensures { result ≡ spec.moment_of answers.now }
{
    match answers {
        [Answer::Rows { at, .. }, ..] => *at,
        _ => 0,
    }
}

/// What is listed of a statement, of the answers to its questions: its rows, after as many commits as these; or why
/// there are none.
pub fn listed(alloc: Global, statement: &Statement, answers: &[Answer]) -> Listing
    ensures { IsListing statement.now answers.now (listing_of result) }
{
    if let Some(cause) = cause_in(answers) {
        return Listing::Unserved(cause);
    }
    match statement_rows(alloc, statement, answers, moment_of(answers)) {
        Ok(rows) => Listing::Rows(rows),
        Err(_) => Listing::Unserved(Unserved::OutOfMemory),
    }
}
