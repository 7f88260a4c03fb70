//! What a batch asks, answered over one copy: by totals where a question stands, the others in passes of at most 16
//! questions, whosever they are.
ghost use Rattle.std.specs.Prelude.{◌≡◌, ◌++◌, ◌≤◌, List, IfOk, OnOk, length};
ghost use Rattle.std.specs.Thread.{IsSync};
ghost use Rattle.row_store.specs.History.{CommitRecord};
ghost use Rattle.row_store.specs.State.{StandsFor};
ghost use Rattle.fact_columns.specs.Stored.{columns_state};
ghost use Rattle.shared_scan.specs.Answers.{AreSnapshot};
ghost use Rattle.ssb_server.specs.Passes.{all_questions, joined, grouped};
ghost use Rattle.ssb_server.specs.Turns.{HasFewLines, answers_after};

use row_store::Replica;
use server_figures::LiveFigures;
use ssb_answers::{ResultRow, Rows};
use ssb_questions::Question;
use ssb_schema::Items;
use standing_columns::{StandingColumns, answer};
use std::alloc::{AllocError, Global};
use std::mem;
use std::thread::Threads;

/// The questions of a request, and the rows of each.
#[derive(Drop)]
pub struct RequestRows {
    pub questions: Items<Question>,
    pub rows: Items<Items<ResultRow>>,
}

// Puts the questions of a request behind those before it.
fn share_questions(all: &mut Vec<Question>, questions: &[Question]) -> Result<(), AllocError>
    ensures { OnOk result (all.new.items ≡ all.old.items ++ questions.now) }
{
    for question in questions {
        all.push(question.share()?)?;
    }
    Ok(())
}

// The questions of these requests, one after another.
fn questions_of(alloc: Global, requests: &[Items<Question>]) -> Result<Vec<Question>, AllocError>
    ensures { IfOk result (λ all. all.items ≡ all_questions requests.now) }
{
    let mut all = Vec::new(alloc);
    for request in requests {
        share_questions(&mut all, request.as_slice())?;
    }
    Ok(all)
}

// The rows of the questions of one request.
fn join_rows(alloc: Global, found: Vec<Rows>) -> Result<RequestRows, AllocError>
    ensures { IfOk result (λ request. request ≡ joined found.items) }
{
    let mut questions = Vec::new(alloc);
    let mut rows = Vec::new(alloc);
    for one in found {
        let Rows { question, list } = one;
        questions.push(question)?;
        rows.push(list)?;
    }
    Ok(RequestRows {
        questions: Items::from_vec(questions),
        rows: Items::from_vec(rows),
    })
}

// The rows of each request, out of those of all their questions.
fn group(
    alloc: Global,
    requests: &[Items<Question>],
    rows: Vec<Rows>,
) -> Result<Vec<RequestRows>, AllocError>
    requires { length rows.items ≡ length (all_questions requests.now) }
    ensures { IfOk result (λ found. found.items ≡ grouped requests.now rows.items) }
{
    let mut found = Vec::new(alloc);
    let mut rest = rows;
    for request in requests {
        let later = rest.split_off(request.len())?;
        let own = mem::replace(&mut rest, later);
        found.push(join_rows(alloc, own)?)?;
    }
    Ok(found)
}

// For each request, in order, the rows of each of its questions, all of them over these columns. Fails for want of
// memory alone.
fn answer_all<R: Threads + Sync>(
    rt: &R,
    alloc: Global,
    columns: &StandingColumns,
    requests: &[Items<Question>],
) -> Result<Vec<RequestRows>, AllocError>
    requires snapshot { AreSnapshot columns.now }
    ensures { (history : List CommitRecord) → StandsFor (columns_state columns.now) history
        → IfOk result (λ found. found.items ≡ answers_after columns.now.base history requests.now) }
{
    let questions = questions_of(alloc, requests)?;
    let rows = answer(rt, alloc, columns, questions.as_slice())?;
    let found = group(alloc, requests, rows)?;
    Ok(found)
}

// How many questions the requests have: a figure for a reader, which the contract bounds.
fn count_questions(requests: &[Items<Question>]) -> u64
    ensures { result ≤ length (all_questions requests.now) }
{
    let mut count = 0u64;
    for request in requests {
        count = count.wrapping_add(request.len() as u64);
    }
    count
}

// How many of the requests' questions are answered from totals: a figure for a reader, which the contract bounds.
fn count_standing(columns: &StandingColumns, requests: &[Items<Question>]) -> u64
    ensures { result ≤ length (all_questions requests.now) }
{
    let mut count = 0u64;
    for request in requests {
        count = count.wrapping_add(columns.count_standing(request.as_slice()) as u64);
    }
    count
}

/// Copies that answer a batch. A turn is over any such copies, since it doesn't look into one, and the prover takes the
/// columns' type long.
pub trait AnswersBatch: Replica {
    /// For each request, in order, the rows of each of its questions, all of them over this copy. The batch is counted
    /// before its clients get them.
    fn answer_batch<R: Threads + Sync>(
        &self,
        rt: &R,
        alloc: Global,
        figures: &LiveFigures,
        requests: &[Items<Question>],
    ) -> Result<Vec<RequestRows>, AllocError>
        requires shared { IsSync R.row }
        requires few { HasFewLines (Self.state self.now) }
        ensures { (history : List CommitRecord) → StandsFor (Self.state self.now) history
            → IfOk result (λ found. found.items
            ≡ answers_after (Self.state self.now).base history requests.now) };
}

impl AnswersBatch for StandingColumns {
    fn answer_batch<R: Threads + Sync>(
        &self,
        rt: &R,
        alloc: Global,
        figures: &LiveFigures,
        requests: &[Items<Question>],
    ) -> Result<Vec<RequestRows>, AllocError> {
        let rows = answer_all(rt, alloc, self, requests)?;
        let by_totals = count_standing(self, requests);
        figures.has_answered(count_questions(requests), by_totals);
        Ok(rows)
    }
}
