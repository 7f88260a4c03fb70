//! What a client gets for a request.
ghost use Rattle.std.specs.Prelude.{◌≡◌, ◌+◌, ◌≤◌, ◌++◌, length, map, vec_len, vec_capacity};
ghost use Rattle.ssb_answers.specs.declared.answer.Answer.TheVariants.{Unserved as WithoutRows};
ghost use Rattle.history_core.specs.Responses.{answers_in, answers_with, asked_in};

use ssb_answers::{Answer, Question, ResultRow, Unserved};
use ssb_schema::Items;

/// What a client gets for the questions of a request: all of them are answered after the same commits, or none is.
#[derive(Debug, Drop)]
pub enum Response {
    /// For each question, in order, its rows over the warehouse as it stood after the first `at` commits.
    Rows {
        questions: Items<Question>,
        at: u64,
        rows: Items<Items<ResultRow>>,
    },
    /// No rows; the client may ask again.
    Unserved {
        questions: Items<Question>,
        cause: Unserved,
    },
}

// The answers with rows.
fn put_rows(
    questions: Vec<Question>,
    at: u64,
    rows: Vec<Items<ResultRow>>,
    answers: &mut Vec<Answer>,
)
    requires { vec_len answers.old + vec_len questions ≤ vec_capacity answers.old }
    ensures { answers.new.items ≡ answers.old.items ++ answers_with at questions.items rows.items }
{
    let mut lists = rows.into_iter();
    for question in questions {
        let Some(rows) = lists.next() else {
            return;
        };
        answers.push_reserved(Answer::Rows { question, at, rows });
    }
}

// The answers without rows.
fn put_unserved(questions: Vec<Question>, cause: Unserved, answers: &mut Vec<Answer>)
    requires { vec_len answers.old + vec_len questions ≤ vec_capacity answers.old }
    ensures { answers.new.items ≡ answers.old.items ++ map (λ question. WithoutRows question cause) questions.items }
{
    for question in questions {
        answers.push_reserved(Answer::Unserved { question, cause });
    }
}

impl Response {
    /// Puts the answer to each question behind those that are there, in order, in room that is there.
    pub fn put_answers(self, answers: &mut Vec<Answer>)
        requires { vec_len answers.old + length (asked_in self) ≤ vec_capacity answers.old }
        ensures { answers.new.items ≡ answers.old.items ++ answers_in self }
    {
        match self {
            Response::Rows {
                questions,
                at,
                rows,
            } => put_rows(questions.into_vec(), at, rows.into_vec(), answers),
            Response::Unserved { questions, cause } => {
                put_unserved(questions.into_vec(), cause, answers)
            }
        }
    }
}
