//! What questions and answers hold by their types, and what follows of it for a run's trace.
ghost use Rattle.std.specs.Prelude.{IfSome, FitsSigned};
ghost use Rattle.std.specs.Int.{w64};
ghost use Rattle.std.specs.List.{AllByRecursion};
ghost use Rattle.ssb_audit.specs.Legal.{IsLegalTrace};
ghost use Rattle.ssb_trace.specs.Allowed.{HasClients, IsAllowedQuestion};
ghost use Rattle.ssb_trace.specs.Allowed.{IsAllowedValue, IsHeld};
ghost use Rattle.ssb_trace.specs.RoundTrip.{IsReadBack};

use crate::committed::commits_are_allowed;
use crate::taken::dimensions_are_taken;
use ssb_answers::ResultRow;
use ssb_audit::{Told, Trace};
use ssb_base::Base;
use ssb_questions::{Question, Value};

// A constant of a question: its text is UTF-8, its number has 64 bits.
fn value_is_allowed(constant: &Value)
    ensures { IsAllowedValue constant.now }
{
    match constant {
        Value::Text(text) => {
            let _text = text.as_str();
        },
        Value::Number(number) => {
            let _number = *number;
        },
    }
}

/// A question, as `Question::with` gives it, may stand in an allowed trace.
pub fn question_is_allowed(question: &Question)
    ensures { IsAllowedQuestion question.now }
{
    for constant in question.constants() {
        value_is_allowed(constant);
    }
}

// A sum has 64 bits.
fn sum_is_held(row: &ResultRow)
    ensures { IfSome row.now.sum (FitsSigned w64) }
{
    match &row.sum {
        Some(sum) => {
            let _sum = *sum;
        },
        None => {},
    }
}

// The sums of rows have.
fn sums_are_held(rows: &[ResultRow])
    ensures { AllByRecursion (λ row. IfSome row.sum (FitsSigned w64)) rows.now }
{
    for row in rows {
        sum_is_held(row);
    }
}

// An answer's numbers have 64 bits, and its question is one.
fn told_is_held(told: &Told)
    ensures { IsHeld told.now }
{
    let _at = told.at;
    let _count = told.rows.len();
    question_is_allowed(&told.question);
    sums_are_held(told.rows.as_slice());
}

// That holds of each answer.
fn answers_are_held(answers: &[Told])
    ensures { AllByRecursion IsHeld answers.now }
{
    for told in answers {
        told_is_held(told);
    }
}

/// The text of a legal trace over a base is read back as that trace and as no other, where its commits and answers are
/// those of clients 1 to 16. What else an allowed trace wants holds of every `Base` and every `Trace` by their types:
/// this looks at each row, commit and answer, and does nothing.
pub fn legal_trace_is_read_back(base: &Base, trace: &Trace)
    ensures { HasClients trace.now → IsLegalTrace base.now trace.now → IsReadBack trace.now }
{
    dimensions_are_taken(base);
    commits_are_allowed(trace.commits.as_slice());
    answers_are_held(trace.answers.as_slice());
}
