//! Several reports, each an answer or the rows of a statement: their questions, and what the answers make of them.

ghost use Rattle.std.specs.Prelude.{◌≡◌, ◌∷◌, ◌++◌, [], List, IfOk, OnOk, flat_map, map};
ghost use Rattle.query_command.specs.ReportsAsked as spec;
ghost use Rattle.query_command.specs.ReportsAsked.{AreReported};
ghost use Rattle.ssb_answers.specs.declared.answer.Answer.{Answer};
ghost use Rattle.ssb_formats.specs.declared.reports.Reported.{Reported};
ghost use Rattle.ssb_questions.specs.declared.query.Query.{Query};
ghost use Rattle.ssb_questions.specs.declared.value.Value.{Value};

use ssb_answers::Answer;
use ssb_formats::Reported;
use ssb_questions::Question;
use ssb_sql::Statement;
use ssb_statements::statement_rows;
use std::alloc::{AllocError, Global};

/// What is reported.
#[derive(Debug, Drop)]
pub enum ReportAsked {
    /// The answer to a question.
    Question(Question),
    /// The rows of a statement.
    Statement(Statement),
}

// The questions of what is asked.
fn questions_in(asked: &ReportAsked) -> &[Question]
    ensures { result.now ≡ spec.questions_in asked.now }
{
    match asked {
        ReportAsked::Question(question) => std::slice::from_ref(question),
        ReportAsked::Statement(statement) => statement.questions.as_slice(),
    }
}

// Adds the questions of a report.
fn push_questions(questions: &mut Vec<Question>, asked: &ReportAsked) -> Result<(), AllocError>
    ensures { OnOk result (questions.new.items ≡ questions.old.items ++ spec.questions_in asked.now) }
{
    let own = questions_in(asked);
    for question in own {
        questions.push(question.share()?)?;
    }
    Ok(())
}

/// The questions of several reports, one after another.
pub(crate) fn questions_of(
    alloc: Global,
    asked: &[ReportAsked],
) -> Result<Vec<Question>, AllocError>
    ensures { IfOk result (λ questions. questions.items ≡ flat_map spec.questions_in asked.now) }
{
    let mut questions = Vec::new(alloc);
    for one in asked {
        push_questions(&mut questions, one)?;
    }
    Ok(questions)
}

// Adds what the answers to the questions of a report make of it. Each question has one, so nothing is left out.
fn push_report<'a>(
    alloc: Global,
    asked: &ReportAsked,
    answers: &'a [Answer],
    after: u64,
    reports: &mut Vec<Reported<'a>>,
) -> Result<(), AllocError>
    ensures { OnOk result ((answered : Query × List Value → Answer)
        → answers.now ≡ map answered (spec.questions_in asked.now)
        → (report : Reported) × (reports.new.items ≡ reports.old.items ++ report ∷ [])
        × spec.IsReported answers.now after asked.now report) }
{
    match asked {
        ReportAsked::Question(_) => {
            if let [answer] = answers {
                reports.push(Reported::Answered(answer))?;
            }
        }
        ReportAsked::Statement(statement) => {
            let rows = statement_rows(alloc, statement, answers, after)?;
            reports.push(Reported::Listed(rows))?;
        }
    }
    Ok(())
}

// Adds what the answers to the questions of several reports make of these.
fn push_reports<'a>(
    alloc: Global,
    asked: &[ReportAsked],
    answers: &'a [Answer],
    after: u64,
    reports: &mut Vec<Reported<'a>>,
) -> Result<(), AllocError>
    ensures { OnOk result ((answered : Query × List Value → Answer)
        → answers.now ≡ map answered (flat_map spec.questions_in asked.now)
        → (more : List Reported) × (reports.new.items ≡ reports.old.items ++ more)
        × AreReported answered after asked.now more) }
{
    match asked {
        [] => Ok(()),
        [first, others @ ..] => {
            let questions = questions_in(first);
            let count = questions.len().min(answers.len());
            let (own, rest) = answers.split_at(count);
            push_report(alloc, first, own, after, reports)?;
            push_reports(alloc, others, rest, after, reports)
        }
    }
}

/// What the answers to the questions of several reports, which are after so many commits, make of these.
pub(crate) fn reports_of<'a>(
    alloc: Global,
    asked: &[ReportAsked],
    answers: &'a [Answer],
    after: u64,
) -> Result<Vec<Reported<'a>>, AllocError>
    ensures { IfOk result (λ reports. (answered : Query × List Value → Answer)
        → answers.now ≡ map answered (flat_map spec.questions_in asked.now)
        → AreReported answered after asked.now reports.items) }
{
    let mut reports = Vec::new(alloc);
    push_reports(alloc, asked, answers, after, &mut reports)?;
    Ok(reports)
}
