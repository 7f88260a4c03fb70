//! The questions of a statement.

use crate::piece_fault::PieceFault;
use ssb_questions::{Measure, Query, Question, QuestionError, Value};
use ssb_schema::{Column, Text};
use std::alloc::{AllocError, Global};

// The words of the star question of a measure.
fn words_of(
    alloc: Global,
    measure: Measure,
    groups: &[Column],
    tests: &[Value],
) -> Result<Vec<Value>, AllocError> {
    let mut words = Vec::new(alloc);
    words.push(Value::Text(Text::from_str(alloc, measure.name())?))?;
    for column in groups {
        words.push(Value::Text(Text::from_str(alloc, column.name())?))?;
    }
    for test in tests {
        words.push(test.clone()?)?;
    }
    Ok(words)
}

/// A question for each measure, of the same groups and tests. Where a question takes not so many tests, the fault is
/// that of this piece.
pub(crate) fn questions_of(
    alloc: Global,
    measures: &[Measure],
    groups: &[Column],
    tests: &[Value],
    last: usize,
) -> Result<Vec<Question>, PieceFault> {
    let mut questions = Vec::new(alloc);
    for measure in measures {
        let words = words_of(alloc, *measure, groups, tests)?;
        match Question::with(alloc, Query::Star, words) {
            Ok(question) => questions.push(question)?,
            Err(QuestionError::Refused(_, _)) => {
                return Err(PieceFault::TooMany(last));
            }
            Err(QuestionError::OutOfMemory(_)) => return Err(PieceFault::OutOfMemory),
        }
    }
    Ok(questions)
}
