//! A question, asked once more.

use ssb_questions::{ConstantKind, ConstantsFault, Query, Question, QuestionError, Value};
use ssb_schema::{Text, number};
use std::alloc::{AllocError, Global};

/// What comes of asking.
#[derive(Drop)]
pub enum Asked {
    /// This is asked.
    Question(Question),
    /// No query has the name.
    NoSuchQuery,
    /// The query does not take the constants.
    Refused(Query, ConstantsFault),
}

// The constant of a kind that a word stands for: its number where the kind is one and the word spells it, else its
// text.
fn value_of(alloc: Global, kind: Option<&ConstantKind>, word: &str) -> Result<Value, AllocError> {
    if let Some(ConstantKind::Number) = kind {
        if let Some(n) = number(word.as_bytes()) {
            if n <= u64::from(u32::MAX) {
                return Ok(Value::Number(n));
            }
        }
    }
    Ok(Value::Text(Text::from_str(alloc, word)?))
}

// The constants that words stand for, whether or not the query takes them.
fn values_of(alloc: Global, query: Query, words: &[&str]) -> Result<Vec<Value>, AllocError> {
    let kinds = query.constant_kinds().unwrap_or(&[]);
    let mut values = Vec::new(alloc);
    for (i, word) in words.iter().enumerate() {
        values.push(value_of(alloc, kinds.get(i), word)?)?;
    }
    Ok(values)
}

/// Asks the question of this name and these constants; without constants, the benchmark's.
pub fn ask(alloc: Global, name: &str, words: &[&str]) -> Result<Asked, AllocError> {
    let Ok(query) = Query::by_name(name) else {
        return Ok(Asked::NoSuchQuery);
    };
    let made = if words.is_empty() {
        Question::standard(alloc, query)
    } else {
        Question::with(alloc, query, values_of(alloc, query, words)?)
    };
    match made {
        Ok(question) => Ok(Asked::Question(question)),
        Err(QuestionError::Refused(fault, _)) => Ok(Asked::Refused(query, fault)),
        Err(QuestionError::OutOfMemory(_)) => Err(AllocError),
    }
}
