//! The question that the words of a command line ask.

ghost use Rattle.std.specs.Prelude.{◌≡◌, ◌≢◌, IfOk, IfErr, Ok, None, Some, map};
ghost use Rattle.std.specs.Option.{option_copied};
ghost use Rattle.query_command.specs.Asked.{AskNothing, IsAsked, kinds_of, standard_question, standard_questions};
ghost use Rattle.query_command.specs.Asked.{values_spelled, value_spelled};
ghost use Rattle.ssb_files.specs.Status.{status_of};
ghost use Rattle.ssb_questions.specs.Queries.{standard_constants};
ghost use Rattle.ssb_questions.specs.Question.{constants_fault, fault_of};
ghost use Rattle.ssb_questions.specs.declared.question.ConstantsFault.{ConstantsFault};

use ssb_files::Fault;
use ssb_questions::{ConstantKind, QUERIES, Query, Question, QuestionError, Value};
use ssb_schema::{Text, number};
use std::alloc::{AllocError, Global};

/// The words that ask a question.
#[derive(Clone, Copy)]
pub struct QuestionWords<'a> {
    /// The name of its query.
    pub name: &'a str,
    /// Its constants; without, the benchmark's are asked.
    pub constants: &'a [&'a str],
}

// The constant of a kind that a word stands for: its number where the kind is one and the word spells it, else its
// text.
fn value(alloc: Global, kind: Option<&ConstantKind>, word: &str) -> Result<Value, AllocError>
    ensures { IfOk result (λ value. value ≡ value_spelled (option_copied kind.entry) word.now) }
{
    if let Some(ConstantKind::Number) = kind {
        if let Some(n) = number(word.as_bytes()) {
            if n <= u64::from(u32::MAX) {
                return Ok(Value::Number(n));
            }
        }
    }
    Ok(Value::Text(Text::from_str(alloc, word)?))
}

// The constants that the words stand for, whether or not the query takes them.
fn values(alloc: Global, kinds: &[ConstantKind], words: &[&str]) -> Result<Vec<Value>, AllocError>
    ensures { IfOk result (λ values. values.items ≡ values_spelled kinds.now (map (λ word. word.now) words.now)) }
{
    let mut values = Vec::new(alloc);
    for (i, word) in words.iter().enumerate() {
        values.push(value(alloc, kinds.get(i), word)?)?;
    }
    Ok(values)
}

// The kinds of a query's constants; none of `star`, whose words are texts.
fn kinds_of(query: Query) -> &'static [ConstantKind]
    ensures { result.now ≡ kinds_of query }
{
    match query.constant_kinds() {
        Some(kinds) => kinds,
        None => &[],
    }
}

// What comes of a question that was made or not.
fn taken(made: Result<Question, QuestionError>) -> Result<Question, Fault>
    ensures question { IfOk result (λ question. made ≡ Ok question) }
    ensures words { IfErr result (λ fault. status_of fault ≡ 2
        → (refused : ConstantsFault) × (fault_of made ≡ Some refused)) }
    ensures early { IfErr result (λ fault. status_of fault ≢ 1) }
{
    match made {
        Ok(question) => Ok(question),
        Err(QuestionError::Refused(fault, _)) => Err(Fault::Constants(fault)),
        Err(QuestionError::OutOfMemory(_)) => Err(Fault::OutOfMemory),
    }
}

/// The question of this name and these constants; without constants, the benchmark's.
pub fn ask(alloc: Global, name: &str, constants: &[&str]) -> Result<Question, Fault>
    ensures question { IfOk result (λ question. IsAsked name.now (map (λ word. word.now) constants.now) question) }
    ensures words { IfErr result (λ fault. status_of fault ≡ 2
        → AskNothing name.now (map (λ word. word.now) constants.now)) }
    ensures early { IfErr result (λ fault. status_of fault ≢ 1) }
{
    let query = Query::by_name(name).map_err(|fault| Fault::NoSuchQuery(fault))?;
    if constants.is_empty() {
        return taken(Question::standard(alloc, query));
    }
    let values = values(alloc, kinds_of(query), constants)?;
    taken(Question::with(alloc, query, values))
}

// A query with the benchmark's constants, which it takes.
fn standard_question(alloc: Global, query: Query) -> Result<Question, AllocError>
    requires { constants_fault query (standard_constants query) ≡ None }
    ensures { IfOk result (λ question. question ≡ standard_question query) }
{
    match Question::standard(alloc, query) {
        Ok(question) => Ok(question),
        Err(QuestionError::Refused(_, _)) => unreachable!(),
        Err(QuestionError::OutOfMemory(_)) => Err(AllocError),
    }
}

/// The thirteen queries with the benchmark's constants, in the order of their names.
pub fn standard_questions(alloc: Global) -> Result<Vec<Question>, AllocError>
    ensures { IfOk result (λ questions. questions.items ≡ standard_questions) }
{
    let mut questions = Vec::with_capacity(alloc, QUERIES.len())?;
    for query in &QUERIES {
        questions.push(standard_question(alloc, *query)?)?;
    }
    Ok(questions)
}
