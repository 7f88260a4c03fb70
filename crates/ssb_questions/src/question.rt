//! A query with its constants.
ghost use Rattle.std.specs.Prelude.{◌≡◌, ◌↔◌, ◌<◌, ◌≤◌, ◌+◌, ◌^◌, IfOk, IfErr, IfSome, IsTrue, None, length, not};
ghost use Rattle.std.specs.Prelude.{position};
ghost use Rattle.std.specs.Prelude.{option_map};
ghost use Rattle.std.specs.List.{zip};
ghost use Rattle.ssb_questions.specs.Kind.{fits};
ghost use Rattle.ssb_questions.specs.Plan.{IsOverColumns, LooksForConstants, OrdersAllGroups};
ghost use Rattle.ssb_questions.specs.Queries.{plan_over, standard_constants};
ghost use Rattle.ssb_questions.specs.Question.{constants_fault, fault_of, back_of};
ghost use Rattle.ssb_questions.specs.declared.question.ConstantsFault.TheVariants.{BadConstant};

use crate::clauses::first_bad;
use crate::constants::{is_standard, standard_constants};
use crate::flights::plan_over;
use crate::kind::ConstantKind;
use crate::plan::Plan;
use crate::query::Query;
use crate::value::Value;
use ssb_schema::Items;
use std::alloc::{AllocError, Global};
use std::fmt;
use std::marker::Model;
use std::sync::Arc;
use thiserror::Error;

/// Why constants are refused for a query. Its text is its number, its name and its value.
#[derive(Clone, Copy, Debug, PartialEq, Eq, Error)]
pub enum ConstantsFault {
    /// There are more or fewer constants than the query has.
    #[error("31 WrongCount {0}")]
    WrongCount(Query),
    /// The constant at this place, from 1, is of the other kind, or a text that its column could not hold, or of
    /// `star` no clause that may stand there.
    #[error("32 BadConstant {0}")]
    BadConstant(usize),
}

/// Why a question was not made. Both hand the constants back.
#[derive(Debug, Drop, Error)]
pub enum QuestionError {
    /// The query does not take the constants.
    #[error("{0}")]
    Refused(ConstantsFault, Vec<Value>),
    /// Memory ran out.
    #[error("out of memory")]
    OutOfMemory(Vec<Value>),
}

/// A query with its constants, which fit it. Contracts see it as the pair of both.
pub struct Question {
    query: Query,
    constants: Arc<Items<Value>>,
}

impl Drop for Question {
    fn drop(self) {
        let Question {
            query: _,
            constants: _,
        } = self;
    }
}

impl Model for Question {
    ghost use Rattle.std.specs.Prelude.{◌≡◌, List, None};
    ghost use Rattle.ssb_questions.specs.Question.{constants_fault};
    ghost use Rattle.ssb_questions.specs.declared.query.Query.{Query as Named};
    ghost use Rattle.ssb_questions.specs.declared.value.Value.{Value as Constant};

    ghost Value = { Named × List Constant };

    ghost view = { λ q. (q.query, q.constants.value) };

    ghost invariant = { λ q. constants_fault q.query q.constants.value ≡ None };
}

// The place, from 0, of the first constant that is not of its kind.
fn first_unfit(kinds: &[ConstantKind], constants: &[Value]) -> Option<usize>
    ensures place { result ≡ position (λ at. not (fits at.0 at.1)) (zip kinds.now constants.now) }
    ensures within { IfSome result (λ place. place < length kinds.now) }
{
    kinds
        .iter()
        .zip(constants)
        .position(|(kind, constant)| !kind.fits(constant))
}

// The fault of the constant at a place, counted from 0.
fn bad_at(place: Option<usize>) -> Option<ConstantsFault>
    requires { IfSome place (λ place. place + 1 < 2 ^ 64) }
    ensures { result ≡ option_map (λ place. BadConstant (place + 1)) place }
{
    match place {
        Some(place) => Some(ConstantsFault::BadConstant(place + 1)),
        None => None,
    }
}

// The first fault of a query's constants.
fn first_fault(query: Query, constants: &[Value]) -> Option<ConstantsFault>
    ensures { result ≡ constants_fault query constants.now }
{
    match query.constant_kinds() {
        Some(kinds) => {
            if constants.len() != kinds.len() {
                return Some(ConstantsFault::WrongCount(query));
            }
            bad_at(first_unfit(kinds, constants))
        }
        None => bad_at(first_bad(constants)),
    }
}

impl Question {
    /// The query with the constants that it has where none are given; `star` has none, which it refuses.
    pub fn standard(alloc: Global, query: Query) -> Result<Question, QuestionError>
        ensures fault { fault_of result ≡ constants_fault query (standard_constants query) }
        ensures question { IfOk result (λ question. question ≡ (query, standard_constants query)) }
    {
        if let Query::Star = query {
            return Question::with(alloc, query, Vec::new(alloc));
        }
        match standard_constants(alloc, query) {
            Ok(constants) => Question::with(alloc, query, constants.into_vec()),
            Err(AllocError) => Err(QuestionError::OutOfMemory(Vec::new(alloc))),
        }
    }

    /// The query with these constants, in the order of `Query::constant_kinds`, or as clauses of `star`.
    ///
    /// A range whose first bound is greater than its last is no fault: it holds nothing. Nor are two
    /// equal names in a list.
    pub fn with(
        alloc: Global,
        query: Query,
        constants: Vec<Value>,
    ) -> Result<Question, QuestionError>
        ensures fault { fault_of result ≡ constants_fault query constants.items }
        ensures question { IfOk result (λ question. question ≡ (query, constants.items)) }
        ensures back { IfErr result (λ error. back_of error ≡ constants.items) }
    {
        if let Some(fault) = first_fault(query, constants.as_slice()) {
            return Err(QuestionError::Refused(fault, constants));
        }
        match Arc::new(alloc, Items::from_vec(constants)) {
            Ok(constants) => Ok(Question { query, constants }),
            Err(failed) => Err(QuestionError::OutOfMemory(failed.value.into_vec())),
        }
    }

    /// The query that is asked.
    pub fn query(&self) -> Query
        ensures { result ≡ self.now.0 }
    {
        self.query
    }

    /// The constants, in the order of `Query::constant_kinds`, which they fit, or the clauses of `star`.
    pub fn constants(&self) -> &[Value]
        ensures constants { result.now ≡ self.now.1 }
        ensures fit { constants_fault self.now.0 self.now.1 ≡ None }
    {
        self.constants.as_slice()
    }

    /// Whether the constants are those that the query has where none are given.
    pub fn is_standard(&self) -> bool
        ensures { IsTrue result ↔ (self.now.1 ≡ standard_constants self.now.0) }
    {
        is_standard(self.query, self.constants())
    }

    /// The same question, which shares its constants.
    pub fn share(&self) -> Result<Question, AllocError>
        ensures { IfOk result (λ question. question ≡ self.now) }
    {
        Ok(Question {
            query: self.query,
            constants: self.constants.clone()?,
        })
    }
}

impl fmt::Debug for Question {
    fn fmt<W: fmt::Write>(&self, f: &mut fmt::Formatter<W>) -> fmt::Result {
        write!(f, "{} {:?}", self.query, self.constants())
    }
}

impl PartialEq for Question {
    ghost use Rattle.std.specs.Prelude.{◌≡◌, ◌↔◌, IsTrue};
    ghost use Rattle.std.specs.Cmp.{partial_equiv_from_equiv};
    ghost use Rattle.ssb_questions.specs.QuestionEq.{question_eq, question_eq-equiv};

    ghost eq = { question_eq };

    ghost laws = { partial_equiv_from_equiv question_eq-equiv };

    fn eq(&self, other: &Question) -> bool
        ensures value { result ≡ question_eq self.now other.now }
        ensures same { IsTrue result ↔ (self.now ≡ other.now) }
    {
        self.query == other.query && self.constants() == other.constants()
    }
}

impl Eq for Question {
    ghost use Rattle.ssb_questions.specs.QuestionEq.{question_eq-equiv};

    ghost laws = { question_eq-equiv };
}

/// The plan of a question.
pub fn plan(alloc: Global, question: &Question) -> Result<Plan, AllocError>
    ensures plan { IfOk result (λ plan. plan ≡ plan_over question.now.0 question.now.1) }
    ensures without_ties { IfOk result OrdersAllGroups }
    ensures columns { IfOk result IsOverColumns }
    ensures few { IfOk result (λ plan. length plan.groups ≤ 4) }
    ensures constants { IfOk result (LooksForConstants question.now.0 question.now.1) }
{
    plan_over(alloc, question.query(), question.constants())
}
