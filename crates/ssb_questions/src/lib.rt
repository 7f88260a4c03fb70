//! What is asked of the warehouse: the thirteen queries of the Star Schema Benchmark, as data, and `star`.
//!
//! A client asks a `Question`: a `Query`, `Q1.1` to `Q4.3`, with its constants (a year, a region, two
//! brands). `Question::standard` gives it the constants of the benchmark, `Question::with` others; a
//! wrong number of them, one of the other kind, or a text that its column could not hold is refused.
//! The constants of the query `star` are clauses, which spell a plan: what is summed, group columns,
//! tests, the order (`clause`, `clauses`, `star`).
//! `question::plan` makes of it a `Plan`: the tests of each dimension, the ranges of quantity and
//! discount, what is summed, in which groups and in which order. Nothing here runs a query: the plain
//! evaluation and the scan, in crates above, are both stated over this plan.
//!
//! The contract: a plan is the row of the table in `specs/Queries.antt` with the question's constants
//! in their places, or what the clauses of `star` spell by `specs/Star.antt`. Its order looks at every
//! group column, so that no two rows tie.
//!
//! ```text
//! let query = Query::by_name("Q2.1")?;
//! let constants = vec![in alloc; Value::Text(category), Value::Text(region)]?;
//! let question = Question::with(alloc, query, constants)?;
//! let plan = question::plan(alloc, &question)?;
//! ```
#![tactic(auto)]

mod build;
pub mod clause;
pub mod clauses;
pub mod cond;
mod constants;
mod flights;
pub mod kind;
pub mod laws;
pub mod plan;
pub mod query;
pub mod question;
pub mod star;
pub mod star_meaning;
pub mod value;

pub use clause::{Clause, Spelled, clause_of};
pub use clauses::{Subject, first_bad};
pub use cond::{ColumnValue, Cond, Test};
pub use kind::ConstantKind;
pub use plan::{Measure, NumberRange, OrderKey, Plan};
pub use query::{NoSuchQuery, QUERIES, QUERIES_AND_STAR, Query};
pub use question::{ConstantsFault, Question, QuestionError};
pub use star::star_plan;
pub use value::Value;
