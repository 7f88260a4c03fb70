//! What a query of the Star Schema Benchmark means, and the evaluator that computes it: the reference, which no program runs.
//!
//! A line is joined with the customer, supplier, part and date that it names. The combinations that
//! pass a question's tests are grouped; each group gives one row, with the sum of the question's
//! measure over it, and the rows stand in the question's order. This is the one definition of what a
//! report says: the columnar scan, the server and the audit of a trace are all stated by it.
//!
//! ```text
//! lines ── joined by key ──▶ combinations that pass ── grouped, added up ──▶ rows, in order
//! ```
//!
//! The contract: [`evaluate`] gives the rows of the definition and no others, and fails for want of
//! memory alone. The definition stands in `specs/Combination.antt` (`combinations`) and
//! `specs/Answer.antt` (`answer_of`); `laws` has what follows of every answer, and
//! `proofs/SmallDataSetLaws.antt` computes it on small data.
//!
//! ```text
//! let question = Question::standard(alloc, Query::Q4_1)?;
//! let rows = evaluate(alloc, &base, base.lines(), &question)?;
//! ```
#![tactic(auto)]

mod answer;
mod evaluator;
mod joined;
pub mod laws;
mod row_values;
mod sort;
mod totals;

pub use answer::{Answer, ResultRow, Rows, Unserved, same_rows};
pub use evaluator::evaluate;
pub use row_values::{QueryFields, is_within};
pub use sort::sort_rows;
pub use ssb_questions::{
    ColumnValue, Cond, ConstantKind, ConstantsFault, Measure, NoSuchQuery, NumberRange, OrderKey,
    Plan, QUERIES, Query, Question, QuestionError, Test, Value, question,
};
