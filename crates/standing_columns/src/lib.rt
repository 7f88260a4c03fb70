//! Columns with standing questions: questions that are asked again and again, whose totals follow the commits.
//!
//! `StandingColumns` is a replica as its columns are. Beside them it keeps, of questions that were fixed when it was
//! made, the totals over the live lines. Each line that a commit brings is added to the totals of the questions that
//! take it, and each that goes is taken off. Such a question is answered by its totals, however many lines there are;
//! the others of a batch are answered by passes over the columns, sixteen at a time.
//!
//! ```text
//! commit ──▶ columns ── each line that goes or comes ──▶ masks: which questions take it ──▶ their totals
//! batch ──▶ standing questions ── totals ──▶ rows ──┐
//!       └─▶ others ── passes over the columns ──▶ rows ──▶ merged in the order asked
//! ```
//!
//! The contract is that of a replica, and of `shared_scan`: each question has its rows by the benchmark's definition
//! over the lines after every history that the columns stand for. So which way a question went changes no row.
//!
//! ```text
//! let columns = StandingColumns::loaded(&rt, alloc, index, hashing, &questions)?;
//! let rows = answer(&rt, alloc, &columns, &batch)?;
//! ```
#![tactic(auto)]

mod answering;
mod columns;
mod once;
mod questions;

pub use answering::answer;
pub use columns::StandingColumns;
pub use questions::StandingQuestions;
pub use shared_scan::StandingError;
