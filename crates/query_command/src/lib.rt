//! The word `query`: the answers to one question, to all thirteen queries or to a board, over the base of a source, in
//! a format; and what explains a question, for which no base is needed.
//!
//! ```text
//! source ── load ─▶ base, N commits ── index, columns ─▶ passes of the scan ─▶ answers at N ─▶ text of the format
//! name and constants ── ask ─▶ question ─────────────────────┘
//! ```
//!
//! A source is five table files, or what else holds a base (`base_source`). The contracts of [`run_query`] and
//! [`run_all`] (`specs/Asked.antt`, `specs/Reported.antt`): with status 0 they have written exactly the text of the
//! answers in the format, as the benchmark defines them, over a base that the source holds, each `at` the number of
//! commits that this base is after; else nothing, or a part of that text from its beginning; and status 1 tells that
//! what the source holds is refused, 2 of words that ask no question. [`run_board`] (`specs/Board.antt`) promises the
//! same of the reports that a file asks for, answers and rows of statements (`specs/ReportsAsked.antt`), each under its
//! title; where that file is refused, nothing is written. [`run_statements`] writes the rows of statements.
//! [`run_explain`] (`specs/Explained.antt`) writes exactly the words, or the statement of SQL, that `ssb_explain`
//! defines for the question; [`run_explain_over`] the words, and how many rows of each dimension and how many groups the
//! question is about over such a base (`specs/Sizes.antt`).
//!
//! ```text
//! let words = QuestionWords { name: "Q2.1", constants: &["MFGR#12", "EUROPE"] };
//! let status = run_query(rt, settings, tables, words, &mut out, &mut err);
//! ```
#![tactic(auto)]

mod asked;
mod asking;
mod board;
mod explain;
mod opening;
mod query;
mod sizes;
mod statement;
mod stopwatch;

pub use asked::{QuestionWords, standard_questions};
pub use board::{BoardFault, BoardLineFault, NoReports};
pub use explain::{run_explain, run_explain_over};
pub use query::{Settings, run_all, run_board, run_query};
pub use statement::{NoStatement, run_statements, statements_text};
