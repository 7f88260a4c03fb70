//! A question explained: in words, as `star` spells them, and as one statement of SQL.
//!
//! ```text
//! question ── plan ─┬─ explanation ─▶ query|star|LO_REVENUE|D_YEAR|P_BRAND1|S_REGION=AMERICA|P_CATEGORY=MFGR#12
//!                   │                 columns|LO_REVENUE|D_YEAR|P_BRAND1
//!                   │                 order|D_YEAR|P_BRAND1
//!                   └─ sql_statement ▶ SELECT sum(lo_revenue) AS total, d_year, p_brand1
//!                                     FROM lineorder ..
//! ```
//!
//! The one contract: the text is the one that the definitions in `specs/` give for the question's plan, byte by byte:
//! `Words` (the clauses of a plan, and the three lines), `Statement` (the statement), with `Conditions` (the tests) and
//! `Joins` (what is read). Nothing is asked, and no table is needed.
//!
//! ```text
//! let words = explanation(alloc, &question)?;
//! let target = SqlTarget { system: System::Postgresql, lines: ReadLines::Lineorder };
//! let sql = sql_statement(alloc, target, &question)?;
//! ```
#![tactic(auto)]

mod conditions;
mod joins;
pub mod laws;
mod lines;
mod names;
mod nested;
mod statement;
mod system;
mod texts;
mod words;

pub use lines::ReadLines;
pub use statement::{SqlTarget, sql_statement};
pub use system::{NoSuchSystem, System};
pub use words::{explanation, record_line};
