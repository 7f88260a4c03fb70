//! Reference, which no program runs so far: what holds of histories that are joined.
//!
//! Tables that were made of the first commits, and the later commits behind them, are as good as the first tables and
//! all commits: so a start may go on from newer tables, and forget what they have. Each law is the contract of a
//! function of [`laws`]; `specs/Joined` has the statements.
//!
//! ```text
//! tables ── commits 1 to 7 ──▶ tables after 7 ── commits 8, 9 ──▶ tables after 9        the same as by 1 to 9 at once
//! ```
#![tactic(auto)]

pub mod laws;
