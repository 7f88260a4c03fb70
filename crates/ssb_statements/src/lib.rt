//! Statements: reports of several aggregates, whose rows are those of questions, put side by side.
//!
//! ```text
//! statement ── a question for each sum, of one block ─▶ answers of one moment ── side by side, sorted, the first ─▶ rows
//! ```
//!
//! The law ([`laws`]): what is put side by side is what the statement means (`specs/Statement.antt`): a row for each
//! distinct group among the combinations, with all of its aggregates. The contract of [`arranged`] (`specs/Arranged`):
//! the rows are these, each once, by the keys of the order, and the first of them where the statement says how many.
//! [`listed`] puts them under their heads (`specs/Listing`), or says why there are none.
#![tactic(auto)]

mod arranging;
mod cell;
mod having;
pub mod laws;
mod listing;

pub use arranging::arranged;
pub use cell::StatementCell;
pub use listing::{Listing, StatementRows, listed, statement_rows};
