//! The loops of the shared scan, and the rows that are made of what they count: one pass over the columns of the fact
//! table for a batch of questions.
//!
//! A question is known to the loops by its bit in the masks of the dimensions' rows, and by the columns that it groups
//! by: each lists its values by code, and the codes make the number of a group. What tests and values stand behind
//! them, the crates above know.
//!
//! ```text
//! chunk of places ─ its zone shares no code with any question ─▶ left out
//!                 ─ its zone has no row that these questions leave ─▶ that dimension is not looked up
//!                 ─ search ─▶ places that some question takes, with their masks
//!                         ─ deal by the bits of the masks ─▶ the places of each question
//!   for each question:      its places ─ number ─▶ their groups ─ add ─▶ its totals
//! totals by group number    ─ groups that have lines ─▶ their values ─ sorted ─▶ rows
//! ```
//!
//! The contracts: for each question and group the totals are the number of the lines that it takes there, and what they
//! add to the measure and take away from it, modulo 2^64, also in several threads (`AreBatchTotals` in
//! `specs/Totals.antt`); no question takes a line of a chunk that is left out (`IsLeftOut` in `specs/Wanted.antt`), and
//! what is not looked up of another changes no mask (`Suffices` in `specs/Plan.antt`); rows made from the counts and sums of any lines, by number, are the answer to the question over those lines
//! (`AnswersAll` in `specs/Dense.antt`, from which the law `answers_lines` has `AnswersLines` of `specs/Scan.antt`; the
//! answer is that of `ssb_answers`). Where a question has too many groups for a number each, `sparse_totals` walks over
//! the places for it alone and keeps the sums of the groups that lines have (`specs/Sparse.antt`), and `answer_sparse`
//! makes the rows of those (`specs/SparseRows.antt`).
//!
//! ```text
//! let totals = parallel_totals(rt, alloc, &lines, &masks, &groupings)?;
//! let rows = answer_rows(alloc, &plan, &columns, &counts, &sums)?;
//! ```
#![tactic(auto)]

mod adding;
mod batch;
mod columns;
mod input;
pub mod laws;
mod masks;
mod parts;
mod plan;
mod range;
mod rows;
mod search;
mod selecting;
mod sparse;
mod sparse_rows;
mod taking;
mod totals;
mod wanted;
mod zones;

pub use columns::{GroupColumn, Grouping, LineColumns};
pub use masks::{Masks, QUESTIONS_A_PASS};
pub use parts::parallel_totals;
pub use rows::answer_rows;
pub use sparse::{GroupSums, SparseColumn, SparseGrouping, SparseTotals, sparse_totals};
pub use sparse_rows::answer_sparse;
pub use totals::Totals;
pub use zones::{CHUNK, Zones, coarse_code, with_code};
