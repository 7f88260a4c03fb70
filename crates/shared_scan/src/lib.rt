//! Every question of a batch in one pass over the columns.
//!
//! A line's rows are read by their classes: the class of a row is the position of the first row that no query can tell
//! from it. So masks and codes cover the rows up to the last that begins a class, and a batch is made ready over these
//! rows alone. The answers are still those over all rows, since an answer depends on rows through the columns that
//! queries read, and on nothing else (`proofs/ClassedLaws.antt`).
//!
//! The contracts, over columns that stand for a history (`AreSnapshot` in `specs/Answers.antt`), each with the clause
//! that says it:
//!
//! - [`answer`] gives each question, in order, its rows after that history, as if it had been alone (`answers`).
//! - [`PreparedBatch::new`] changes neither the columns nor the questions (`prepared`), and [`PreparedBatch::scan`]
//!   gives the questions the rows that `answer` gives (`answers`).
//! - [`Standing::new`] keeps the questions, in order (`questions`). Their totals are those of the live lines
//!   (`follows`). It ends well only if each question has few groups (`few_groups`), and the question that
//!   `TooManyGroups` names is the first that has more (`too_many`).
//! - [`Standing::copy`] has the same questions (`same`), and its totals follow the same lines (`follows`).
//! - Totals that follow some lines follow them with one more, or less, once [`Standing`] is told of it (`follows`, of
//!   its `Watch`).
//! - [`Standing::position`] is the first place where the question stands (`position`), and [`Standing::rows`] are the
//!   rows of the question at a place after that history (`answer`), without a pass.
//!
//! But for `TooManyGroups`, they fail for want of memory alone.
//!
//! ```text
//! let rows = answer(&rt, alloc, &columns, &questions)?;    // rows[k] are those of questions[k]
//! ```
#![tactic(auto)]

mod answering;
mod batch_masks;
mod group_columns;
mod grouping;
mod groups;
pub mod laws;
mod masking;
mod numbering;
mod of_line;
mod over_lines;
mod parts;
mod plan_tests;
mod prepare;
mod prepared;
mod ready;
mod scan;
mod shifting;
mod sparse;
mod standing;
mod standing_error;
mod sums;
mod tested;

pub use answering::answer;
pub use prepared::PreparedBatch;
pub use standing::Standing;
pub use standing_error::StandingError;
