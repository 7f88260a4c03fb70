//! Where a base comes from: five table files, or what else has tables after some commits of a history.
//!
//! ```text
//! five table files ──┐
//! a store ───────────┴─ load ─▶ base, and after how many commits it is
//! ```
//!
//! Whoever reports over a base asks a [`BaseSource`] for it, and is told no more of it than what the source holds. Five
//! table files ([`TableFiles`]) hold the base that their texts spell, after no commits.
#![tactic(auto)]

mod source;
mod table_files;

pub use source::{BaseSource, SourcedBase};
