//! The words of the program's command line, and what they ask for.
//!
//! ```text
//! words ── job_of ─┬─ Job: query, run, serve .. checkpoint, each with its words; or none: a script
//!                  └─ Notice: help, the version, or why the words are wrong
//! ```
//!
//! It stands on `clap` and on no job (`ssb_explain` names the systems), and promises no more than safety: which words are
//! taken, and what the help says, is shown by the cases of the program `cases`.
//!
//! ```text
//! match job_of(alloc, words.as_slice(), None) {             // ssb_live query --data tables Q4.1
//!     Ok(Job::Query(words)) => ..                     // words.source: the files of tables, words.name: Q4.1
//!     Err(notice) => write!(err, "{notice}")
//! }
//! ```
#![tactic(auto)]

mod changes;
mod grammar;
mod help;
mod job;
mod notice;
mod ship;
mod store;
mod word;

pub use changes::{ChangedWord, ChangesWords, GroupsWord, LinesFormatWord, StartWord};
pub use help::{REFRESH_HELP, SCHEMA_HELP, STAR_HELP, TERMINAL_HELP};
pub use job::{
    AuditWords, ExplainWords, ExportWords, ExportedWord, FormatWord, HintsWord, Job, JournalWord,
    QueryWords, RunWords, ServeWords, StandingWord, job_of,
};
pub use notice::Notice;
pub use ship::{ShipWords, ShippedWord};
pub use store::{CheckpointWords, FilesWord, SourceWord, StoreWord, StoreWords, StoredWord};
