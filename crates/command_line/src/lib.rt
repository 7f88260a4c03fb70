//! Does what the words of the program's command line ask for.
//!
//! ```text
//! system ── words ─▶ words ── run_command_line ─┬─ query, run or none, ──────▶ query_command, run_command,
//!                             over arguments    │  audit, serve, export,         audit_command, serve_command,
//!                                               │  changes, ship                 export_command, changes_command,
//!                                               │                                ship_command
//!                                               ├─ help, version, wrong words ─▶ a text and a status
//!                                               └─ a job's fault ── ssb_hints ─▶ help below its line
//! ```
//!
//! It promises no more than safety: what the jobs write is in the contracts of those seven libraries, and what is written
//! for which words is shown by the cases of the program `cases`.
//!
//! ```text
//! let words = words(&rt)?;                // ssb_live query --data tables Q4.1
//! run_command_line(&rt, &rt, words.as_slice(), streams)
//! ```
#![tactic(auto)]

mod attending;
mod command;
mod commits_screen;
mod confirming;
mod end_bell;
mod histories;
mod job_help;
mod measured;
mod memory;
mod metrics;
mod named_journal;
mod pipes;
mod querying;
mod seconds_view;
mod shipping;
mod store_figures;
mod stores;
mod streams;
mod terminal_view;

pub use command::run_command_line;
pub use streams::{Streams, columns, words};
