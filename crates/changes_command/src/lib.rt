//! The word `changes`: what each commit of a journal brought and took away, as signed lines on standard output.
//!
//! ```text
//! tables ── base_of ─▶ base ─────────────┐
//! journal ── next ─▶ commits, some after some ── write_commits ─▶ 2|-1|7|1|.. , 2|1|7|1|.. , ..
//!                                        └ row store: what an order has when it goes
//! ```
//!
//! The signed lines of a history (`specs/Signed`: `signed_lines`) are the loaded lines, with commit 0, and then, commit
//! by commit and action by action, the lines that go and those that come. Where commits came before those of the
//! journal, as in a store, numbers count these too ([`AskedChanges`]): behind `past` of them the loaded lines are with
//! commit `past`, and the journal's first commit is `past + 1`. The law of them is the contract of [`signs_add_up`]
//! (`specs/Laws`): for each line and each n, its signs up to commit `past + n` add up to how often it is among the lines
//! after the first n commits of the journal. So whoever keeps them can tell the lines of every moment.
//!
//! They are written in one of three formats ([`ChangesFormat`], `specs/SignedText`): fields between bars; as CSV, below
//! their names; or each as a JSON object.
//!
//! The contract of [`write_history`] (`specs/Written`): what is written is the text of the signed lines that are asked
//! for, of the commits that the file keeps, which are a legal history over the base; or why it is not. That of
//! [`run_changes`]: with status 0 so much was written of the tables that the five texts spell.
//!
//! Commits are made again in a row store as the file is read, and forgotten, so memory is that of the live lines. What
//! an order has when it goes is read off the store, or, where an earlier action of the same refresh has brought or taken
//! it, off that action.
//!
//! The groups may come as a stream, as `ship` writes them ([`run_feed`], `specs/Fed`): then those lines are handed on as
//! each group comes, for as long as the stream goes on. What it gives is known where its input's bytes are.
//!
//! ```text
//! let source = ChangesSource { base, marks: &marks, file, together: MOST_TOGETHER };
//! let asked = AskedChanges::of_journal(ChangesStart::Behind(2), ChangesFormat::Report);
//! let read = write_history(rt, alloc, hashing, source, asked, &mut out)?;
//! // out: 3|1|9|1|3|4|3|19971215|o|0|1|10|10|0|10|2000|0|19971215|AIR
//! ```
#![tactic(auto)]

mod asked;
mod changing;
mod csv_text;
mod fault;
mod feed_fault;
mod feed_stream;
mod feeding;
mod format;
mod history;
mod json_text;
mod laws;
mod report_text;
mod signed;
mod writing;

pub use asked::AskedChanges;
pub use changing::{ChangesPlace, changes, run_changes, write_changes};
pub use fault::{ChangesFault, ChangesRefusal};
pub use feed_fault::{FeedFault, FeedJobFault, FeedRefusal};
pub use feeding::{FeedPlace, follow, run_feed, write_feed};
pub use format::ChangesFormat;
pub use history::{ChangesSource, ReadHistory, write_history};
pub use laws::signs_add_up;
pub use signed::{ChangesStart, Sign};
