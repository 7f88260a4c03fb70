//! The text of a trace: what a run leaves in a file, so that an audit can be made of it later.
//!
//! ```text
//! commit|1                        a commit of client 1, with the actions of its refresh in a script's own words
//! add
//! line|9|1|3|4|3|19971215|o|0|1|10|10|0|10|2000|0|19971215|AIR
//! end
//! answer|1|1|Q4.1|1               an answer to client 1, after 1 commit, to Q4.1; 1 row follows
//! row|1997|UNITED STATES|-1330
//! ```
//!
//! The contract of [`write_trace`]: on `Ok` the bytes added are the trace's text, and after a failed write a part of it
//! from its beginning; it takes no memory. That of [`read_trace`]: it gives exactly the trace that the text's records
//! spell, and an error is the first fault that they have, record by record and check by check; only a failed read and
//! want of memory may come before it. The law of both, [`legal_trace_is_read_back`]: the text of a legal trace of clients
//! 1 to 16 spells that trace and no other, so an audit of the text is an audit of the run.
//!
//! [`read_directly`] gives the commits of a text as they are written, without a reader of records, and knows no fault:
//! where it gives none, [`read_trace`] tells what the text spells.
//!
//! The definitions stand in `specs/`: `TraceText` (what is written); `Heads`, `Rows` and `Lines` (what one record says),
//! `Entries` and `Traces` (what a text spells, and its first fault); `Direct` (what is read directly); `Allowed` and
//! `RoundTrip` (which traces are read back).
//!
//! `write_trace(&mut bytes, &trace)?` and then `read_trace(alloc, bytes.as_slice(), 1_000_000)?` give an equal trace.
#![tactic(auto)]

mod answers;
mod commits;
mod committed;
mod control;
mod direct;
mod entry;
mod heads;
mod held;
mod laws;
mod round_trip;
mod rows;
mod sums;
mod taken;
mod trace;
mod unfinished;
mod word;
mod writing;

pub use committed::commits_are_allowed;
pub use direct::read_directly;
pub use heads::{AnswerHead, client_of_commit, head_of};
pub use held::{legal_trace_is_read_back, question_is_allowed};
pub use laws::one_reading;
pub use round_trip::{legal_traces_are_allowed, text_is_read_back};
pub use rows::{group_kinds, row_of};
pub use ssb_audit::{AuditFault, Told, Trace, audit};
pub use trace::read_trace;
pub use writing::write_trace;
