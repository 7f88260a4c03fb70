//! The audit of a run: whether what its clients were told is true of the history that it left.
//!
//! A run of the server leaves a trace: its commits, in the order of the log, and the answers that its clients got. The
//! audit trusts nothing of the server: it applies the commits one after another to a row store of its own, and then
//! takes them into columns, over which it asks each answer's question again after as many commits as the answer says.
//! The answers after as many commits are one batch, or more where they are more than 16.
//!
//! ```text
//!  answers in the trace's order ── before the first fault of order ──▶ visits, by number of commits
//!                                                                         │ a batch
//!  commits ── one after another ──▶ columns ── scan ──▶ rows ──▶ the first place in the trace that has others
//! ```
//!
//! The one contract, of [`audit`]: it ends well only for a legal trace. Each commit is accepted after those before it;
//! each answer is over a number of commits that there were, has the rows that the benchmark defines for that warehouse,
//! and is never earlier than an answer that the same client got before. Any other end but want of memory tells the
//! first fault, in the order of its numbers' table. The definitions stand in `specs/Traces.antt`.
//!
//! ```text
//! audit(&rt, alloc, base, RandomState::new(&rt)?, &trace)?;   // or `81 WrongRows 1 1`
//! ```
#![tactic(auto)]

mod answers;
mod commits;
mod fault;
pub mod laws;
mod snapshot;
mod trace;
mod verdict;
mod visits;
mod walk;

pub use fault::AuditFault;
pub use trace::{Told, Trace};
pub use verdict::audit;
