//! The reports of the warehouse: the lines that tell a client what became of its refreshes and questions, and show it an
//! order.
//!
//! The one contract: what is written is the report of the reply, byte by byte; where a write fails, a part of it from its
//! beginning, of which something is left. No memory is taken. The definitions stand in `specs/`: `AnswerText`,
//! `RefreshText`, `OrderText` and `StatementText` (the lines), `Replies` (a reply, and those of the one-thread warehouse), `Report`
//! (the report of a list of requests), `Laws` (with memory to spare there is one report).
//!
//! ```text
//! write_reply(&mut output, &client.refresh(rt, &server, refresh))?;       // committed 1
//! write_answer(&mut output, &client.await_answer(rt, &server))?;          // Q4.1 at 1 rows 1
//!                                                                         // 1997|UNITED STATES|-1330
//! ```
#![tactic(auto)]

mod answer;
pub mod laws;
mod order;
mod overview;
mod refresh;
mod statement;

pub use answer::{write_after_bars, write_answer, write_answers, write_row};
pub use order::{ShownOrder, write_order};
pub use overview::{Overview, write_overview};
pub use refresh::{write_aborted, write_cause, write_receipt, write_refusal, write_reply};
pub use statement::{write_listing, write_statement};
