//! The warehouse's script language: from the bytes of a client's script to the requests that it asks for, refreshes
//! (lists of whole-order actions, in the manner of TPC-H's refresh functions), questions, and the lines of orders.
//!
//! A script is text, one record a line, fields parted by `|`: `query|Q4.1` asks, `ask` .. `answer` asks several
//! questions that are answered together, `begin` .. `commit` is a refresh, and in it `add`, `amend`, `put` (each with
//! its `line` records) and `withdraw|KEY` are its actions. `order|KEY` asks for the lines of an order. `abort` in place
//! of `answer` or `commit` drops what was begun.
//! The one contract, of `read_script`: the requests are exactly those whose lines the script's records spell, and an
//! error is the first fault that the script has, record by record and check by check; only a failed read and lack of
//! memory may come before it.
//!
//! `read_questions` takes a script of `query` records alone: its questions in order, or the first record that is none.
//!
//! A live session's text is cut into requests as it comes ([`next_request`]), each of which is read as a script of its
//! own: a line; or a block, which are the lines from a `begin` through the first `commit` or `abort` behind it, or from
//! an `ask` through the first `answer` or `abort`.
//!
//! ```text
//! query|Q1.1          the first request
//! begin               the second, of three lines
//! withdraw|7
//! commit
//! que                 the rest: it has no end yet
//! ```
//!
//! Many requests at hand ([`requests_at_hand`]) are read as one script ([`read_together`]), and each asks what it asks
//! as a script of its own: a reader of records costs as much to make as dozens of records to read.
//!
//! The definitions stand in `specs/`: `Lines` (what one record says), `Requests` (the lines of an action and of
//! questions), `Scripts` (what a text spells, the checks in their order, and the first fault) and `Questions` (a text
//! that only asks); `Blocks` (which lines begin and end a block), `Cutting` (the requests of a text), `NextRequest`
//! (what a read of the next gives), `Taking` (the same of its parts) and `Ahead` (requests that are read before their
//! turn).
//!
//! `read_script(alloc, "query|Q1.1\n".as_bytes(), 1_000_000)?.requests` is one request, the question of Q1.1.
#![tactic(auto)]

mod at_hand;
mod begun;
mod block;
mod control;
mod cutting;
mod error;
mod fields;
mod laws;
mod order_line;
mod pieces;
mod question;
mod questions;
mod request;
mod request_error;
mod script;
mod statement;
mod together;
mod word;

pub use at_hand::{AtHand, has_request, request_length, requests_at_hand};
pub use begun::{Begun, BegunOrder, ScriptStep};
pub use block::{BlockKind, begun_behind, ends_request};
pub use control::{Control, OrderOpening, key_of};
pub use cutting::{MOST_BYTES, NextRequest, next_request};
pub use error::ScriptError;
pub use laws::{
    cut_as_it_comes, has_cutting, one_cutting, one_reading, questions_are_a_script,
    script_of_requests, spelled_has_no_fault,
};
pub use order_line::OrderLine;
pub use question::{constants_from, question_at};
pub use questions::{MOST_ALONE, QuestionsError, read_questions};
pub use request::{Asking, MOST_QUESTIONS, Request, Script};
pub use request_error::RequestError;
pub use script::{MOST_RECORDS, read_script};
pub use statement::StatementAsked;
pub use together::read_together;
