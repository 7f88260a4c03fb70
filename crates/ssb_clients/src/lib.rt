//! What a client of the live server needs: clients, which refresh the warehouse and ask it while it changes, who reads
//! the log of commits, and the server that they share with the dispatchers.
//!
//! Contracts see a client, and who reads the log, as a token (`specs/Clients.antt`, `specs/Fetching.antt`); what a call
//! does not name of it stays, and to the record of what it did the call adds the events of `specs/Deeds.antt`, no
//! others. Which clause says which part:
//!
//! - one list of commits, and legal: `Client::soundness` (`IsSound`: the history that the token has seen is legal, its
//!   own commits are those of its number); it only grows: `begins` in what `refresh`, `ask`, `poll` and `meet` say;
//! - own commits: `Client::refresh`, clause `refreshed`: a receipt's number is the length of what is then seen, which
//!   ends with the commit; a refusal is the one-thread warehouse's after what is then seen, and tells its length;
//! - the lines of an order: `Client::order`, clause `lines`, after all that is then seen;
//! - floors: `Client::ask`, clause `asked`; answers: `Client::poll` and `Client::await_answer`, clause `polled`
//!   (`IsRight`);
//! - what others have seen: `Client::meet`, clause `met`;
//! - who keeps a journal: `LogReader::commits_from`, clauses `commits` (all of the log behind those that it has taken)
//!   and `reads`.
//!
//! A server is over a table with any writer `K` that follows the commits: clients wait for no scan, and none of this
//! speaks of columns. Who answers, opens and closes stands over it, in `ssb_server`, and has from here what it needs
//! for a token in its hand: `Server::fetch`, `Server::table`, and how it wakes others and is woken. A client's own
//! token is never lent, so what a client is between two calls no other crate can break.
#![tactic(auto)]

mod bells;
mod client;
mod copying;
mod lag;
mod log_reader;
mod order;
mod pace;
mod room;
mod server;
pub mod tickets;
mod unneeded;

pub use client::Client;
pub use history::{SharedTable, Token};
pub use log_reader::LogReader;
pub use room::ClosingRoom;
pub use server::{MOST_AT_TABLE, MOST_CLIENTS, MOST_DISPATCHERS, Server, Shared};
pub use unneeded::Keeps;
