//! What serves one client over the live server: its requests, one after another to their replies, and live sessions,
//! where a client writes requests to a stream of bytes, and is answered on another, request by request as they come.
//!
//! ```text
//! requests ── serve_requests ── client ── live server
//!                 └▶ their report, and the answers with rows that the client was told
//!
//! wire ── next request ── its script ── live server ── replies, held ── hand_on ──▶ wire
//!     └── a fault: one line, `fault: 70 BadLine 2`, and nothing was done
//! ```
//!
//! The contract of [`serve_requests`] (`specs/Served.antt`): request by request one reply, true as the server's calls
//! say, whose report is written; the answers with rows are kept, in order. Whatever ends it, nothing is outstanding
//! then. The answers to one request are of one moment ([`laws::one_moment`]).
//!
//! The contract of [`serve_session`] (`specs/Session.antt`): the bytes that it read are cut into requests, each of which
//! was answered by the report of what it asks, as the loop of scripts serves it, or by the line of its fault, which
//! changed nothing (`specs/Answers.antt`); the client went through exactly those, in order; and this text was written.
//! A request may name a format, in which the client is told from there on, or look something up, as the values of a
//! column (`specs/SessionRequests.antt`, `specs/Lookups.antt`): it is read where a request is no script. So a session's
//! state is the client and its format, and its [`Terms`], which stay (`specs/Speaking.antt`). One that takes no
//! refreshes tells `fault: 68 ReadOnly` of each request that has one. Where commits came before those of the log
//! ([`Past`]), the numbers in replies count them (`specs/WithPast.antt`). A session that breaks says how many requests
//! were answered.
//!
//! Requests come and replies leave by a [`Wire`] alone, whose history contracts see (`specs/Conversation.antt`): a text
//! is passed on with [`Evidence`] in hand, made by who [`Acknowledges`], of all commits that the client has seen then, so
//! of all that a receipt or an answer tells of; and the session looks for more, so that it may wait for its client, only
//! where no reply is held. A server without a journal tells at once ([`AtOnce`]), and pays nothing.
//!
//! Three laws: what is told in such a conversation is the replies to the requests that were taken, in order, and
//! nothing else (`specs/Exchange.antt`); a legal script without lone CRs and byte order marks, whose refreshes are
//! taken, has the replies of the whole script though it is answered request by request, or the text of a statement is
//! refused (`specs/WholeScripts.antt`); a session that takes no refreshes commits nothing (`specs/ReadingOnly.antt`).
//!
//! ```text
//! serve_requests(&service, &mut client, script, &mut report, &mut told, &mut NoMeter)?;
//! let SessionLeft { wire, outcome } = serve_session(&service, &mut client, input, output, terms);
//! let (closed, told) = wire.close();
//! ```
#![tactic(auto)]

mod acknowledges;
mod ahead;
mod answer;
mod events;
mod fault_line;
mod held;
mod kept;
pub mod laws;
mod lookup;
mod manner;
mod meter;
mod outcome;
mod past;
mod reply;
mod requests;
mod serve_error;
mod service;
mod session;
mod session_request;
mod speaks;
mod step;
mod told_with;
mod wire;
mod with_past;

pub use acknowledges::{Acknowledges, AtOnce, Evidence, NotAcknowledged, Nothing};
pub use manner::Terms;
pub use meter::{Meter, NoMeter, RequestKind};
pub use outcome::{Ending, ReadOnly, Served, SessionError, SessionFault};
pub use past::{MOST_PAST, Past};
pub use reply::Reply;
pub use requests::{serve_request, serve_requests};
pub use serve_error::{ServeError, ServeStop};
pub use service::Service;
pub use session::{SessionLeft, serve_session};
pub use speaks::{Speaker, Speaks};
pub use told_with::ToldWith;
pub use wire::{ClosedWire, NotPassed, Wire};
