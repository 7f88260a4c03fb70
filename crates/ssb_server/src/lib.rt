//! The live server: clients refresh the warehouse and ask it while it changes, and dispatchers answer their questions
//! in batches, each batch over one snapshot that was brought up to date before it.
//!
//! **The headline.** There is one list of commits. Every client sees a beginning of it, which only grows; its own
//! commits are in what it sees as soon as it is told of them, and the answers to a request are what its questions mean
//! after the first `at` commits of the list, all of them for one `at`, no less than the number of commits that the
//! client had seen when it asked.
//!
//! What a client needs stands in `ssb_clients`, over any writer that follows the commits; here it is said of the writer
//! of the columns (`Server`, `Client`, `LogReader`), beside what a dispatcher needs. Contracts see each of them as a
//! token (`specs/Ends.antt`, and `ssb_clients`); what a call does not name of it stays, and to the record of what it
//! did the call adds the events of `specs/Deeds.antt`, no others. Which clause says which part, beside what
//! `ssb_clients` lists:
//!
//! - batches, of whole requests: `Dispatcher::turn`, clauses `turned` (idle, answered at the length of what is then
//!   seen, or given up) and `free`;
//! - the beginning and the end: `Loaded::new` (which questions stand changes no answer), `open`, clauses `clients`,
//!   `dispatchers` and `reader`; `Opened::close`, clauses `whole`, `legal`, `seen`. Who reads the log is one dispatcher
//!   more at the table, and there is one where `Keeps::Unread` asks for it.
//!
//! ```text
//! client ── refresh ─▶ row store ── log ─▶ copies of the columns ── rows ─▶ dispatcher ── answer ─▶ client
//!
//! let loaded = Loaded::new(&rt, alloc, hashing, &base, &[])?;
//! let Opened { server, mut clients, mut dispatchers, reader } = open(alloc, &rt, loaded, 2, 1, Keeps::All)?;
//! clients[0].ask(&server, questions);                        // in one thread
//! dispatchers[0].turn(&rt, &server, &OpenGate);              // in another
//! let answer = clients[0].await_answer(&rt, &server);
//! ```
#![tactic(auto)]

mod answers;
mod batch;
mod closing;
mod dispatcher;
mod following;
mod grabbing;
mod loaded;
mod opening;
mod passes;
mod snapshot;
mod tickets;
mod turn;

pub use closing::{CloseError, Closed};
pub use dispatcher::TwinDispatcher;
pub use loaded::Loaded;
pub use opening::{OpenFault, Opened, open};
pub use passes::{AnswersBatch, RequestRows};
pub use ssb_clients::{Keeps, MOST_CLIENTS, MOST_DISPATCHERS};
use standing_columns::StandingColumns;
pub use standing_columns::StandingError;
pub use turn::{OpenGate, ScanGate, Turn};
pub use twin_cell::EndsCopies;
use twin_cell::TwinWriter;

/// The writer of the two copies of the columns, which waits by `W`.
pub type ColumnsWriter<W> = TwinWriter<StandingColumns, W>;

/// What the clients and dispatchers of a server over columns share.
pub type Server<W> = ssb_clients::Server<ColumnsWriter<W>>;

/// A client of such a server.
pub type Client<W> = ssb_clients::Client<ColumnsWriter<W>>;

/// A dispatcher of such a server.
pub type Dispatcher<W> = TwinDispatcher<StandingColumns, W>;

/// Who reads the log of such a server.
pub type LogReader<W> = ssb_clients::LogReader<ColumnsWriter<W>>;
