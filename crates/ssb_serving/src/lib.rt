//! The threads of a run over the live server: each client and each dispatcher in a thread of its own.
//!
//! ```text
//! speaker 1 ── client 1 ─┐                    ┌─ dispatcher 1
//! speaker 2 ── client 2 ─┼── live server ─────┤
//! ..                     ┘                    └─ dispatcher 2 ..
//!     └▶ what speaker 1, 2 .. left    └▶ the log
//! ```
//!
//! The contract of [`serve_streams`] (`specs/Streams.antt`): each speaker, in order, was given a new client of its own,
//! and kept what it promises of it and of what it left; what a client saw at the end is a beginning of the log, and its
//! own commits in the log are those of its number; the log is legal, and has no commit of anybody else; the dispatchers
//! that end are those that were handed in (`specs/Members.antt`). That a thread gets on is claimed by no proof.
//!
//! ```text
//! let run = serve_streams(&rt, rt.alloc(), loaded, speakers, 2)?;
//! ```
#![tactic(auto)]

mod clients;
mod dispatchers;
mod run_fault;
mod staff;
mod streams;
mod threads;
mod watch;

pub use clients::Spoken;
pub use run_fault::RunFault;
pub use streams::{StreamRun, run_opened, serve_opened, serve_streams};
pub use threads::EndedThreads;
pub use watch::{NoWatch, WatchesRun};
