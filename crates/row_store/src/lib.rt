//! The primary replica of the warehouse: the live orders by key, and the log of commits. And what other replicas are.
//!
//! A refresh adds, amends, puts and withdraws whole orders, all of it or nothing. `RowStore::check` tells whether it
//! would be accepted, or the first action that is refused and why; `RowStore::apply` makes an accepted refresh the next
//! commit, and `RowStore::refresh` is the same with what a client is told. Orders are found by key, so none of them
//! depends on the number of lines, and the loaded lines are never copied. Keys hash with random keys, so that no client
//! can pick some that collide.
//!
//! The contract: the store answers as a warehouse of one thread does that keeps a plain list of lines.
//! `specs/Lines.antt` says what an action does to that list, `specs/Refusals.antt` which refresh is refused and why,
//! and `specs/Legal.antt` what the one-thread warehouse replies and which histories it can have. `specs/Laws.antt` has
//! what holds of every history, beginning, state and reply: the crates above cite these laws.
//!
//! Other representations follow the log: a `Replica` absorbs commits, and its state (`specs/State.antt`: how often each
//! fact is live) stands for the commits that it took. `PlainLines` is the simplest one.
//!
//! ```text
//! let mut store = RowStore::new(alloc, base, RandomState::new(&rt)?)?;
//! let receipt = store.apply(client, refresh)?;          // commit number `receipt.number`
//! if let Some(commits) = store.log_from(taken) { for commit in commits { plain.absorb(commit)?; } }
//! ```
#![tactic(auto)]

mod commit;
mod index;
pub mod laws;
mod log;
mod order_lines;
mod place;
mod plain;
mod refusal;
mod replica;
mod store;

pub use commit::{Commit, Receipt};
pub use log::Log;
pub use order_lines::OrderLines;
pub use plain::PlainLines;
pub use refusal::{ApplyError, Cause, RefreshError, Refusal};
pub use replica::{Follower, Replica};
pub use store::RowStore;
