//! Reference, which no program runs: a store as a machine without files, the rules of the calls that change one, and what
//! a start finds in its folder.
//!
//! A store is a journal that goes on in new files, its segments, beside tables that have the commits of the older ones
//! already. So a server can run for years, and a start takes the newest tables and the commits behind them.
//!
//! ```text
//! tables 0 ── segment 0: 7 ── segment 1: 8, 9            names are numbers: so many commits come before
//! tables 1 ───────────────────^                          tables 1 are tables 0 and commit 7: a checkpoint made them
//!
//! server      Append, Sync, Tell        its segment grows; a crash leaves what was synced, and first ones of the rest
//!             Begin, SyncNames, GoOn    a new segment; until the names are synced a crash may take the name back
//! checkpoint  Fold, SyncTables, NameTables, SyncName, DropTables, DropSegment
//! each        Stop, Crash, Start
//! ```
//!
//! A segment is closed where the one behind it has commits, so a checkpoint asks no server. `specs/Found` says what a
//! start finds: the newest tables and the chain of segments behind them. `specs/World` has the steps and what a crash
//! leaves, `specs/Runs` what holds of every run of them, by any commits and tables, each commit making the next tables
//! of those before it: whatever a crash leaves, a start finds a beginning of the log, with all that anyone was told of.
//! `specs/Copies` says the same of copies of the files, each of a moment of its own. `specs/Worked` is a run with all
//! steps, and `specs/Needed` shows of five rules what is lost without them. Each is the contract of a function of
//! [`laws`].
//!
//! A [`StoreCall`] is a call of a program on a store, as clauses see it, and `specs/Calls` says which call may be made
//! behind which others of the same caller: tables get their name when they are on the disk, what is older goes when that
//! name is, and a server goes on in a segment that it has begun where the old one ends, when its name is on the disk.
//! `store_folder` requires that before each of its calls. A server and a checkpoint that keep to these rules, each of its
//! own calls alone, make a run of the machine, in whatever order their calls come, whatever fails and whatever crashes
//! (`specs/Called`; [`laws::calls_are_a_run`]). A store that is made by them is there whole, or not at all
//! (`specs/Making`).
//!
//! [`find`] does what a start does first: of the numbers of a folder it tells the newest tables and the segments behind
//! them (`specs/Finding`: `Tells`), or the one fault that there is ([`FindFault`]). It reads each segment once, in the
//! order of their commits, so that they can be made again meanwhile.
//!
//! ```text
//! let found = find(alloc, &mut reader, &[0, 1], &[0, 1])?;      // after 1, no segment closed, 1 the last
//! ```
#![tactic(auto)]

mod calls;
mod finding;
pub mod laws;

pub use calls::StoreCall;
pub use finding::{FindFault, FoundStore, ReadsSegments, find};
