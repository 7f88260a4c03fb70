//! The word `ship`: the groups of a journal that count, on standard output, as they come.
//!
//! ```text
//! a journal's file, which a server writes ── Followed ─▶ groups, each on the disk ── ship ─▶ 1 000000000000285 ..
//!                                            └ commits_of_group: damage is told, commits are counted
//! ```
//!
//! The contract of [`ship`] (`specs/Stream`, `specs/Shipped`): what was written is a beginning of the stream of the
//! groups that were taken of the file, whatever ends it, and all of the stream where nothing fails. The stream is the
//! head and the groups behind it, in order and each once; or, behind a commit, the head, a mark that tells how many
//! commits come before, and the other groups. A file may begin behind commits of its history ([`Shipment::past`]):
//! numbers are those of the history. Signs of life stand behind its first group. No crash takes away from the file what
//! was taken of it, and nothing is written but what was taken. Since a write may fail at any time, what is so when it
//! ends is so at each write.
//!
//! That of [`run_ship`]: with status 0 the groups that the file stands for were written.
//!
//! ```text
//! let place = WatchedPath { files, path: "orders.journal" };
//! let shipment = Shipment { past: 0, after: 0, once: true };
//! let status = run_ship(clock, alloc, &place, shipment, &mut out, &mut err);
//! ```
#![tactic(auto)]

mod fault;
mod opens;
mod running;
mod sending;
mod shipping;
mod taking;

pub use fault::{ShipFault, ShipRefusal};
pub use opens::{OpensGrowing, WatchedPath};
pub use running::run_ship;
pub use shipping::{Shipment, ship};
pub use taking::{CountedGroup, LeftOut, ShippedFile};
