//! The words `store` and `checkpoint`, and what is read of a store: a new store of five tables, newer tables of a
//! store's closed segments, a base or an export of the tables after some commits or all, the changes of commits, and
//! the groups of its segments as they come.
//!
//! ```text
//! store        tables ── export, of no commits ─▶ tables.0, journal.0, and sizes
//! checkpoint   tables.N and the closed segments ── export ─▶ tables.M, and its sizes; what lies before tables.N goes
//! at commit K  the newest tables.N with N ≤ K, and the first K - N commits behind them ─▶ base, or FOLDER
//! changes      the newest tables.N, or those with N ≤ K, and all commits behind them ─▶ signed lines
//! ```
//!
//! The tables of a store are written as an export is (`export_command`): all five, or no `lineorder`, whatever crashes.
//! `sizes` is named when they are on the disk, and by it alone they are there. So a crash at any moment leaves the
//! store that was there, or that with the newer tables. All that either word does to a store's names is a step of
//! `StoreSteps` (`store_folder`), which may be made only behind those that the rules ask for: a body that names tables
//! before they are written and on the disk, or that takes anything away before the name of newer tables is, is refused.
//! A checkpoint needs no lock of a server: it never touches the last segment, and takes away only what lies before two
//! tables that are whole, the older of which have their name on the disk. A start that has found these, and still loads
//! them while a checkpoint names newer ones, finds all segments behind them. The newer tables have as many commits as
//! the names of the segments tell; else they are not named. A checkpoint that is told a commit from which on all moments
//! are kept takes away only what lies before the tables that lead to it.
//!
//! A [`StoreSource`] is the source of a base: the newest tables, or older ones where it asks for an earlier commit, and
//! the commits behind them, beside a server too. Where fewer are there than come before the last segment, files of the
//! store are missing, and that is told (`88 Gap`); so it is by [`run_store_export`], before anything is written, and by
//! [`run_store_changes`], behind the changes of those that are there.
//!
//! [`run_store_ship`] writes the groups of a store as they come (`ship_command`), over turns of its server.
//!
//! What no contract states, and a reader of `src/store_source` and `src/store_ship` has to hold for true: the tables and
//! the commits are those of the store. That a base is the tables after so many legal commits over others, and that the
//! changes are those of legal commits over the tables that were loaded, is proved (`specs/Moments`), and that all groups
//! of such a journal were written (`specs/Shipped`).
#![tactic(auto)]

mod checkpoint;
mod fault;
mod finding;
mod making;
mod no_commits;
mod putting;
mod reading;
mod store_changes;
mod store_export;
mod store_ship;
mod store_source;
mod tables;

pub use checkpoint::{CheckpointPlace, run_checkpoint};
pub use fault::{StoreJobFault, StoreRefusal};
pub use finding::find;
pub use making::run_store;
pub use store_changes::{StoreChanges, run_store_changes};
pub use store_export::{StoreExport, run_store_export};
pub use store_ship::{StoreShip, run_store_ship};
pub use store_source::StoreSource;
