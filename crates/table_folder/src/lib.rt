//! A folder that takes the five tables: all of them, or no `lineorder`, whatever crashes.
//!
//! ```text
//! customer.tbl.part .. lineorder.tbl.part     written and synced
//! customer.tbl supplier.tbl part.tbl date.tbl named, and the folder synced
//! lineorder.tbl                               named last: where it is, all are
//! ```
//!
//! Contracts see a folder ([`TableFolder`]) as the calls on it (`specs/Calls`): a file is made, synced, named; the names
//! are synced. A crash may take each name that was given since the last sync of the names, or leave it; and of a file
//! that was named before it was synced it may leave anything. The contract of [`fill`] (`specs/Filled`): at `Ok` the
//! folder has the five texts, and each crash from then on leaves them; a crash at any moment until then leaves no
//! `lineorder`, or all five.
//!
//! [`FilesFolder`] is a folder of the operating system. Each of its methods notes the calls that it makes in a transcript
//! that only clauses read. What no contract can state, and a reader of `src/files_folder` has to hold for true: each
//! method makes the calls that it notes, in their order; the system keeps what `sync_all` promises, of files and of
//! folders; `rename` takes the name away from nothing else; nobody else writes in the folder.
//!
//! ```text
//! let Some(mut folder) = FilesFolder::find(files, alloc, "tables-2")? else { return refused };
//! fill(alloc, &mut folder, &tables)?;         // tables: TableTexts
//! ```
#![tactic(auto)]

mod files_folder;
mod filling;
mod folder;
mod laws;
mod transcript;

pub use files_folder::FilesFolder;
pub use filling::{FillFault, fill};
pub use folder::{TableFolder, TableTexts};
pub use laws::a_crash_leaves_something;
