//! The word `export`: the five tables as they are after a journal's commits, written into a folder; and a base of them,
//! after all of these commits or the first ones.
//!
//! ```text
//! tables ── base_of ─▶ base ────────────────────────────────────────────────────┐
//! journal ── next ─▶ commits, some after some ── replay, follow ─▶ standing orders ── fill ─▶ FOLDER
//!                                                                               └── to_base ─▶ base
//! ```
//!
//! The tables after a history (`specs/After`: `tables_after`) are the dimensions as they were and the lines after it.
//! Those of the loaded lines that still stand come first, and then the lines that commits added and none took away, in
//! the order of the commits. Commits are forgotten once they were made again, so the length of a journal takes no
//! memory: `standing_orders` keeps the keys of the loaded orders that are gone, and of the orders that commits added
//! those that stand, each by its refresh, and at most as many others or a few more. One pass over the loaded lines and
//! one over these orders write all lines, and none is copied.
//!
//! The contract of [`write_table`]: what is written is the text of a table after the history. That of
//! [`read_journal`] (`specs/Exported`): the tables after the commits that the file keeps, or why there are none. That of
//! [`export_into`], over these and a folder as its model has it (`table_folder`): at `Ok` the folder has the five texts
//! of the tables, each crash from then on leaves them, and a load of them gives these tables; a crash at any moment until
//! then leaves no `lineorder`, or all five. [`run_export`] opens both: with status 0 the tables spell a base, and the
//! folder that it hands back has the texts of the tables after the commits of the file, which spell these tables.
//!
//! A [`Moment`] names a commit by its number, counted from the first of a history, some commits of which came before
//! those of the journal. The contract of [`read_history`] (`specs/Histories`): the tables after the first commits of the
//! file up to that one, or why there are none. It is read no further than the groups that are read together with the
//! last of them. [`TablesAfter::to_base`] gives a base of the same tables, and with it a [`HistorySource`] is a source
//! of one.
//!
//! ```text
//! let read = read_journal(rt, alloc, hashing, ExportSource { base, marks: &marks, file })?;
//! export_into(alloc, read, &mut folder, &mut err, true)?;      // ssb_live: journal: 1204 commits
//! ```
#![tactic(auto)]

mod base_after;
mod copied_rows;
mod exporting;
mod fault;
mod history_source;
mod history_tables;
mod laws;
mod moment;
mod orders;
mod replaying;
mod standing_orders;
mod tables_after;
mod writing;

pub use exporting::{
    ExportEnd, ExportPlace, ExportSource, JournalTables, export, export_into, fill_folder,
    find_folder, read_journal, run_export,
};
pub use fault::{ExportFault, ExportRefusal, NotEmpty};
pub use history_source::{HistorySource, read_source};
pub use history_tables::{TablesAt, read_history};
pub use laws::tables_after_are_sound;
pub use moment::Moment;
pub use tables_after::TablesAfter;
pub use writing::write_table;
