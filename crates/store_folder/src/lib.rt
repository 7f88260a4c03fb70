//! A store: tables after so many commits, and the commits behind them in segments of a journal, in one folder.
//!
//! ```text
//! store/lock                 a server holds it                 store/checkpoint.lock    a checkpoint holds it
//! store/tables.3204000/      customer.tbl .. lineorder.tbl, and sizes: the tables after 3,204,000 commits
//! store/journal.3204000      the commits behind them: closed, since the next one has commits
//! store/journal.4204000      a server appends here
//! ```
//!
//! A segment is a file of groups, as a journal is (`journal`), behind a head of its own ([`SegmentHead`]). `sizes`
//! tells by what a journal's head knows the tables ([`Sizes`]); it is named last, and tables without it are not there.
//!
//! [`find_store`] finds the newest tables, or the newest that are after at most so many commits, and the segments
//! behind them: that of their number, and each later one that has commits, which is so where the gate behind its head is
//! open. To all else the commits behind these tables are one journal over them: a [`StoreFile`] is one file, of the head
//! that such a journal has and of the groups of the segments, one behind another. So whoever goes on with a journal goes
//! on with a store ([`StorePlace`]), and what is proved of it is proved of a store. A server begins the next segment
//! where its own has as many commits as it may have: the closed gate at the end of the old one is the gate that the new
//! one begins with.
//!
//! A [`GrowingStore`] is the same file as it grows under a server, for a reader without a lock (`journal`'s
//! `GrowingFile`): at the end of a segment it goes on in the one that has groups and begins behind as many commits as
//! its reader has counted. A checkpoint may take away the segment that is read, since its file is open, but not the one
//! behind it: that is told (`88 Gap`), and no commit is left out.
//!
//! A turn that is cut off leaves a file without a whole head, or a segment without commits. Neither is ever written
//! again: a later segment has a greater number, since a server goes on in the segment before.
//!
//! What changes a store's names goes through [`StoreSteps`], a server's turn and all of the commands `store` and
//! `checkpoint`. Each of its methods is a step of the machine of stores (`store_core`), and requires what the rules ask
//! of the calls before it (`store_core/specs/Calls`): tables get their name when their folder has all five and `sizes`
//! is written, all on the disk; a segment or tables go when newer tables have their name on the disk; a server begins
//! the next segment where its own ends, and writes into it when its name is on the disk. So such a run of calls is one
//! of the machine, and loses nothing that was told (`calls_are_a_run`), and a new store is there whole or not at all
//! (`a_new_store_is_whole`), where the following holds.
//!
//! What no contract states, and a reader of `src/steps` has to hold for true: each method makes the calls of the system
//! that are its step, and one that fails has made it, or not, or has synced some of the names; the folder of tables that
//! are noted as written is that of their number; whoever begins the steps of a checkpoint has the lock against others,
//! what it finds reads so, and what is written of it are the tables after its closed segments. Of `src/store_file`:
//! where a file rests, all of its last segment is on the disk, and its owner counts the commits (`journal_file`,
//! `JournalFile::rest`); the segments are one file, and keep what a crash may leave of one. Nobody else writes the last
//! segment: who holds the lock looks again which one that is. A [`GrowingStore`] (`src/segment_reader`) is such a file as
//! well, to which groups are added alone.
#![tactic(auto)]

mod fault;
mod file_name;
mod finding;
mod growing_store;
mod place;
mod placed_segment;
mod read_notes;
mod segment;
mod segment_head;
mod segment_reader;
mod served;
mod sizes;
mod steps;
mod store_file;
mod turns;

pub use fault::StoreFault;
pub use file_name::{checkpoint_lock_path, lock_path, segment_path, sizes_path, tables_path};
pub use finding::{FoundStore, StoreNumbers, find_store, list_store};
pub use growing_store::GrowingStore;
pub use place::{StorePlace, StoreUse};
pub use segment::OpenSegment;
pub use segment_head::SegmentHead;
pub use served::{OneFile, ServedJournal};
pub use sizes::Sizes;
pub use steps::{BegunSegment, StoreSteps};
pub use store_file::StoreFile;
pub use turns::SegmentTurns;
