//! A journal's disk as a file of the operating system.
//!
//! [`UnreadFile::open`] opens a file that is there, locks it, and syncs it and its folder. It is read part by part,
//! each part noted, and then is a [`FileDisk`]: each method makes one call of the system and notes it, with whether it
//! succeeded, in a transcript that only clauses read. The contract is that of `journal`'s `UnreadDisk` and `Disk`,
//! over these notes (`journal/specs/Calls`). [`UnreadFile::make`] is the same, and makes the file where there is none;
//! with [`UnreadFile::open_to_read`] no write to it succeeds. Where they tell that a file is not there, they name its
//! path, as [`find_journal`] does, which only looks (`specs/Missing`).
//!
//! What no contract can state, and a reader of `src/file_disk` has to hold for true: each method makes the call that
//! it notes; what is read after `sync_all` is what is on the disk, and all of it where a read gives no bytes;
//! `sync_data` keeps its promise; the bytes outside a written range stay as they were; nobody else writes the file.
//! After a call that fails, each further one on that file fails; the system may then still show bytes that the disk
//! lacks, so restart the machine before the file is opened again.
//!
//! [`WatchedFile::open`] opens a file that another process may write, without a lock (`journal`'s `GrowingFile`). What a
//! reader has to hold for true of it: one read goes front to back, and gives the bytes that stand there as it comes to
//! them; a write of one byte is not torn to it; `sync_data` of its own handle puts on the disk what another process of
//! the same machine wrote before.
//!
//! [`keep_torn`] puts the bytes that a mend will cut off behind those of a file beside the journal, and gives evidence
//! of it: a [`TornFile`], for a mend takes what is made of one (`journal`'s `KeepsTorn`).
//!
//! ```text
//! let file = UnreadFile::open(rt, alloc, "orders.journal")?;    // of rt's files: each that is a JournalFile
//! let mut unread = UnreadJournal::new(alloc, file);
//! while let Some(group) = unread.next_group(alloc)? {..}
//! let (found, torn) = unread.into_found();
//! let kept = keep_torn(rt, alloc, "orders.journal", torn)?;
//! let journal = found.mend::<Keeper>(&kept)?;                   // `Keeper::Kept` is `TornFile`
//! ```
#![tactic(auto)]

mod file_disk;
mod no_journal;
mod torn;
mod transcript;
mod watched_file;

pub use file_disk::{
    FileDisk, JournalFile, OpenError, UnreadFile, find_journal, make_locked, open_locked, sync_name,
};
pub use no_journal::NoJournal;
pub use torn::{TornFile, keep_torn, torn_path};
pub use watched_file::{ReadPart, WatchedFile};
