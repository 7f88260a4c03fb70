//! A journal of commits: what is recovered is the list of commits that was appended, whatever crashes.
//!
//! ```text
//! 1 000000000000179                        a group of `journal`: its gate and its length
//! 1b2cf535f27731c974343645a3985328         the checksum of the text behind it, by MD5
//! ssb_live journal 2                       the text of the first group, the head
//! customer|31800|300|4c7a ..               of each table how many bytes and rows its file has, and its checksum
//! ..
//! ```
//!
//! [`append_commits`] writes commits as one group: their text, as a trace has it, behind the line of its checksum.
//! [`open`] looks at the head of a file, and a [`JournalReader`] gives the commits that the file keeps, some after
//! some, or tells the first fault of it; nothing is written. [`replay`] makes them again over the tables, or names the
//! first that is refused. At the end, what a crash has torn is kept elsewhere; with evidence of that, [`begin`] cuts
//! it off, and writes the head of a new journal.
//!
//! The contract: a file keeps these commits (`specs/Kept`: `KeepsCommits`) where its groups are the head of these
//! tables and texts that spell the commits, in order. It keeps one list only (`laws::one_list_of_commits`), so what is
//! read back is what was appended. A crash at any moment of an append leaves the commits from before, with the new ones
//! all or without them. `specs/Opening` says why a file is not opened, `specs/Replays` which commit is refused. The
//! proof against crashes (`journal`) does not lean on checksums: a crash damages no group.
//!
//! A [`JournaledLog`] is a journal beside the log of a live server ([`LogSource`]): it keeps the beginning of the log
//! (`specs/Counts`: `KeepsFirst`). Threads share it as a [`SharedJournal`]. Who has to tell a client of a commit asks
//! [`SharedJournal::reach`] for its number. If the journal is there, it takes it away, appends all commits of the log
//! that the journal lacks as one group, puts it back and wakes the others; else it waits. What is committed meanwhile
//! is the next group. An [`OnDisk`] is made only of a disk that has promised so many commits (`HaveAtLeast`), and bears
//! its type: who tells of a commit holds one of at least its number. No call of a disk breaks a promise, so a crash at
//! any moment, also of a run that never ends, leaves all that was told until then
//! (`laws::promised_commits_are_left`). At the end, and where an append has failed, disk and log come back as a
//! [`LeftLog`]: whatever crashes then, so many commits are on the disk (`IsLeft`), and promised. That a journal has failed
//! is told with evidence too ([`SharedJournal::failure`]): what a failed append has left makes it.
//!
//! ```text
//! let mut reader = open(alloc, &marks, file)?;
//! .. = reader.next(rt, alloc)?;                                 // until none come; each time
//! replay(&mut store, &commits)?;
//! let OpenedJournal { found, kept, torn } = reader.finish();
//! let torn = keeper.keep_torn(torn)?;
//! let journal = begin::<D, Keeper>(alloc, &marks, found, kept.is_new, &torn)?;
//! let shared = SharedJournal::new(JournaledLog::new(journal, source, count));
//! let on_disk = shared.reach(rt, alloc, receipt.number)?;       // in each thread; then it is told
//! let left = shared.into_left(rt);                              // when no thread shares it any more
//! ```
#![tactic(auto)]

mod appending;
mod checksum;
mod commits;
mod failed_append;
mod fault;
mod head;
mod journaled_log;
mod kept;
pub mod laws;
mod on_disk;
mod opening;
mod reading;
mod replaying;
mod shared_journal;
mod single;
mod source;
mod texts;

pub use appending::append_commits;
pub use checksum::{CHECKSUM_LINE, seal};
pub use commits::MOST_TOGETHER;
pub use failed_append::FailedAppend;
pub use fault::JournalFault;
pub use head::{HeadForm, TableMark, head_of};
pub use journaled_log::{JournaledLog, LeftLog};
pub use kept::KeptCommits;
pub use on_disk::OnDisk;
pub use opening::{JournalOpenFault, OpenedJournal, begin};
pub use reading::{JournalReader, open};
pub use replaying::{ReplayFault, replay};
pub use shared_journal::{JournalFailed, SharedJournal};
pub use single::{commits_of_group, form_of_head};
pub use source::LogSource;
