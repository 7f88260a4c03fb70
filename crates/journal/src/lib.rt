//! A journal: groups of bytes in a file, each on the disk before it is acknowledged, whatever crashes.
//!
//! A file is groups, each behind an open gate and a head that tells its length, and then a closed gate:
//!
//! ```text
//! 1 000000000000004     an open gate, and how many bytes follow
//! one                   (the fourth byte is the end of the line)
//! 1 000000000000004
//! two
//! 0                     the closed gate: nothing behind it counts
//! ```
//!
//! [`Journal::append`] writes a group behind the closed gate, syncs, opens the gate by a write of its own, and syncs.
//! So a crash at any moment leaves the groups from before, with the new one whole or without it; at `Ok` each crash
//! from then on leaves a file that has it. [`UnreadJournal`] reads the groups one after another, of a file that cannot
//! be written yet ([`UnreadDisk`]); [`Found::mend`] then cuts off what a crash has torn, and takes evidence that this
//! is kept elsewhere ([`KeepsTorn`]). It may crash too, at any moment, and the file then stands for the same groups.
//!
//! The contract speaks of a [`Disk`] with a clock: what its file holds, what a crash at this moment may leave, and
//! what a crash at some moment since might have left (`specs/Disk`). Until a sync, a crash may leave any bytes in the
//! range of a write, and any length between. `specs/Groups` says what a file stands for; `specs/Calls` is a disk as
//! the list of its calls, for those who make one.
//!
//! Groups that were read of a file, and those that were acknowledged, are promised ([`Disk::promise`]). A call that
//! changes the file requires that no crash in the course of it breaks a promise (`specs/Promises`), so at no moment a
//! crash leaves less than was promised until then, also in a run that is cut off or never ends.
//!
//! A file that another process writes is read without a lock ([`GrowingFile`]): a [`Followed`] takes its groups, each
//! once and in order, and syncs it by a handle of its own before it hands one on (`specs/Growing`). What it finds is
//! what the file stood for at some moment (`laws::slow_read_is_of_one_moment`).
//!
//! ```text
//! let mut unread = UnreadJournal::new(alloc, file);
//! while let Some(group) = unread.next_group(alloc)? {..}  // look at each before anything is written
//! let (found, torn) = unread.into_found();
//! let kept = keeper.keep_torn(torn)?;
//! let mut journal = found.mend::<Keeper>(&kept)?;
//! journal = journal.append(alloc, b"insert 1\n", 1)?;     // on the disk
//! ```
#![tactic(auto)]

mod disk;
mod followed;
mod gated;
mod groups;
mod growing;
mod journal;
pub mod laws;
mod reading;
mod torn;
mod unread;

pub use disk::{Disk, DiskError};
pub use followed::Followed;
pub use gated::{MAX_GROUP, behind_gate, open_block};
pub use groups::CLOSED;
pub use growing::GrowingFile;
pub use journal::{Found, Journal};
pub use reading::UnreadJournal;
pub use torn::KeepsTorn;
pub use unread::UnreadDisk;
