//! What the journal promises, shown in memory: on a disk that tears at every write, each commit that was told comes
//! back, and none but those of the log, wherever a crash cuts the run off. Where the disk refuses a call, nothing more
//! is told.
//!
//! A [`TearingDisk`] keeps its calls, and what a crash leaves is made of them, drawn by a seed. It is proved to be a
//! disk as `journal` speaks of one. Of what it makes of a crash no clause speaks: tests alone ask for it. [`tear`] is what
//! a crash makes of one write.
//!
//! ```text
//! let file = UnreadTearing::new(alloc, b"", None)?;    // a journal is read of it, and commits are appended
//! let file = disk.crashed(17, 3)?;                     // a crash once 17 calls have begun, drawn by the seed 3
//! ```
#![tactic(auto)]

mod tearing;
mod tearing_disk;
#[cfg(test)]
mod tests;
mod unread_tearing;

pub use tearing::{Dice, tear, write_over};
pub use tearing_disk::{DiskCall, TearingDisk};
pub use unread_tearing::UnreadTearing;
