//! What a store promises, shown in memory: of files and folders that tear at every call, a start finds each commit that
//! was told, and none but those of the log, wherever a crash cuts a server or a checkpoint off. After it both go on.
//!
//! [`TearingFiles`] keep their calls, and what a crash leaves is made of them, drawn by a seed: of each file what its last
//! sync has put on the disk, and any part of what was written since; of each folder the names as of its last sync, and any
//! of the later changes, name by name, in no order among names. Of what they make of a crash no clause speaks: tests alone
//! ask for it.
//!
//! ```text
//! let files = TearingFiles::new(alloc)?;               // a store is made, served and folded among them
//! let left = files.crashed(17, 3)?;                    // a crash once 17 calls have begun, drawn by the seed 3
//! let left = files.killed(17)?;                        // a kill there: nothing is lost, until a crash comes
//! ```
#![tactic(auto)]

mod calls;
mod crash;
mod files;
mod noted;
#[cfg(test)]
mod tests;
mod tree;

pub use files::{TearingFile, TearingFiles};
