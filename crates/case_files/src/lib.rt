//! What a case says, the files in memory that its commands run over, and what differs from what it wants.
//!
//! ```text
//! text ── parse_case ─▶ Case: files, commands
//!                         files ── MemoryFiles, in place of the system's
//!                         what a command did ── find_difference ─▶ what differs first
//! ```
//!
//! It stands on no command: the program `cases` runs them. It is proved that the library is safe, and that a command of
//! which nothing differs wrote the bytes, and ended with the status, that its case wants ([`find_difference`]).
#![tactic(auto)]

mod breaking;
mod case;
mod difference;
mod fault;
mod files;
mod outcome;
mod screen;
mod section;

pub use breaking::Breaking;
pub use case::{Break, Case, Command, NamedFile, parse_case};
pub use fault::{CaseFault, CaseLineFault};
pub use files::{BreakingFile, MemoryFile, MemoryFiles, Stream};
pub use outcome::{CommandEnd, find_difference};
pub use screen::ErrorScreen;
