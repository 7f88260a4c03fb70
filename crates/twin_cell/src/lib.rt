//! The two copies of the secondary replica: readers enter one with no lock, while one writer changes the other.
//!
//! Commits of the primary are appended to a [`TwinWriter`] and published together: then the copies swap. A
//! [`TwinReader`] enters the copy that is published and holds it in a [`Guard`], unchanged, for as long as its scan
//! takes.
//!
//! The contract: an entered copy stands for a list of commits that begins with all that its reader was told by a
//! [`Note`] of the writer. Where the copy has as many commits as were told, it stands for exactly the told ones
//! (`laws::told_number_is_told_list`); by that a dispatcher knows the snapshot that it scans. `specs/Twin.antt` says
//! what writer, readers, notes and guards are in contracts, `specs/Rule.antt` the rule that every step of the cell
//! keeps.
//!
//! ```text
//!  commits ── append ─▶ TwinWriter ── publish ─▶ copy A │ copy B ◀── enter, leave ── TwinReader
//!                            └───── tell ─▶ Note ─────────────────────── learn ──────────┘
//!
//! let (mut writer, mut readers) = twin(alloc, &rt, PlainLines::new(alloc, base)?, 2)?;
//! writer.append(commit)?;
//! let (mut writer, published) = writer.publish();
//! reader.learn(writer.tell()?);
//! let guard = reader.enter(&rt);                        // guard.replica(): at least the published commits
//! ```
#![tactic(auto)]

mod cell;
mod ends;
mod error;
mod guard;
pub mod laws;
mod note;
mod reader;
mod rule;
mod side;
mod writer;

pub use cell::twin;
pub use ends::EndsCopies;
pub use error::TwinError;
pub use guard::Guard;
pub use note::Note;
pub use reader::TwinReader;
pub use writer::TwinWriter;
