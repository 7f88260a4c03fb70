//! A journal's file, opened over loaded tables: what the words `serve` and `export` share.
//!
//! ```text
//! base, layout and bytes of its files, checksums ── table_marks ─▶ marks, which a journal's head tells
//! path ── OpensJournal ─▶ file, of which nothing was read
//! file, marks ── StartedJournal ─▶ its commits, some after some; where a journal begins, none
//! no file, file in use, other tables, damage, a refused commit ── OpeningFault ─▶ status 1; a failed call, memory ─▶ 4
//! ```
//!
//! The contract of [`OpeningFault`] is its status (`specs/Status`), that of [`table_marks`] the tables in their order,
//! their layout, the rows of each and the checksum of their text (`specs/Marks`). How many bytes were read is in no
//! contract. That of a [`StartedJournal`] is what the file keeps so far, and why it is refused, where a journal is
//! gone on with and where one begins (`specs/Opens`); nothing can be written meanwhile. Who [`OpensJournal`] may
//! know what the file holds before it is opened, and then the contracts above name it (`proofs/KnownLaws` has what is
//! so of each file, of the known one); of a [`JournalPath`] nothing is known.
//!
//! ```text
//! let marks = table_marks(&base, layout, &bytes, &checksums);
//! let mut started = StartedJournal::open(alloc, &marks, place.start(), place.path(), file)?;
//! loop { match started.next(rt, alloc) { .. } }              // until there are no more commits
//! let OpenedJournal { found, kept, torn } = started.finish();
//! ```
#![tactic(auto)]

mod fault;
mod form;
mod marks;
mod no_such_commit;
mod opened;
mod opens;
mod start;

pub use fault::OpeningFault;
pub use form::tell_form;
pub use marks::table_marks;
pub use no_such_commit::NoSuchCommit;
pub use opened::StartedJournal;
pub use opens::{JournalPath, OpensJournal, ReadPath};
pub use start::JournalStart;
