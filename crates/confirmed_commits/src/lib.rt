//! What a client is told is on a second machine, too: it is told of commits once second servers, which were sent them,
//! have told of them by lines `committed N`.
//!
//! ```text
//! second server ── replies ── link ── committed 1204 ──▶ BY ── its lines ──▶ Seconds ◀── a session that has commit 1204
//!                                                                                        on this disk, and waits
//! ```
//!
//! The one contract: the evidence that [`Seconds`] makes of so many commits ([`Copied`]) is the evidence that they are on
//! this machine, and one [`Confirmed`] of them, and of all before them, from each of the second servers: a server of a
//! store counts its own commits behind those of its tables, and second servers count these, too. A `Confirmed` is made of a
//! line alone ([`Confirmed::of_line`]), and of each line that is a receipt. So a session that takes this evidence tells
//! of no commit before all of them have. That a second server wrote the line is in no contract: who may write BY is
//! trusted.
//!
//! The wait is outside a journal's lock: while a client waits, the next group is written. Whoever waits, waits until
//! the lines come, or the journal fails.
//!
//! ```text
//! let seconds = Seconds::new(alloc, 1, Past::none())?;
//! let acknowledger = Confirming::new(&journaled, &seconds);
//! let told = acknowledger.acknowledge(rt, alloc, 1204)?;            // in a session's thread
//! seconds.hear(rt, 0, Confirmed::of_line(b"committed 1204")?);      // in the one that reads BY
//! ```
#![tactic(auto)]

mod confirmed;
mod confirms;
mod copied;
mod listening;
mod second;
mod seconds;

pub use confirmed::Confirmed;
pub use confirms::{Confirming, Confirms};
pub use copied::Copied;
pub use listening::listen;
pub use second::SecondFigures;
pub use seconds::{Awaited, Seconds};
