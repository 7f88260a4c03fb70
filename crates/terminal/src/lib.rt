//! A terminal that a person types requests at: what a line says to the terminal itself, what a session reads for any
//! other line, and what is shown beside the replies.
//!
//! ```text
//! a typed line ─┬─ help, ?, timing, status       does something here; the session reads a line of no bytes
//!               ├─ quit, exit, \q                the session's input ends
//!               ├─ q1.1 1994 1 3 0 24            the session reads query|Q1.1|1994|1|3|0|24
//!               ├─ star COUNT 'C_CITY=CHINA    0' the session reads query|star|COUNT|C_CITY=CHINA    0
//!               ├─ withdraw 7;                   the session reads withdraw|7
//!               ├─ SELECT .. and its lines to ;  the session reads sql|SELECT .. ;, on one line
//!               └─ any other                     the session reads it as it was typed
//! a reply ──────┬─ fault: .., refused at ..      help below it on the screen, about the request that was typed
//!               └─ any other
//! ```
//!
//! The contracts of [`TerminalWord::typed`] and [`session_line`] (`specs/Typed.antt`) say of each line which word it
//! is, and else what a session reads for it. The session's own contract is over what it reads: so the terminal's words
//! change no reply; and [`HelpedOutput`] gets every byte of the replies. What a screen shows, and when, is in no
//! contract.
//!
//! ```text
//! let request = TypedRequest::new(rt.alloc(), true);
//! let input = Prompted::new(rt.alloc(), rt, terminal, screen, &shows, &request)?; // what the session is to read
//! let output = HelpedOutput::new(rt.alloc(), output, screen, &request, &shows); // what it is to write to
//! ```
#![tactic(auto)]

mod fields;
mod helped;
mod on_demand;
mod prompted;
mod question;
mod quotes;
mod record_word;
mod request;
mod request_help;
mod statement;
mod stopwatch;
mod word;

pub use helped::HelpedOutput;
pub use on_demand::ShowsOnDemand;
pub use prompted::Prompted;
pub use question::session_line;
pub use record_word::RecordWord;
pub use request::TypedRequest;
pub use word::{Spelling, TerminalWord};
