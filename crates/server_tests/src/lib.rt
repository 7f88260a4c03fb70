//! Tests of the live server, over the small data set: what clients and dispatchers are told step by step in one
//! thread, copies that follow though nothing is asked, calls that lack memory and are made again, servers that are not
//! opened or not closed, and the log of one that is; and in threads a scan that is held while others go on, and thirty
//! refreshes of three clients.
//!
//! Each step is a call of `ssb_server`, or a few, and promises whose the tokens are afterwards, and whether a client
//! asks, so that each call after it is proved to find the tokens as it asks. Most tests are a list of steps, with what
//! is told beside each:
//!
//! ```text
//! played(
//!     &rt,
//!     &[
//!         (First(Adds(9)), "committed 1"),
//!         (Second(Asks("Q4.1")), "asked"),
//!         (Turn, "answered 1 at 1"),
//!         (Second(Polls), "Q4.1 at 1 rows 1\n1997|UNITED STATES|-1330"),
//!     ],
//! )
//! ```
#![tactic(auto)]

#[cfg(test)]
mod tests;
