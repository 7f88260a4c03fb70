//! How a session serves its client.

use crate::past::Past;
use ssb_formats::ReplyFormat;

/// What stays as it was when the session began: whether refreshes are taken, and how many commits came before those of
/// the log, which the client is told of with them.
#[derive(Clone, Copy, Debug, PartialEq, Eq)]
pub struct Terms {
    pub takes_refreshes: bool,
    pub past: Past,
}

/// The format of the replies, which a request may name, and the terms of the session.
#[derive(Clone, Copy, Debug, PartialEq, Eq)]
pub(crate) struct Manner {
    pub(crate) format: ReplyFormat,
    pub(crate) terms: Terms,
}
