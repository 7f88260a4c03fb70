//! Requests, and what became of them.

use ssb_answers::Question;
use ssb_schema::Items;

/// The questions of a request, and its floor: how many commits the client had seen when it asked. They are answered over
/// no fewer, all over the same.
#[derive(Drop)]
pub struct PostedRequest {
    pub questions: Items<Question>,
    pub floor: u64,
}

/// A client's request that a dispatcher has in hand. Contracts alone speak of it.
pub struct Grabbed {
    pub client: u32,
    pub request: PostedRequest,
}
