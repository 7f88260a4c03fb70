//! What a seat at the table knows. Of these types only `Opening` and `SlotValue` have values.

use crate::event::Deed;
use crate::request::PostedRequest;
use history_core::{Given, Response, Who};
use row_store::{Commit, RowStore};
use ssb_base::Base;
use std::collections::LinkedList;
use std::snapshot::Snapshot;

/// What the table was opened with.
pub struct Terms {
    pub base: Base,
    pub clients: u32,
    pub dispatchers: u32,
}

/// A client or a dispatcher: what it has seen, the commits that it made, the answers that it gave, and all that it did.
/// A dispatcher's mark is the length of the history when it last gave the row store back, its version the mark when it
/// last gave the writer back.
pub struct Member {
    pub who: Who,
    pub seen: LinkedList<Commit>,
    pub mine: LinkedList<Commit>,
    pub mark: Option<u64>,
    pub version: Option<u64>,
    pub given: LinkedList<Given>,
    pub did: LinkedList<Deed>,
}

/// A request in a dispatcher's hand. The place of a client is its number less one.
pub struct Held {
    pub place: u32,
    pub request: PostedRequest,
}

/// What a seat is for.
pub enum Role {
    /// It deals the tokens from this place on.
    Dealer(u32),
    /// The token of the member at this place.
    Token(u32),
    /// It carries what another has seen.
    Note,
    /// It is done with.
    Spent,
}

/// What a seat knows.
pub struct View {
    pub terms: Terms,
    pub role: Role,
    pub member: Member,
    pub holds_rows: bool,
    pub holds_writer: bool,
    /// Lists that the history begins with, which the member has not looked at since.
    pub beside: LinkedList<LinkedList<Commit>>,
    /// The members whose tokens were handed in at the close.
    pub gathered: LinkedList<Member>,
    /// A client has its mailbox's slot.
    pub has_box: bool,
    /// What a client asked and has not collected.
    pub asked: Option<PostedRequest>,
    /// What a dispatcher has grabbed and not answered, the newest first.
    pub grabbed: LinkedList<Held>,
}

/// What the table is told when it is made.
#[derive(Drop)]
pub struct Opening {
    pub base: Snapshot<Base>,
    pub clients: u32,
    pub dispatchers: u32,
}

/// What a slot of the table has.
#[derive(Drop)]
pub enum SlotValue<W> {
    /// The row store, at home.
    Rows(RowStore),
    /// The writer of the secondary replica, at home.
    Writer(W),
    /// A request that no dispatcher has in hand.
    Asked(PostedRequest),
    /// An answer that its client has not collected.
    Answered(Response),
}
