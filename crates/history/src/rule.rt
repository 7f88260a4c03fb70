//! The rule of the table, and what each step tells.
ghost use Rattle.history.specs.Rule.{ShowsWorld, dealer, terms_of};
ghost use Rattle.history.specs.Plays.{TriesRows, PutsRows, Looks, dealt, token_of, note_of, hears, leaves, gathers};
ghost use Rattle.history.specs.Plays.{OpensBox, Posts, Grabs, Answers, Collects, TriesWriter, PutsWriter};

use crate::view::{Opening, SlotValue, View};
use atomic_table::{Join, Play, Seat, Split, Table, TableRule};
use row_store::Follower;
use std::alloc::Global;

/// What a slot has. It is `None` while its value is in somebody's hands.
pub type Slot<W> = Option<SlotValue<W>>;

/// The table always shows a world.
pub struct OneHistory;

impl<W: Follower> TableRule<Slot<W>, View, Opening> for OneHistory {
    ghost holds = { λ key. ShowsWorld W.base W.commits (terms_of key) };

    ghost first = { λ key. dealer (terms_of key) };
}

/// The table under its rule.
pub type RuledTable<W> = Table<Slot<W>, View, Opening, OneHistory, Global>;

/// A seat at it.
pub type TableSeat<W> = Seat<Slot<W>, View>;

/// Takes the row store where it is home.
pub(crate) struct TryRows;

impl<W: Follower> Play<Slot<W>, View> for TryRows {
    ghost then = { TriesRows };
}

/// Gives the row store back.
pub(crate) struct PutRows;

impl<W: Follower> Play<Slot<W>, View> for PutRows {
    ghost then = { PutsRows };
}

/// Looks at the history.
pub(crate) struct Look;

impl<W: Follower> Play<Slot<W>, View> for Look {
    ghost then = { Looks };
}

/// A client takes the slot of its mailbox.
pub(crate) struct OpenBox;

impl<W: Follower> Play<Slot<W>, View> for OpenBox {
    ghost then = { OpensBox };
}

pub(crate) struct Post;

impl<W: Follower> Play<Slot<W>, View> for Post {
    ghost then = { Posts };
}

pub(crate) struct Grab;

impl<W: Follower> Play<Slot<W>, View> for Grab {
    ghost then = { Grabs };
}

pub(crate) struct Serve;

impl<W: Follower> Play<Slot<W>, View> for Serve {
    ghost then = { Answers };
}

pub(crate) struct Collect;

impl<W: Follower> Play<Slot<W>, View> for Collect {
    ghost then = { Collects };
}

/// Takes the writer where it is home.
pub(crate) struct TryWriter;

impl<W: Follower> Play<Slot<W>, View> for TryWriter {
    ghost then = { TriesWriter W.base W.commits };
}

pub(crate) struct PutWriter;

impl<W: Follower> Play<Slot<W>, View> for PutWriter {
    ghost then = { PutsWriter W.base W.commits };
}

/// Deals the next token.
pub(crate) struct Deal;

impl Split<View> for Deal {
    ghost left = { dealt };

    ghost right = { token_of };
}

/// Writes a note.
pub(crate) struct Tell;

impl Split<View> for Tell {
    ghost left = { λ v. v };

    ghost right = { note_of };
}

pub(crate) struct Hear;

impl Join<View> for Hear {
    ghost use Rattle.history.specs.Rule.{spent};

    ghost both = { hears };

    ghost spent = { spent };
}

/// A seat gives its part to one that has no slot in hand.
pub(crate) struct Yield;

impl Split<View> for Yield {
    ghost left = { leaves };

    ghost right = { λ v. v };
}

/// A member's seat is handed in.
pub(crate) struct Gather;

impl Join<View> for Gather {
    ghost use Rattle.history.specs.Rule.{spent};

    ghost both = { gathers };

    ghost spent = { spent };
}
