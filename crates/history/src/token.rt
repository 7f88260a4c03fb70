//! The tokens by which clients and dispatchers act at the table.
ghost use Rattle.std.specs.Prelude.{◌≡◌, ◌+◌, ◌<◌, Some, Contains, length, slice_get};
ghost use Rattle.history.specs.TokenParts.{IsSeatOf};
ghost use Rattle.history.specs.Tokens.{IsSound};

use crate::rule::TableSeat;
use arrayvec::ArrayVec;
use history_core::Who;
use std::marker::Model;

/// The token of one client or dispatcher, its only one. Contracts see it as a `TokenRecord`: what its holder has seen, made,
/// asked, given and done, and what it holds. Of the lists nothing is kept when the program runs.
pub struct Token<W> {
    pub(crate) who: Who,
    /// A client's number less one; the dispatchers follow.
    pub(crate) place: u32,
    pub(crate) seen_len: u64,
    /// The places of the clients whose requests it has in hand, the newest first.
    pub(crate) hand: ArrayVec<u32, 16>,
    pub(crate) seat: TableSeat<W>,
}

impl<W: Drop> Drop for Token<W> {
    fn drop(self) {
        let Token {
            who: _,
            place: _,
            seen_len: _,
            hand: _,
            seat: _,
        } = self;
    }
}

impl<W> Model for Token<W> {
    ghost use Rattle.history.specs.Tokens.{TokenRecord};

    ghost Value = { TokenRecord };

    ghost use Rattle.history.specs.TokenParts.{shown_token, IsSeated};

    ghost view = { shown_token };

    ghost invariant = { IsSeated };
}

impl<W> Token<W> {
    /// Whose token it is.
    pub fn who(&self) -> Who
        ensures { result ≡ self.now.who }
    {
        self.who
    }

    /// How many commits it has seen.
    pub fn seen_len(&self) -> u64
        ensures { result ≡ length self.now.seen }
    {
        self.seen_len
    }

    /// Every token is sound: its history is legal, and has the commits of its holder. The law alone: it does nothing.
    pub fn soundness(&self)
        ensures { IsSound self.now }
    {
        let _who = self.who;
    }

    pub(crate) fn into_seat(self) -> TableSeat<W>
        ensures { IsSeatOf self result }
    {
        let Token {
            who: _,
            place: _,
            seen_len: _,
            hand: _,
            seat,
        } = self;
        seat
    }
}

/// Where a client's place stands in a hand.
pub(crate) fn position(hand: &[u32], place: u32) -> usize
    requires { Contains hand.now place }
    ensures { slice_get hand.now result ≡ Some place }
{
    let mut turns = 0;
    while hand[turns] != place {
        turns += 1;
    }
    turns
}
