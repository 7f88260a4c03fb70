//! Dispatchers, which answer what clients ask.
ghost use Rattle.std.specs.Prelude.{◌≡◌, []};
ghost use Rattle.history_core.specs.declared.event.Who.TheVariants.{Dispatcher as IsNumbered};
ghost use Rattle.history.specs.Tokens.{IsFree};
ghost use Rattle.history.specs.Members.{number_of};
ghost use Rattle.ssb_server.specs.Ends.{Turned};
ghost use Rattle.ssb_server.specs.Hand.{no_hand};
ghost use Rattle.ssb_server.specs.Opening.{IsNewDispatcher};
ghost use Rattle.ssb_clients.specs.Tickets.{IsLeft};
ghost use Rattle.ssb_server.specs.Turns.{HasFetched};

use crate::batch::Batch;
use crate::following::follow;
use crate::passes::AnswersBatch;
use crate::turn::{ScanGate, Turn, take_turn};
use history::Token;
use history_core::Who;
use row_store::Replica;
use ssb_clients::Server;
use std::marker::Model;
use std::sync::Wait;
use std::thread::Threads;
use twin_cell::{EndsCopies, TwinReader, TwinWriter};

/// A dispatcher's token, with its reader of the copies and room for a batch. Contracts see the token; between two
/// turns it holds nothing. The copies are of any replica, as in `snapshot`.
pub struct TwinDispatcher<C: Replica + Drop, W: EndsCopies + Drop> {
    token: Token<TwinWriter<C, W>>,
    reader: Option<TwinReader<C>>,
    batch: Batch,
    number: u32,
}

impl<C: Replica + Drop, W: EndsCopies + Drop> Drop for TwinDispatcher<C, W> {
    fn drop(self) {
        let TwinDispatcher {
            token: _,
            reader: _,
            batch: _,
            number: _,
        } = self;
    }
}

impl<C: Replica + Drop, W: EndsCopies + Drop> Model for TwinDispatcher<C, W> {
    ghost use Rattle.history.specs.Tokens.{TokenRecord};

    ghost Value = { TokenRecord };

    ghost use Rattle.ssb_server.specs.Ready.{IsReady};

    ghost view = { λ d. d.token };

    ghost invariant = { λ d. IsReady d.number d.token d.reader d.batch };
}

impl<C: Replica + Drop, W: EndsCopies + Drop> TwinDispatcher<C, W> {
    /// A dispatcher of a token that was just dealt, with a reader over its base that was told nothing.
    pub(crate) fn new(
        token: Token<TwinWriter<C, W>>,
        reader: TwinReader<C>,
        batch: Batch,
    ) -> TwinDispatcher<C, W>
        requires token { IsNewDispatcher reader.base token }
        requires reader { reader.told ≡ [] }
        requires batch { batch ≡ no_hand }
        ensures { result ≡ token }
    {
        let Who::Dispatcher(number) = token.who() else {
            unreachable!()
        };
        TwinDispatcher {
            token,
            reader: Some(reader),
            batch,
            number,
        }
    }

    /// The dispatcher's token.
    pub(crate) fn into_token(self) -> Token<TwinWriter<C, W>>
        ensures token { result ≡ self }
        ensures left { IsLeft self }
    {
        let TwinDispatcher {
            token,
            reader: _,
            batch: _,
            number: _,
        } = self;
        token
    }

    /// Sleeps until something was posted since the last turn began, until `Server::ring`, or until it is to look
    /// whether the copies lag. It may return for no reason.
    pub fn rest<R: Wait>(&self, rt: &R, server: &Server<TwinWriter<C, W>>) {
        server.rest(rt, self.number);
    }

    /// Whether the copies lack commits that it is for this dispatcher to carry over while nothing is asked: so many
    /// that memory would fill up, or the last ones before a silence.
    pub fn lags(&self, server: &Server<TwinWriter<C, W>>) -> bool {
        server.lags(self.number)
    }

    /// The dispatcher's number, counted from 1.
    pub fn number(&self) -> u32
        ensures who { self.now.who ≡ IsNumbered result }
        ensures value { result ≡ number_of self.now.who }
    {
        self.number
    }
}

impl<C: AnswersBatch + Drop, W: Wait + Drop> TwinDispatcher<C, W> {
    /// Carries all commits so far over to both copies, though nothing is asked. It waits as a turn does.
    pub fn follow<R: Wait>(&mut self, rt: &R, server: &Server<TwinWriter<C, W>>)
        requires { self.old.table ≡ server.now }
        ensures followed { HasFetched self.old self.new }
        ensures free { IsFree self.new }
    {
        follow(rt, server, &mut self.token);
    }

    /// One turn: grabs what is asked, fetches and publishes the commits so far, and answers the batch from one copy. It
    /// waits for the row store, for the writer, and for readers of the copy that is brought up.
    pub fn turn<R: Wait + Threads + Sync, G: ScanGate>(
        &mut self,
        rt: &R,
        server: &Server<TwinWriter<C, W>>,
        gate: &G,
    ) -> Turn
        requires { self.old.table ≡ server.now }
        ensures turned { Turned self.old result self.new }
        ensures free { IsFree self.new }
    {
        let Some(reader) = self.reader.take() else {
            unreachable!()
        };
        let (reader, turn) = take_turn(rt, server, gate, &mut self.token, &mut self.batch, reader);
        self.reader = Some(reader);
        turn
    }
}
