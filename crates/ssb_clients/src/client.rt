//! Clients, which refresh and ask.
ghost use Rattle.std.specs.Prelude.{◌≡◌, ℕ, length, true, false, None, MatchOption, IfOk};
ghost use Rattle.std.specs.Option.{is_some};
ghost use Rattle.row_store.specs.History.{IsPrefix, lines_after};
ghost use Rattle.row_store.specs.Lines.{lines_of};
ghost use Rattle.history_core.specs.declared.event.Who.TheVariants.{Client as IsNumbered};
ghost use Rattle.history.specs.Tokens.{IsSound};
ghost use Rattle.ssb_clients.specs.Tickets.{IsNewClient, IsResting};
ghost use Rattle.history.specs.Members.{number_of};
ghost use Rattle.ssb_clients.specs.Clients.{IsClient, Refreshed, Looks, HandsBack, Asks, Polls};

use crate::order::order_lines;
use crate::server::Server;
use history::{SharedTable, Token};
use history_core::{Response, Who};
use row_store::{Follower, Receipt, RefreshError, RowStore};
use server_figures::LiveFigures;
use ssb_questions::Question;
use ssb_schema::{Items, Line, Refresh};
use std::alloc::AllocError;
use std::marker::Model;
use std::sync::{Arc, Wait};

/// A client's token. Contracts see it.
pub struct Client<K: Follower + Drop> {
    pub(crate) token: Token<K>,
    number: u32,
    asking: bool,
}

impl<K: Follower + Drop> Drop for Client<K> {
    fn drop(self) {
        let Client {
            token: _,
            number: _,
            asking: _,
        } = self;
    }
}

impl<K: Follower + Drop> Model for Client<K> {
    ghost use Rattle.history.specs.Tokens.{TokenRecord};

    ghost Value = { TokenRecord };

    ghost use Rattle.ssb_clients.specs.Clients.{IsAtRest};

    ghost view = { λ c. c.token };

    ghost invariant = { λ c. IsAtRest c.number c.asking c.token };
}

// Counts what became of a refresh, while its client holds the rows.
fn count(figures: &LiveFigures, rows: &RowStore, reply: &Result<Receipt, RefreshError>) {
    match reply {
        Ok(receipt) => figures.has_committed(receipt.number, rows.line_count() as u64),
        Err(RefreshError::Refused { cause, .. }) => figures.has_refused(*cause),
        Err(RefreshError::OutOfMemory) => {}
    }
}

// Takes the rows, applies the refresh, and gives the rows back.
fn apply<K: Follower + Drop, R: Wait>(
    rt: &R,
    server: &Server<K>,
    token: &mut Token<K>,
    number: u32,
    refresh: Arc<Refresh>,
) -> Result<Receipt, RefreshError>
    requires { IsClient server.now number token.old }
    ensures refreshed { Refreshed token.old number refresh.value result token.new }
{
    let mut rows = server.table.take_rows(rt, token);
    let reply = rows.refresh(number, refresh);
    count(server.figures(), &rows, &reply);
    server.pace.lag.grows(&reply);
    server.table.put_rows(token, rows);
    reply
}

// Looks, and asks.
fn ask<K: Follower + Drop>(
    table: &SharedTable<K>,
    token: &mut Token<K>,
    number: u32,
    questions: Items<Question>,
)
    requires client { IsClient table.now number token.old }
    requires mailbox { token.old.asked ≡ None }
    ensures asked { Asks token.old questions token.new }
{
    table.look(token);
    table.post(token, questions);
}

// Collects an answer, if there is one, and then looks.
fn poll<K: Follower + Drop>(
    table: &SharedTable<K>,
    token: &mut Token<K>,
    number: u32,
) -> Option<Response>
    requires client { IsClient table.now number token.old }
    ensures polled { MatchOption result (token.new ≡ token.old) (λ answer. Polls token.old answer token.new) }
{
    let answer = table.collect(token)?;
    table.look(token);
    Some(answer)
}

impl<K: Follower + Drop> Client<K> {
    /// A client of a token that was just dealt.
    pub fn new(token: Token<K>) -> Client<K>
        requires { IsNewClient token }
        ensures { result ≡ token }
    {
        let Who::Client(number) = token.who() else {
            unreachable!()
        };
        Client {
            token,
            number,
            asking: false,
        }
    }

    /// The client's number, counted from 1.
    pub fn number(&self) -> u32
        ensures who { self.now.who ≡ IsNumbered result }
        ensures value { result ≡ number_of self.now.who }
    {
        self.number
    }

    /// A client's history is legal, and has its commits: so its token says. The law alone: it does nothing.
    pub fn soundness(&self)
        ensures { IsSound self.now }
    {
        self.token.soundness();
    }

    /// How many commits the client has seen.
    pub fn seen(&self) -> u64
        ensures { result ≡ length self.now.seen }
    {
        self.token.seen_len()
    }

    /// The client's token, for the close.
    pub fn into_token(self) -> Token<K>
        ensures token { result ≡ self }
        ensures rest { IsResting self }
    {
        let Client {
            token,
            number: _,
            asking: _,
        } = self;
        token
    }

    /// Whether a request is outstanding.
    pub fn is_asking(&self) -> bool
        ensures { result ≡ is_some self.now.asked }
    {
        self.asking
    }

    /// Applies all of the refresh as the next commit, or nothing. It tells of memory that ran out where nothing
    /// speaks against the refresh: the row store's growth was refused, and it is as it was.
    pub fn refresh<R: Wait>(
        &mut self,
        rt: &R,
        server: &Server<K>,
        refresh: Arc<Refresh>,
    ) -> Result<Receipt, RefreshError>
        requires { self.old.table ≡ server.now }
        ensures refreshed { (number : ℕ) → self.old.who ≡ IsNumbered number
            → Refreshed self.old number refresh.value result self.new }
    {
        let applied = apply(rt, server, &mut self.token, self.number, refresh);
        if let Ok(receipt) = &applied {
            server.keep_pace(rt, self.number, receipt.number);
        }
        applied
    }

    /// The live lines of the order of this key, after all commits that the client sees then, which begin with those that it
    /// had seen; none where the order is not live. It waits for the rows, and holds them while it copies the lines, seven
    /// at most. Where memory for these runs out, it has seen the commits all the same. Nothing is changed.
    pub fn order<R: Wait>(
        &mut self,
        rt: &R,
        server: &Server<K>,
        key: u64,
    ) -> Result<Items<Line>, AllocError>
        requires { self.old.table ≡ server.now }
        ensures looks { HandsBack self.old self.new }
        ensures lines { IfOk result (λ lines. lines
            ≡ lines_of key (lines_after self.new.table.base self.new.seen)) }
    {
        let lines = order_lines(rt, server, &mut self.token, key)?;
        Ok(Items::from_vec(lines))
    }

    /// Asks questions in one request, which are answered over one copy, all of them after one number of commits. Their
    /// floor is the number of commits that the client sees then.
    pub fn ask(&mut self, server: &Server<K>, questions: Items<Question>)
        requires table { self.old.table ≡ server.now }
        requires quiet { is_some self.old.asked ≡ false }
        ensures asked { Asks self.old questions self.new }
    {
        ask(&server.table, &mut self.token, self.number, questions);
        self.asking = true;
        server.bells.ring_dispatchers();
    }

    /// The answer to the outstanding request; none where nothing is outstanding or no answer is there yet.
    pub fn poll(&mut self, server: &Server<K>) -> Option<Response>
        requires { self.old.table ≡ server.now }
        ensures polled { MatchOption result (self.new ≡ self.old) (λ answer. Polls self.old answer self.new) }
    {
        let answer = poll(&server.table, &mut self.token, self.number);
        if answer.is_some() {
            self.asking = false;
        }
        answer
    }

    /// Waits for the answer to the outstanding request.
    pub fn await_answer<R: Wait>(&mut self, rt: &R, server: &Server<K>) -> Response
        requires table { self.old.table ≡ server.now }
        requires asking { is_some self.old.asked ≡ true }
        ensures polled { Polls self.old result self.new }
    {
        for _ in rt.forever() {
            if let Some(answer) = self.poll(server) {
                return answer;
            }
            server.bells.await_client(rt, self.number);
        }
        unreachable!()
    }

    /// Lets the client see all that the other has seen.
    pub fn meet(&mut self, server: &Server<K>, other: &mut Client<K>) -> u64
        requires table { self.old.table ≡ server.now }
        requires other { other.old.table ≡ server.now }
        ensures length { result ≡ length self.new.seen }
        ensures looks { Looks self.old self.new }
        ensures met { IsPrefix other.old.seen self.new.seen }
        ensures other { Looks other.old other.new }
    {
        server.table.meet(&mut self.token, &mut other.token)
    }
}
