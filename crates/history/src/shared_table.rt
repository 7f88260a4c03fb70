//! The table that threads share: its calls, each with the token of the client or dispatcher that makes it.
ghost use Rattle.std.specs.Prelude.{◌≡◌, ◌+◌, ◌-◌, ◌<◌, ◌≤◌, ◌^◌, All, true, false, [], length, Some, None, IfOk};
ghost use Rattle.std.specs.Prelude.{MatchOption};
ghost use Rattle.row_store.specs.History.{IsPrefix};
ghost use Rattle.row_store.specs.Legal.{IsLegal};
ghost use Rattle.history_core.specs.Counts.{most_clients};
ghost use Rattle.history_core.specs.OwnCommits.{IsOfClients};
ghost use Rattle.history.specs.Words.{store, Owns};
ghost use Rattle.history.specs.Rule.{dealer, terms_of};
ghost use Rattle.history.specs.Seats.{IsDealer};
ghost use Rattle.history.specs.Members.{who_at};
ghost use Rattle.history.specs.TokenParts.{table_of};
ghost use Rattle.history.specs.Tokens.{new_token, new_clients, new_dispatchers, IsClient, IsDispatcher, Saw};
ghost use Rattle.history.specs.Tokens.{Took, MayPut, Put, posted, Grabs, MayAnswer, Answers, Collected, with_writer};
ghost use Rattle.history.specs.Tokens.{without_writer};
ghost use Rattle.history.specs.Closing.{AreClients, AreDispatchers, IsLogOf};

use crate::request::PostedRequest;
use crate::rule::{Deal, RuledTable, TableSeat};
use crate::steps;
use crate::token::{Token, position};
use crate::view::{Opening, SlotValue};
use arrayvec::ArrayVec;
use atomic_table::Table;
use history_core::{Response, Who};
use row_store::{Follower, RowStore};
use ssb_answers::Question;
use ssb_schema::Items;
use std::alloc::{AllocError, Global};
use std::marker::Model;
use std::snapshot::Snapshot;
use std::sync::Wait;

/// The table: the row store and the writer in their slots, each with a word, and a word and a slot for each client's
/// mailbox. Contracts see it as a `TableRecord`: which table it is, over which base, for how many clients and dispatchers.
pub struct SharedTable<W: Follower + Drop> {
    ruled: RuledTable<W>,
}

impl<W: Follower + Drop> Drop for SharedTable<W> {
    fn drop(self) {
        let SharedTable { ruled: _ } = self;
    }
}

impl<W: Follower + Drop> Model for SharedTable<W> {
    ghost use Rattle.history.specs.Tokens.{TableRecord};

    ghost Value = { TableRecord };

    ghost use Rattle.history.specs.TokenParts.{table, IsRuled};

    ghost view = { table };

    ghost invariant = { IsRuled };
}

/// A new table, with the tokens of its clients and of its dispatchers, each by number from 1.
#[derive(Drop)]
pub struct OpenedTable<W: Follower + Drop> {
    pub shared: SharedTable<W>,
    pub clients: Vec<Token<W>>,
    pub dispatchers: Vec<Token<W>>,
}

/// Who has the token at this place: the clients come first.
fn who_at_place(clients: u32, place: u32) -> Who
    requires { place < 2 ^ 31 }
    ensures { result ≡ who_at clients place }
{
    if place < clients {
        Who::Client(place + 1)
    } else {
        Who::Dispatcher(place - clients + 1)
    }
}

/// Makes the table.
fn open<W: Follower + Drop>(
    alloc: Global,
    rows: RowStore,
    writer: W,
    opening: &Opening,
) -> Result<(RuledTable<W>, TableSeat<W>), AllocError>
    requires few { opening.now.clients ≤ most_clients }
    requires parts { (rows ≡ store opening.now.base.value []) × (W.base writer ≡ opening.now.base.value)
        × (W.commits writer ≡ []) }
    ensures { IfOk result (λ t. (t.0.shared.table_id.words ≡ 2 + opening.now.clients)
        × (t.1.table_id ≡ t.0.shared.table_id) × (t.1.me ≡ (dealer (terms_of opening.now), []))
        × (t.0.shared.key ≡ opening.now)) }
{
    let clients = opening.clients as usize;
    let words = Vec::from_elem(alloc, 0u64, 2 + clients)?;
    let mut slots = Vec::new(alloc);
    slots.push(Some(SlotValue::Rows(rows)))?;
    slots.push(Some(SlotValue::Writer(writer)))?;
    for _ in 0..clients {
        slots.push(None)?;
    }
    Table::new(alloc, words.as_slice(), slots, opening).map_err(|_| AllocError)
}

/// Deals the token at this place. A client takes its mailbox's slot.
fn deal<W: Follower + Drop>(
    ruled: &RuledTable<W>,
    dealer: &mut TableSeat<W>,
    clients: u32,
    place: u32,
) -> Token<W>
    requires table { (dealer.old.table_id ≡ ruled.now.shared.table_id) × (0 < ruled.now.shared.table_id.words) }
    requires dealer { IsDealer dealer.old (terms_of ruled.now.shared.key) place }
    requires room { (place < ruled.now.shared.key.clients + ruled.now.shared.key.dispatchers) × (place < 2 ^ 31) }
    requires key { (clients ≡ ruled.now.shared.key.clients) × (clients ≤ most_clients) }
    ensures dealt { result ≡ new_token (table_of ruled.now.shared.table_id (terms_of ruled.now.shared.key))
        (who_at clients place) }
    ensures dealer { (dealer.new.table_id ≡ dealer.old.table_id)
        × IsDealer dealer.new (terms_of ruled.now.shared.key) (place + 1) }
{
    let mut seat = ruled.shared.split_seat::<Deal>(dealer);
    if place < clients {
        steps::open_box(ruled, &mut seat, place as usize);
    }
    Token {
        who: who_at_place(clients, place),
        place,
        seen_len: 0,
        hand: ArrayVec::new(),
        seat,
    }
}

impl<W: Follower + Drop> SharedTable<W> {
    /// The table over an empty row store and a writer that has taken nothing, for 1 to 16 clients and 1 to 5
    /// dispatchers. Where memory is refused, both parts are dropped.
    pub fn new(
        alloc: Global,
        rows: RowStore,
        writer: W,
        clients: u32,
        dispatchers: u32,
    ) -> Result<OpenedTable<W>, AllocError>
        requires clients { (1 ≤ clients) × (clients ≤ most_clients) }
        requires dispatchers { (1 ≤ dispatchers) × (dispatchers ≤ 5) }
        requires rows { rows.log ≡ [] }
        requires writer { (W.base writer ≡ rows.base) × (W.commits writer ≡ []) }
        ensures table { IfOk result (λ made. (made.shared.base ≡ rows.base) × (made.shared.clients ≡ clients)
            × (made.shared.dispatchers ≡ dispatchers)) }
        ensures clients { IfOk result (λ made. made.clients.items ≡ new_clients made.shared) }
        ensures dispatchers { IfOk result (λ made. made.dispatchers.items ≡ new_dispatchers made.shared) }
    {
        let opening = Opening {
            base: Snapshot::of(rows.base()),
            clients,
            dispatchers,
        };
        let (ruled, mut dealer) = open(alloc, rows, writer, &opening)?;
        let mut first = Vec::new(alloc);
        for place in 0..clients {
            first.push(deal(&ruled, &mut dealer, clients, place))?;
        }
        let mut second = Vec::new(alloc);
        for number in 0..dispatchers {
            second.push(deal(&ruled, &mut dealer, clients, clients + number))?;
        }
        Ok(OpenedTable {
            shared: SharedTable { ruled },
            clients: first,
            dispatchers: second,
        })
    }

    /// Waits until the row store is home, and takes it. Its log is what the token has seen then.
    pub fn take_rows<R: Wait>(&self, rt: &R, token: &mut Token<W>) -> RowStore
        requires table { token.old.table ≡ self.now }
        requires free { token.old.has_rows ≡ false }
        ensures rows { result ≡ record { base = token.new.table.base; log = token.new.seen } }
        ensures took { Took token.old token.new }
    {
        let rows = steps::take_rows(rt, &self.ruled, &mut token.seat);
        token.seen_len = rows.len() as u64;
        rows
    }

    /// Wakes all who wait for the row store: a client that is about to pause lets the others go on.
    pub fn wake_waiting(&self) {
        steps::wake_waiting(&self.ruled);
    }

    /// Gives the row store back, as it was taken or with one commit more of the token's client. One that waits for it
    /// is woken where it was given back as it was, and by each 4,096th commit, so that clients that commit side by
    /// side do so in runs; nobody sleeps for it for more than four milliseconds at a time, and at first for 50
    /// microseconds; `wake_waiting` ends these sleeps.
    pub fn put_rows(&self, token: &mut Token<W>, rows: RowStore)
        requires table { token.old.table ≡ self.now }
        requires taken { token.old.has_rows ≡ true }
        requires rows { MayPut token.old rows }
        ensures put { Put token.old rows token.new }
    {
        let length = rows.len() as u64;
        if length == token.seen_len {
            steps::put_back(&self.ruled, &mut token.seat, rows);
        } else {
            steps::put_commit(&self.ruled, &mut token.seat, rows);
            steps::wake_by_runs(&self.ruled, length);
        }
        token.seen_len = length;
    }

    /// The number of commits, all of which the token has seen then.
    pub fn look(&self, token: &mut Token<W>) -> u64
        requires table { token.old.table ≡ self.now }
        ensures length { result ≡ length token.new.seen }
        ensures saw { Saw token.old token.new }
    {
        token.seen_len = steps::look(&self.ruled, &mut token.seat);
        token.seen_len
    }

    /// Asks questions in one request. Its floor is the number of commits that the client has seen.
    pub fn post(&self, token: &mut Token<W>, questions: Items<Question>)
        requires table { token.old.table ≡ self.now }
        requires client { IsClient token.old }
        requires mailbox { token.old.asked ≡ None }
        ensures posted { token.new ≡ posted token.old questions }
    {
        token.seat.turn();
        let request = PostedRequest {
            questions,
            floor: token.seen_len,
        };
        steps::post(&self.ruled, &mut token.seat, token.place as usize, request);
    }

    /// One try at a client's mailbox, by the client's number: the questions of its request, where there is one.
    pub fn grab(&self, token: &mut Token<W>, client: u32) -> Option<Items<Question>>
        requires table { token.old.table ≡ self.now }
        requires dispatcher { IsDispatcher token.old }
        requires client { (1 ≤ client) × (client ≤ self.now.clients) }
        requires free { (token.old.has_rows ≡ false) × (token.old.has_writer ≡ false) }
        ensures grabs { MatchOption result (token.new ≡ token.old)
            (λ questions. Grabs token.old client questions token.new) }
    {
        let place = client - 1;
        let own = token.place as usize;
        let request = steps::grab(&self.ruled, &mut token.seat, own, place as usize)?;
        token.hand.insert(0, place);
        Some(request.questions)
    }

    /// Answers a request in hand, by its client's number.
    pub fn answer(&self, token: &mut Token<W>, client: u32, answer: Response)
        requires table { token.old.table ≡ self.now }
        requires dispatcher { IsDispatcher token.old }
        requires free { (token.old.has_rows ≡ false) × (token.old.has_writer ≡ false) }
        requires request { MayAnswer token.old client answer }
        ensures answers { Answers token.old client answer token.new }
    {
        let own = token.place as usize;
        let place = client - 1;
        let turns = position(token.hand.as_slice(), place);
        steps::turn_by(&mut token.seat, turns);
        steps::put_answer(&self.ruled, &mut token.seat, own, place as usize, answer);
        token.hand.remove(turns);
        steps::turn_by(&mut token.seat, token.hand.len() - turns);
    }

    /// The answer to what the client asked, if there is one yet.
    pub fn collect(&self, token: &mut Token<W>) -> Option<Response>
        requires table { token.old.table ≡ self.now }
        requires client { IsClient token.old }
        ensures collected { MatchOption result (token.new ≡ token.old) (λ answer. Collected token.old answer token.new) }
    {
        let answer = steps::collect(&self.ruled, &mut token.seat, token.place as usize)?;
        token.seat.turn();
        Some(answer)
    }

    /// Waits until the writer is home, and takes it.
    pub fn take_writer<R: Wait>(&self, rt: &R, token: &mut Token<W>) -> W
        requires table { token.old.table ≡ self.now }
        requires dispatcher { IsDispatcher token.old }
        requires free { (token.old.has_rows ≡ false) × (token.old.has_writer ≡ false) }
        ensures base { W.base result ≡ token.old.table.base }
        ensures taken { token.new ≡ with_writer token.old (W.commits result) }
    {
        steps::take_writer(rt, &self.ruled, &mut token.seat, token.place as usize)
    }

    /// Gives the writer back, and wakes one that waits for it. What it has taken is a beginning of what the token has
    /// seen.
    pub fn put_writer(&self, token: &mut Token<W>, writer: W)
        requires table { token.old.table ≡ self.now }
        requires dispatcher { IsDispatcher token.old }
        requires taken { (token.old.has_writer ≡ true) × (token.old.has_rows ≡ false) }
        requires base { W.base writer ≡ token.old.table.base }
        requires follows { IsPrefix (W.commits writer) token.old.seen }
        ensures put { token.new ≡ without_writer token.old }
    {
        let own = token.place as usize;
        steps::put_writer(&self.ruled, &mut token.seat, own, writer);
    }

    /// Lets the token see all that the other has seen: the number of commits that it has seen then.
    pub fn meet(&self, token: &mut Token<W>, other: &mut Token<W>) -> u64
        requires table { token.old.table ≡ self.now }
        requires other { other.old.table ≡ self.now }
        ensures length { result ≡ length token.new.seen }
        ensures saw { Saw token.old token.new }
        ensures met { IsPrefix other.old.seen token.new.seen }
        ensures other { Saw other.old other.new }
    {
        steps::hear(&self.ruled, &mut token.seat, &mut other.seat);
        other.seen_len = steps::look(&self.ruled, &mut other.seat);
        token.seen_len = steps::look(&self.ruled, &mut token.seat);
        token.seen_len
    }

    /// Ends the table, and gives the row store. All tokens are handed in: they hold nothing, and nothing is asked.
    pub fn close(self, mut clients: Vec<Token<W>>, mut dispatchers: Vec<Token<W>>) -> RowStore
        requires clients { AreClients self clients.items }
        requires dispatchers { AreDispatchers self dispatchers.items }
        ensures base { result.base ≡ self.base }
        ensures legal { IsLegal result.base result.log }
        ensures named { IsOfClients self.clients result.log }
        ensures seen { All (λ t. IsPrefix t.seen result.log) clients.items
            × All (λ t. IsPrefix t.seen result.log) dispatchers.items }
        ensures owns { All (λ t. Owns t.who t.mine result.log) clients.items }
        ensures true_log { IsLogOf self clients.items dispatchers.items result.log }
    {
        let SharedTable { ruled } = self;
        let Some(last) = dispatchers.pop() else {
            unreachable!()
        };
        let mut seat = last.into_seat();
        while let Some(token) = dispatchers.pop() {
            steps::gather(&ruled, &mut seat, token.into_seat());
        }
        while let Some(token) = clients.pop() {
            steps::gather(&ruled, &mut seat, token.into_seat());
        }
        steps::finish(ruled, seat)
    }
}
