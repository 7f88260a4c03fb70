//! What clients and dispatchers share.
ghost use Rattle.std.specs.Prelude.{◌≡◌, ◌≤◌, IfOk};
ghost use Rattle.history_core.specs.Counts.{most_clients};
ghost use Rattle.ssb_clients.specs.Counts.{most_at_table};

use crate::bells::Bells;
use crate::pace::Pace;
use crate::room::ClosingRoom;
use crate::unneeded::Keeps;
use history::SharedTable;
use row_store::Follower;
use server_figures::LiveFigures;
use ssb_base::Base;
use std::alloc::{AllocError, Global};
use std::marker::Model;
use std::sync::{Arc, Mutex, Wait};

/// The greatest number of clients, each of which has at most one request, of any number of questions.
pub const MOST_CLIENTS: u32 = 16;

/// The greatest number of dispatchers.
pub const MOST_DISPATCHERS: u32 = 4;

/// The greatest number of dispatchers at a table, where who reads the log is one of them.
pub const MOST_AT_TABLE: u32 = MOST_DISPATCHERS + 1;

/// What a server shows beside its table: the base that the table is over, and the figures in which it counts.
#[derive(Drop)]
pub struct Shared {
    pub base: Arc<Base>,
    pub figures: Arc<LiveFigures>,
}

/// What clients and dispatchers share: the table, and the places where they sleep. Contracts see the table: its name,
/// the base, and how many clients and dispatchers there are. `K` is the writer of the copies, which follows the
/// commits.
pub struct Server<K: Follower + Drop> {
    pub(crate) table: SharedTable<K>,
    clients: u32,
    dispatchers: u32,
    pub(crate) bells: Bells,
    pub(crate) pace: Pace,
    shared: Shared,
    pub(crate) alloc: Global,
    // For the close. Tokens may not be shared between threads, and behind a lock they are not; nobody takes it.
    room: Mutex<ClosingRoom<K>>,
}

impl<K: Follower + Drop> Drop for Server<K> {
    fn drop(self) {
        let Server {
            table: _,
            clients: _,
            dispatchers: _,
            bells: _,
            pace: _,
            shared: _,
            alloc: _,
            room: _,
        } = self;
    }
}

impl<K: Follower + Drop> Model for Server<K> {
    ghost use Rattle.history.specs.Tokens.{TableRecord};
    ghost use Rattle.ssb_clients.specs.Served.{IsServed};

    ghost Value = { TableRecord };

    ghost view = { λ s. s.table };

    ghost invariant = { λ s. IsServed s.table s.shared.base.value s.clients s.dispatchers };
}

impl<K: Follower + Drop> Server<K> {
    /// The server over a table that was just made. `keeps` says which part of the log stays in memory; what is done is
    /// counted in the figures that it shares.
    pub fn new(
        alloc: Global,
        table: SharedTable<K>,
        clients: u32,
        dispatchers: u32,
        keeps: Keeps,
        shared: Shared,
    ) -> Result<Server<K>, AllocError>
        requires base { shared.base.value ≡ table.base }
        requires counts { (clients ≡ table.clients) × (dispatchers ≡ table.dispatchers) }
        requires few { (clients ≤ most_clients) × (dispatchers ≤ most_at_table) }
        ensures { IfOk result (λ server. server ≡ table) }
    {
        Ok(Server {
            table,
            clients,
            dispatchers,
            bells: Bells::new(alloc, clients, dispatchers)?,
            pace: Pace::new(keeps),
            shared,
            alloc,
            room: Mutex::new(ClosingRoom::new(alloc)?),
        })
    }

    /// The table, and room for its tokens.
    pub fn into_parts(self) -> (SharedTable<K>, ClosingRoom<K>)
        ensures table { result.0 ≡ self }
        ensures few { (self.clients ≤ most_clients) × (self.dispatchers ≤ most_at_table) }
    {
        let Server {
            table,
            clients: _,
            dispatchers: _,
            bells: _,
            pace: _,
            shared: _,
            alloc: _,
            room,
        } = self;
        (table, room.into_inner())
    }

    /// The table, for whoever has a token of it.
    pub fn table(&self) -> &SharedTable<K>
        ensures { result.now ≡ self.now }
    {
        &self.table
    }

    /// How many clients there are.
    pub fn clients(&self) -> u32
        ensures count { result ≡ self.now.clients }
        ensures few { result ≤ most_clients }
    {
        self.clients
    }

    /// How many dispatchers there are at the table.
    pub fn dispatchers(&self) -> u32
        ensures count { result ≡ self.now.dispatchers }
        ensures few { result ≤ most_at_table }
    {
        self.dispatchers
    }

    /// The base that its table is over.
    pub fn base(&self) -> &Base
        ensures { result.now ≡ self.now.base }
    {
        &*self.shared.base
    }

    /// The allocator that it was made with.
    pub fn alloc(&self) -> Global {
        self.alloc
    }

    /// Wakes every dispatcher that rests, and every client that waits for the row store: as when a client has spoken
    /// its script, or when a run ends, and the flag that the dispatchers are to look at is set before.
    pub fn ring(&self) {
        self.bells.ring_dispatchers();
        self.table.wake_waiting();
    }

    /// Wakes the client, whose answer is there.
    pub fn ring_client(&self, number: u32) {
        self.bells.ring_client(number);
    }

    /// A batch has been answered, or commits were carried over: clients that waited for that go on.
    pub fn batch_has_ended(&self) {
        self.pace.end(&self.bells);
    }

    /// A dispatcher is about to carry over all commits so far, though nothing is asked.
    pub fn begins_to_follow(&self) {
        self.pace.lag.begun();
    }

    /// Memory ran out for that. It is tried again after a rest.
    pub fn failed_to_follow(&self) {
        self.pace.lag.failed();
    }

    /// Sleeps until something was posted since the last turn of the dispatcher began, until `ring`, or until it is to
    /// look whether the copies lag. It may return for no reason.
    pub fn rest<R: Wait>(&self, rt: &R, dispatcher: u32) {
        self.pace.rest(rt, &self.bells, dispatcher);
    }

    /// Whether the copies lack commits that it is for this dispatcher to carry over while nothing is asked: so many
    /// that memory would fill up, or the last ones before a silence.
    pub fn lags(&self, dispatcher: u32) -> bool {
        self.pace.lags(dispatcher)
    }

    /// What was done so far, in numbers: no contract tells them.
    pub fn figures(&self) -> &LiveFigures {
        &*self.shared.figures
    }
}
