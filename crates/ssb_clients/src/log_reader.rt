//! Who keeps a journal, and reads the log for it.
ghost use Rattle.std.specs.Prelude.{◌≡◌, ℕ, ◌≤◌, length, drop, IfOk};
ghost use Rattle.row_store.specs.History.{IsPrefix};
ghost use Rattle.history_core.specs.declared.event.Who.TheVariants.{Dispatcher as IsNumbered};
ghost use Rattle.history.specs.Tokens.{IsSound, IsFree};
ghost use Rattle.history.specs.Members.{number_of};
ghost use Rattle.ssb_clients.specs.Clients.{Looks};
ghost use Rattle.ssb_clients.specs.Ready.{IsIdle};
ghost use Rattle.ssb_clients.specs.Tickets.{IsLeft};
ghost use Rattle.ssb_clients.specs.Fetching.{Fetches};

use crate::client::Client;
use crate::copying::copy_new;
use crate::server::Server;
use history::Token;
use history_core::Who;
use row_store::{Commit, Follower};
use std::alloc::AllocError;
use std::marker::Model;
use std::sync::Wait;

/// The token of who keeps a journal: it reads the log, and neither refreshes, asks nor answers. At the table it is one
/// dispatcher more, behind the others, that never grabs. Contracts see the token; between two calls it holds nothing.
pub struct LogReader<K: Follower + Drop> {
    token: Token<K>,
    number: u32,
}

impl<K: Follower + Drop> Drop for LogReader<K> {
    fn drop(self) {
        let LogReader {
            token: _,
            number: _,
        } = self;
    }
}

impl<K: Follower + Drop> Model for LogReader<K> {
    ghost use Rattle.history.specs.Tokens.{TokenRecord};

    ghost Value = { TokenRecord };

    ghost use Rattle.ssb_clients.specs.Ready.{IsIdle};

    ghost view = { λ r. r.token };

    ghost invariant = { λ r. IsIdle r.number r.token };
}

impl<K: Follower + Drop> LogReader<K> {
    /// The reader of a token that was just dealt to a dispatcher.
    pub fn new(token: Token<K>) -> LogReader<K>
        requires { (number : ℕ) × IsIdle number token }
        ensures { result ≡ token }
    {
        let Who::Dispatcher(number) = token.who() else {
            unreachable!()
        };
        LogReader { token, number }
    }

    /// The reader's token, for the close.
    pub fn into_token(self) -> Token<K>
        ensures token { result ≡ self }
        ensures left { IsLeft self }
    {
        let LogReader { token, number: _ } = self;
        token
    }

    /// Its number among the dispatchers.
    pub fn number(&self) -> u32
        ensures { result ≡ number_of self.now.who }
    {
        self.number
    }

    /// The history that it has seen is legal: so its token says. The law alone: it does nothing.
    pub fn soundness(&self)
        ensures { IsSound self.now }
    {
        self.token.soundness();
    }

    /// How many commits it has seen.
    pub fn seen(&self) -> u64
        ensures { result ≡ length self.now.seen }
    {
        self.token.seen_len()
    }

    /// The number of commits, all of which it has seen then.
    pub fn look(&mut self, server: &Server<K>) -> u64
        requires { self.old.table ≡ server.now }
        ensures length { result ≡ length self.new.seen }
        ensures looks { Looks self.old self.new }
    {
        server.table.look(&mut self.token)
    }

    /// Lets the reader see all that a client has seen: the number of commits that the reader sees then.
    pub fn meet(&mut self, server: &Server<K>, client: &mut Client<K>) -> u64
        requires table { self.old.table ≡ server.now }
        requires client { client.old.table ≡ server.now }
        ensures length { result ≡ length self.new.seen }
        ensures looks { Looks self.old self.new }
        ensures met { IsPrefix client.old.seen self.new.seen }
        ensures client { Looks client.old client.new }
    {
        server.table.meet(&mut self.token, &mut client.token)
    }

    /// Lets a client see all that the reader has seen: the number of commits that the client sees then.
    pub fn show(&mut self, server: &Server<K>, client: &mut Client<K>) -> u64
        requires table { self.old.table ≡ server.now }
        requires client { client.old.table ≡ server.now }
        ensures length { result ≡ length client.new.seen }
        ensures looks { Looks client.old client.new }
        ensures shown { IsPrefix self.old.seen client.new.seen }
        ensures reader { Looks self.old self.new }
    {
        server.table.meet(&mut client.token, &mut self.token)
    }

    /// All commits of the log behind the first `taken`. It waits for the row store as a dispatcher does, and has it
    /// only while it copies them; where memory for that runs out, it has seen them all the same.
    pub fn commits_from<R: Wait>(
        &mut self,
        rt: &R,
        server: &Server<K>,
        taken: u64,
    ) -> Result<Vec<Commit>, AllocError>
        requires table { self.old.table ≡ server.now }
        requires taken { taken ≤ length self.old.seen }
        ensures reads { Fetches self.old self.new }
        ensures commits { IfOk result (λ commits. commits.items ≡ drop taken self.new.seen) }
        ensures free { IsFree self.new }
    {
        server.pace.unneeded.has_read(taken);
        let before = server.pace.hold();
        let commits = copy_new(rt, server, &mut self.token, taken, 0);
        server.pace.release(before);
        server.bells.ring_clients();
        commits
    }
}
