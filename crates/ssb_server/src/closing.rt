//! How a server is closed.
ghost use Rattle.std.specs.Prelude.{◌≡◌, ◌↔◌, IsTrue, All, IfOk, OnOk, OnErr, IfErr};
ghost use Rattle.row_store.specs.History.{IsPrefix};
ghost use Rattle.row_store.specs.Legal.{IsLegal};
ghost use Rattle.history.specs.Closing.{IsLogOf};
ghost use Rattle.history.specs.Words.{Owns};
ghost use Rattle.history_core.specs.OwnCommits.{IsOfClients};
ghost use Rattle.ssb_clients.specs.Tickets.{IsOf, IsQuiet, AreAllThere, Leaves, with_reader};

use crate::opening::Opened;
use crate::tickets::{are_numbered, gather_all};
use row_store::{Log, Replica};
use ssb_base::Base;
use ssb_clients::tickets::are_clients_numbered;
use standing_columns::StandingColumns;
use std::fmt;
use std::fmt::{Display, Formatter};
use std::sync::Arc;
use twin_cell::EndsCopies;

/// What a closed server leaves: the base that it was opened over, and the log.
#[derive(Drop)]
pub struct Closed {
    pub base: Arc<Base>,
    pub log: Log,
}

/// A client, a dispatcher or who reads the log is missing, or there twice. All is handed back.
#[derive(Drop)]
pub struct CloseError<W: EndsCopies + Drop, C: Replica + Drop = StandingColumns> {
    pub opened: Opened<W, C>,
}

impl<W: EndsCopies + Drop, C: Replica + Drop> Display for CloseError<W, C> {
    fn fmt<O: fmt::Write>(&self, f: &mut Formatter<O>) -> fmt::Result {
        f.write_str("63 TokenMissing")
    }
}

impl<W: EndsCopies + Drop, C: Replica + Drop> Opened<W, C> {
    // Whether each client, each dispatcher and who reads the log is there once.
    fn are_all_there(&self) -> bool
        ensures { IsTrue result ↔ AreAllThere self.now.server self.now.clients.items
            (with_reader self.now.dispatchers.items self.now.reader) }
    {
        are_clients_numbered(self.clients.as_slice(), self.server.clients())
            && are_numbered(
                self.dispatchers.as_slice(),
                &self.reader,
                self.server.dispatchers(),
            )
    }

    // Ends the server, over all who have a token of it.
    fn end(self) -> Closed
        requires there { AreAllThere self.server self.clients.items (with_reader self.dispatchers.items self.reader) }
        requires clients { All (IsQuiet self.server) self.clients.items }
        requires dispatchers { All (IsOf self.server) (with_reader self.dispatchers.items self.reader) }
        ensures { Leaves self.server self.clients.items (with_reader self.dispatchers.items self.reader)
            result.base.value result.log }
    {
        let Opened {
            server,
            clients,
            dispatchers,
            reader,
        } = self;
        let (table, room) = server.into_parts();
        let (client_tokens, dispatcher_tokens) = gather_all(room, clients, dispatchers, reader);
        let (base, log) = table.close(client_tokens, dispatcher_tokens).into_parts();
        Closed { base, log }
    }

    /// Ends the server. Its clients and dispatchers, and who reads the log, if it was opened with one, are handed in,
    /// each once, the clients and the dispatchers in any order, and no client is asking.
    pub fn close(self) -> Result<Closed, CloseError<W, C>>
        requires clients { All (IsQuiet self.server) self.clients.items }
        requires dispatchers { All (IsOf self.server) (with_reader self.dispatchers.items self.reader) }
        ensures whole { OnOk result (AreAllThere self.server self.clients.items
            (with_reader self.dispatchers.items self.reader)) }
        ensures missing { OnErr result (¬ AreAllThere self.server self.clients.items
            (with_reader self.dispatchers.items self.reader)) }
        ensures back { IfErr result (λ error. error.opened ≡ self) }
        ensures base { IfOk result (λ closed. closed.base.value ≡ self.server.base) }
        ensures legal { IfOk result (λ closed. IsLegal self.server.base closed.log) }
        ensures named { IfOk result (λ closed. IsOfClients self.server.clients closed.log) }
        ensures seen { IfOk result (λ closed. All (λ t. IsPrefix t.seen closed.log) self.clients.items
            × All (λ t. IsPrefix t.seen closed.log) (with_reader self.dispatchers.items self.reader)) }
        ensures true_log { IfOk result (λ closed. IsLogOf self.server self.clients.items
            (with_reader self.dispatchers.items self.reader) closed.log) }
        ensures owns { IfOk result (λ closed. All (λ t. Owns t.who t.mine closed.log) self.clients.items) }
    {
        if !self.are_all_there() {
            return Err(CloseError { opened: self });
        }
        Ok(self.end())
    }
}
