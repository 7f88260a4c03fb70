//! Clients, dispatchers and trials as the threads take them. A thread is started for anything that does as they do:
//! the prover compares all that a closure holds, part by part, and for these by name that is more than it can.
ghost use Rattle.std.specs.Thread.{IsSync};
ghost use Rattle.history.specs.Tokens.{TokenRecord};
ghost use Rattle.ssb_clients.specs.Tickets.{IsOf};

use crate::tests::trial::{Trial, TrialStep, turns};
use ssb_server::{Dispatcher, EndsCopies, ScanGate, Server, Turn};
use std::alloc::Global;
use std::sync::Wait;
use std::test::Fail;
use std::thread::Threads;

/// What contracts see as a token.
pub trait HasPartyToken {
    ghost token: { Self → TokenRecord };
}

impl<W: EndsCopies + Drop> HasPartyToken for Dispatcher<W> {
    ghost token = { λ d. d };
}

/// Who takes turns, as a dispatcher does.
pub trait PlaysTurns<W: EndsCopies + Drop>: HasPartyToken {
    fn take_turn<R: Wait + Threads + Sync, G: ScanGate>(
        &mut self,
        rt: &R,
        server: &Server<W>,
        gate: &G,
    ) -> Turn
        requires shared { IsSync R.row }
        requires table { IsOf server.now (Self.token self.old) }
        ensures { IsOf server.now (Self.token self.new) };
}

impl<W: Wait + Drop> PlaysTurns<W> for Dispatcher<W> {
    fn take_turn<R: Wait + Threads + Sync, G: ScanGate>(
        &mut self,
        rt: &R,
        server: &Server<W>,
        gate: &G,
    ) -> Turn {
        turns(rt, server, self, gate)
    }
}

/// Who takes steps, as a trial does.
pub trait Plays {
    fn play<R: Wait + Threads + Sync>(
        &mut self,
        rt: &R,
        alloc: Global,
        steps: &[(TrialStep, &str)],
    ) -> Result<(), Fail>
        requires shared { IsSync R.row };
}

impl<'s, W: Wait + Drop> Plays for Trial<'s, W> {
    fn play<R: Wait + Threads + Sync>(
        &mut self,
        rt: &R,
        alloc: Global,
        steps: &[(TrialStep, &str)],
    ) -> Result<(), Fail> {
        self.plays(rt, alloc, steps)
    }
}
