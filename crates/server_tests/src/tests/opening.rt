//! Servers that are opened, with their clients and dispatchers, and those that are not.
ghost use Rattle.std.specs.Prelude.{All, IfOk, IfSome};
ghost use Rattle.ssb_clients.specs.Tickets.{IsOf, IsQuiet};

use crate::tests::clients::let_parts_go;
use ssb_server::{Dispatcher, EndsCopies, Keeps, Loaded, OpenFault, Opened, Server, open};
use std::hash::RandomState;
use std::random::RandomSource;
use std::sync::Wait;
use std::test::Fail;
use std::thread::Threads;
use test_fixtures::standard_base;

// The small data set, loaded.
fn small_loaded<R: Threads + Sync + AllocGlobal + RandomSource>(rt: &R) -> Result<Loaded, Fail> {
    let alloc = rt.alloc();
    let base = standard_base(rt, alloc)?;
    let hashing = RandomState::new(rt)?;
    Ok(Loaded::new(rt, alloc, hashing, &base, &[])?)
}

/// A server over the small data set, for so many clients and dispatchers, which keeps of its log what somebody has yet
/// to read.
pub fn opened<R: Threads + Sync + Wait + AllocGlobal + RandomSource>(
    rt: &R,
    clients: u32,
    dispatchers: u32,
) -> Result<Opened<&R>, Fail>
    ensures clients { IfOk result (λ made. All (IsQuiet made.server) made.clients.items) }
    ensures dispatchers { IfOk result (λ made. All (IsOf made.server) made.dispatchers.items) }
{
    opened_keeping(rt, clients, dispatchers, Keeps::Recent)
}

/// The same, which keeps this part of its log.
pub fn opened_keeping<R: Threads + Sync + Wait + AllocGlobal + RandomSource>(
    rt: &R,
    clients: u32,
    dispatchers: u32,
    keeps: Keeps,
) -> Result<Opened<&R>, Fail>
    ensures clients { IfOk result (λ made. All (IsQuiet made.server) made.clients.items) }
    ensures dispatchers { IfOk result (λ made. All (IsOf made.server) made.dispatchers.items) }
{
    let loaded = small_loaded(rt)?;
    match open(rt.alloc(), rt, loaded, clients, dispatchers, keeps) {
        Ok(made) => Ok(made),
        Err(fault) => Err(fault)?,
    }
}

/// Lets go of a server with all who have a token of it, part by part: the prover takes the whole's type long.
pub fn let_go<W: EndsCopies + Drop>(made: Opened<W>) {
    let Opened {
        server,
        clients,
        dispatchers: _dispatchers,
        reader,
    } = made;
    let_parts_go(server, clients, reader);
}

// Why no server was opened, where none was.
fn fault_of<W: EndsCopies + Drop>(opened: Result<Opened<W>, OpenFault>) -> Option<OpenFault> {
    match opened {
        Ok(made) => {
            let_go(made);
            None
        }
        Err(fault) => Some(fault),
    }
}

/// The last dispatcher, which leaves.
pub fn next_dispatcher<W: EndsCopies + Drop>(
    server: &Server<W>,
    dispatchers: &mut Vec<Dispatcher<W>>,
) -> Option<Dispatcher<W>>
    requires { All (IsOf server.now) dispatchers.old.items }
    ensures left { All (IsOf server.now) dispatchers.new.items }
    ensures next { IfSome result (IsOf server.now) }
{
    let _ = server;
    dispatchers.pop()
}

#[test]
fn counts_out_of_range_open_nothing(rt: HostRuntime) -> Result<(), Fail> {
    for (clients, dispatchers, fault) in [
        (0, 1, OpenFault::ClientCount),
        (17, 1, OpenFault::ClientCount),
        (1, 0, OpenFault::DispatcherCount),
        (1, 5, OpenFault::DispatcherCount),
        (0, 0, OpenFault::ClientCount),
    ] {
        let loaded = small_loaded(&rt)?;
        let opened = open(rt.alloc(), &rt, loaded, clients, dispatchers, Keeps::Recent);
        assert_eq!(rt; fault_of(opened).ok_or("opened")?, fault);
    }
    Ok(())
}
