//! Servers that are closed, and what the log of a closed one still has.
ghost use Rattle.std.specs.Prelude.{◌≡◌, All, IfOk};
ghost use Rattle.ssb_clients.specs.Tickets.{IsOf, IsQuiet};

use crate::tests::clients::{adds_quiet, next_client, with_client};
use crate::tests::opening::{let_go, next_dispatcher, opened, opened_keeping};
use crate::tests::trial::follows;
use ssb_server::{Client, Closed, Dispatcher, EndsCopies, Keeps, Opened, Server};
use std::alloc::{AllocError, Global};
use std::sync::Wait;
use std::test::Fail;

// These dispatchers, and one more.
fn with_dispatcher<W: EndsCopies + Drop>(
    server: &Server<W>,
    mut dispatchers: Vec<Dispatcher<W>>,
    dispatcher: Dispatcher<W>,
) -> Result<Vec<Dispatcher<W>>, AllocError>
    requires dispatchers { All (IsOf server.now) dispatchers.items }
    requires dispatcher { IsOf server.now dispatcher }
    ensures { IfOk result (λ all. All (IsOf server.now) all.items) }
{
    let _ = server;
    dispatchers.reserve(1)?;
    dispatchers.push_reserved(dispatcher);
    Ok(dispatchers)
}

/// Closes a server.
pub fn closes<W: EndsCopies + Drop>(
    server: Server<W>,
    clients: Vec<Client<W>>,
    dispatchers: Vec<Dispatcher<W>>,
) -> Result<Closed, Fail>
    requires clients { All (IsQuiet server) clients.items }
    requires dispatchers { All (IsOf server) dispatchers.items }
{
    let closing = Opened {
        server,
        clients,
        dispatchers,
        reader: None,
    };
    match closing.close() {
        Ok(closed) => Ok(closed),
        Err(error) => {
            let_go(error.opened);
            Err("not closed")?
        }
    }
}

// A client adds the order of this key, and the copies follow.
fn adds_and_follows<R: Wait, W: Wait + Drop>(
    rt: &R,
    alloc: Global,
    server: &Server<W>,
    client: &mut Client<W>,
    dispatcher: &mut Dispatcher<W>,
    key: u64,
) -> Result<(), Fail>
    requires client { IsQuiet server.now client.old }
    requires dispatcher { IsOf server.now dispatcher.old }
    ensures client { IsQuiet server.now client.new }
    ensures dispatcher { IsOf server.now dispatcher.new }
{
    let added = adds_quiet(rt, alloc, server, client, key);
    follows(rt, server, dispatcher);
    added
}

// A client and a dispatcher of a server, who take two commits one after another: what is left when it is closed.
fn closed_after_two<R: Wait, W: Wait + Drop>(
    rt: &R,
    alloc: Global,
    made: Opened<W>,
) -> Result<Closed, Fail>
    requires clients { All (IsQuiet made.server) made.clients.items }
    requires dispatchers { All (IsOf made.server) made.dispatchers.items }
{
    let Opened {
        server,
        mut clients,
        mut dispatchers,
        reader: _,
    } = made;
    let mut client = next_client(&server, &mut clients).ok_or("no client")?;
    let mut dispatcher = next_dispatcher(&server, &mut dispatchers).ok_or("no dispatcher")?;
    adds_and_follows(rt, alloc, &server, &mut client, &mut dispatcher, 9)?;
    adds_and_follows(rt, alloc, &server, &mut client, &mut dispatcher, 10)?;
    let clients = with_client(&server, clients, client)?;
    let dispatchers = with_dispatcher(&server, dispatchers, dispatcher)?;
    closes(server, clients, dispatchers)
}

// How many commits there are, and how many of them memory has, where it has all.
fn counts(closed: Closed) -> (u64, Option<usize>) {
    let Closed { base: _, log } = closed;
    (log.len(), log.into_commits().map(|commits| commits.len()))
}

#[test]
fn log_has_its_commits_where_all_are_kept(rt: HostRuntime) -> Result<(), Fail> {
    let made = opened_keeping(&rt, 1, 1, Keeps::All)?;
    let closed = closed_after_two(&rt, rt.alloc(), made)?;
    assert_eq!(rt; counts(closed), (2, Some(2)));
    Ok(())
}

#[test]
fn log_has_lost_the_first_commit_where_nobody_reads_it_again(rt: HostRuntime) -> Result<(), Fail> {
    let made = opened_keeping(&rt, 1, 1, Keeps::Recent)?;
    let closed = closed_after_two(&rt, rt.alloc(), made)?;
    assert_eq!(rt; counts(closed), (2, None));
    Ok(())
}
