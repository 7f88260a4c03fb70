//! Three clients that refresh at once, each in a thread of its own.
ghost use Rattle.std.specs.Prelude.{◌≡◌, All, IfOk};
ghost use Rattle.std.specs.Thread.{IsSync};
ghost use Rattle.history.specs.Tokens.{TableRecord};
ghost use Rattle.ssb_clients.specs.Tickets.{IsOf, IsQuiet};

use crate::tests::clients::{meets_quiet, next_client, refreshes_quiet, with_client};
use crate::tests::closing::closes;
use crate::tests::opening::opened_keeping;
use row_store::{Commit, Follower};
use ssb_clients::{Client, Server};
use ssb_schema::Refresh;
use ssb_server::{Closed, EndsCopies, Keeps, Opened};
use std::alloc::Global;
use std::marker::Model;
use std::sync::{Arc, Wait};
use std::test::Fail;
use std::thread::{Threads, join_mut};
use test_fixtures::adding;

// How many refreshes each client makes.
const REFRESHES: u64 = 10;

// Refreshes that add the orders of the keys behind this one.
fn adding_behind(alloc: Global, key: u64) -> Result<Vec<Arc<Refresh>>, Fail> {
    let mut all = Vec::new(alloc);
    for k in 0..REFRESHES {
        all.push(adding(alloc, key.wrapping_add(k))?)?;
    }
    Ok(all)
}

// A client of a server, with refreshes that it is to make. Contracts see the table.
#[derive(Drop)]
struct Maker<'s, K: Follower + Drop> {
    server: &'s Server<K>,
    client: Client<K>,
    refreshes: Vec<Arc<Refresh>>,
}

impl<'s, K: Follower + Drop> Model for Maker<'s, K> {
    ghost Value = { TableRecord };

    ghost view = { λ m. m.server.now };

    ghost invariant = { λ m. IsQuiet m.server.now m.client };
}

impl<'s, K: Follower + Drop> Maker<'s, K> {
    fn new(server: &'s Server<K>, client: Client<K>, refreshes: Vec<Arc<Refresh>>) -> Maker<'s, K>
        requires { IsQuiet server.now client }
        ensures { result ≡ server.now }
    {
        Maker {
            server,
            client,
            refreshes,
        }
    }

    fn into_client(self) -> Client<K>
        ensures { IsQuiet self.entry result }
    {
        let Maker {
            server: _,
            client,
            refreshes: _,
        } = self;
        client
    }
}

// Who has refreshes to make, and a server for them. A thread is started for whoever has them, as `parties` has it: here
// it holds the server too, since that beside a client and its refreshes is more than the prover can compare.
trait Makes {
    // The server's table, which stays.
    ghost table: { Self → TableRecord };

    // Makes the refreshes, one after another.
    fn make_all<R: Wait>(&mut self, rt: &R)
        ensures { Self.table self.new ≡ Self.table self.old };
}

impl<'s, K: Follower + Drop> Makes for Maker<'s, K> {
    ghost table = { λ m. m };

    fn make_all<R: Wait>(&mut self, rt: &R) {
        make_each(rt, self.server, &mut self.client, &self.refreshes);
    }
}

// A client makes these refreshes, one after another.
fn make_each<K: Follower + Drop, R: Wait>(
    rt: &R,
    server: &Server<K>,
    client: &mut Client<K>,
    all: &[Arc<Refresh>],
)
    requires { IsQuiet server.now client.old }
    ensures { IsQuiet server.now client.new }
{
    for refresh in all {
        if let Ok(refresh) = Arc::try_clone(refresh) {
            let _ = refreshes_quiet(rt, server, client, refresh);
        }
    }
}

// The second client and the third one make their refreshes at once.
fn two_make<M: Makes + Send, R: Wait + Threads + Sync>(rt: &R, second: &mut M, third: &mut M)
    ensures second { M.table second.new ≡ M.table second.old }
    ensures third { M.table third.new ≡ M.table third.old }
{
    join_mut(
        rt,
        &mut ||
            requires { IsSync R.row }
            ensures { M.table second.exit.now ≡ M.table second.entry.now }
        { second.make_all(rt) },
        &mut ||
            ensures { M.table third.exit.now ≡ M.table third.entry.now }
        { third.make_all(rt) },
    );
}

// Three clients make their refreshes at once.
fn three_make<M: Makes + Send, R: Wait + Threads + Sync>(
    rt: &R,
    first: &mut M,
    second: &mut M,
    third: &mut M,
)
    ensures first { M.table first.new ≡ M.table first.old }
    ensures second { M.table second.new ≡ M.table second.old }
    ensures third { M.table third.new ≡ M.table third.old }
{
    join_mut(
        rt,
        &mut ||
            requires { IsSync R.row }
            ensures { M.table first.exit.now ≡ M.table first.entry.now }
        { first.make_all(rt) },
        &mut ||
            requires { IsSync R.row }
            ensures { M.table second.exit.now ≡ M.table second.entry.now
                × M.table third.exit.now ≡ M.table third.entry.now }
        { two_make(rt, second, third) },
    );
}

// The last client of the list, who leaves, with ten refreshes that add the orders behind this key.
fn next_maker<'s, K: Follower + Drop>(
    alloc: Global,
    server: &'s Server<K>,
    clients: &mut Vec<Client<K>>,
    key: u64,
) -> Result<Maker<'s, K>, Fail>
    requires { All (IsQuiet server.now) clients.old.items }
    ensures left { All (IsQuiet server.now) clients.new.items }
    ensures maker { IfOk result (λ maker. maker ≡ server.now) }
{
    let client = next_client(server, clients).ok_or("no client")?;
    Ok(Maker::new(server, client, adding_behind(alloc, key)?))
}

// Three clients of a server, who are back, make ten refreshes each at once, and then two of them meet: how many commits
// these see.
fn make_and_meet<K: Follower + Drop + Send, R: Wait + Threads + Sync>(
    rt: &R,
    alloc: Global,
    server: &Server<K>,
    mut clients: Vec<Client<K>>,
) -> Result<(u64, Vec<Client<K>>), Fail>
    requires { All (IsQuiet server.now) clients.items }
    ensures { IfOk result (λ made. All (IsQuiet server.now) made.1.items) }
{
    let mut first = next_maker(alloc, server, &mut clients, 100)?;
    let mut second = next_maker(alloc, server, &mut clients, 200)?;
    let mut third = next_maker(alloc, server, &mut clients, 300)?;
    three_make(rt, &mut first, &mut second, &mut third);
    let (mut first, mut second) = (first.into_client(), second.into_client());
    let seen = meets_quiet(server, &mut first, &mut second);
    let clients = with_client(server, clients, third.into_client())?;
    let clients = with_client(server, clients, first)?;
    Ok((seen, with_client(server, clients, second)?))
}

// The same, after which the server is closed: how many commits were seen, and the log.
fn thirty_are_made<W: EndsCopies + Drop + Send, R: Wait + Threads + Sync>(
    rt: &R,
    alloc: Global,
    made: Opened<W>,
) -> Result<(u64, Vec<Commit>), Fail>
    requires clients { All (IsQuiet made.server) made.clients.items }
    requires dispatchers { All (IsOf made.server) made.dispatchers.items }
{
    let Opened {
        server,
        clients,
        dispatchers,
        reader: _,
    } = made;
    let (seen, clients) = make_and_meet(rt, alloc, &server, clients)?;
    let Closed { base: _, log } = closes(server, clients, dispatchers)?;
    Ok((seen, log.into_commits().ok_or("forgotten")?))
}

// How many of the commits are the client's.
fn commits_of(commits: &[Commit], client: u32) -> usize {
    commits
        .iter()
        .filter(|commit| commit.client == client)
        .count()
}

#[test]
fn thirty_refreshes_of_three_threads_are_seen_and_are_in_the_log(
    rt: HostRuntime,
) -> Result<(), Fail> {
    let made = opened_keeping(&rt, 3, 1, Keeps::All)?;
    let (seen, commits) = thirty_are_made(&rt, rt.alloc(), made)?;
    let of_each = (
        commits_of(&commits, 1),
        commits_of(&commits, 2),
        commits_of(&commits, 3),
    );
    assert_eq!(rt; (seen, commits.len(), of_each), (30, 30, (10, 10, 10)));
    Ok(())
}
