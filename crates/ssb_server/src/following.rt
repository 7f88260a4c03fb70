//! How the copies follow the commits, though nothing is asked: copies of any replica, as in `snapshot`.
ghost use Rattle.std.specs.Prelude.{◌≡◌, ◌++◌, false};
ghost use Rattle.ssb_clients.specs.Fetching.{IsDispatcher, Fetches};
ghost use Rattle.ssb_server.specs.Turns.{HoldsNothing, HasFetched, HasTaken, Follows};

use crate::snapshot::renew;
use history::Token;
use row_store::{Commit, Follower, Replica};
use ssb_clients::Server;
use std::alloc::AllocError;
use std::sync::Wait;
use twin_cell::TwinWriter;

// Appends the commits that the writer lacks and publishes them, and once more, so that both copies have them.
fn level<C: Replica + Drop, W: Wait + Drop>(
    writer: TwinWriter<C, W>,
    commits: Vec<Commit>,
) -> (TwinWriter<C, W>, Result<(), AllocError>)
    ensures { Follows writer.base (writer.published ++ writer.pending ++ commits.items) result.0 }
{
    let (writer, renewed) = renew(writer, commits);
    match renewed {
        Ok(()) => writer.publish(),
        Err(error) => (writer, Err(error)),
    }
}

// Fetches the commits that the writer lacks, and brings both copies up to them.
fn carry_over<C: Replica + Drop, W: Wait + Drop, R: Wait>(
    rt: &R,
    server: &Server<TwinWriter<C, W>>,
    token: &mut Token<TwinWriter<C, W>>,
    writer: TwinWriter<C, W>,
) -> (TwinWriter<C, W>, Result<(), AllocError>)
    requires dispatcher { IsDispatcher server.now token.old }
    requires free { token.old.has_rows ≡ false }
    requires writer { HasTaken token.old writer }
    ensures fetched { Fetches token.old token.new }
    ensures writer { Follows token.new.table.base token.new.seen result.0 }
{
    let taken = writer.taken();
    match server.fetch(rt, token, taken) {
        Ok(commits) => level(writer, commits),
        Err(error) => (writer, Err(error)),
    }
}

/// Carries all commits so far over to both copies. Both parts are home afterwards.
pub(crate) fn follow<C: Replica + Drop, W: Wait + Drop, R: Wait>(
    rt: &R,
    server: &Server<TwinWriter<C, W>>,
    token: &mut Token<TwinWriter<C, W>>,
)
    requires dispatcher { IsDispatcher server.now token.old }
    requires free { HoldsNothing token.old }
    ensures followed { HasFetched token.old token.new }
{
    server.begins_to_follow();
    let table = server.table();
    let writer = table.take_writer(rt, token);
    let (writer, carried) = carry_over(rt, server, token, writer);
    table.put_writer(token, writer);
    if carried.is_err() {
        server.failed_to_follow();
    }
    server.batch_has_ended();
}
