//! From the grabbed requests to the entered copy: the latest commits are fetched, published and told. The copies are of
//! any replica `C`, since none of this looks into one, and the prover takes a large type long.
ghost use Rattle.std.specs.Prelude.{◌≡◌, ◌≤◌, false, [], ◌∷◌, ◌++◌, length, MatchResult};
ghost use Rattle.row_store.specs.History.{lines_after};
ghost use Rattle.ssb_clients.specs.Fetching.{IsDispatcher, Fetches};
ghost use Rattle.ssb_server.specs.Turns.{HoldsNothing, HasFetched, Knows, StandsAt, HasTaken, Appends, Follows, Misses};

use history::Token;
use row_store::{Commit, Follower, Replica};
use ssb_answers::Unserved;
use ssb_clients::Server;
use std::alloc::AllocError;
use std::sync::Wait;
use twin_cell::{EndsCopies, Guard, TwinReader, TwinWriter};

/// Why no copy was entered, with the reader.
pub(crate) type Missed<C> = (TwinReader<C>, Unserved);

// The commits are pending from now on; where memory runs out, the first of them are.
fn append_all<C: Replica + Drop, W: EndsCopies + Drop>(
    writer: &mut TwinWriter<C, W>,
    commits: Vec<Commit>,
) -> Result<(), AllocError>
    ensures { Appends writer.old commits.items result writer.new }
{
    for commit in commits {
        match writer.append(commit) {
            Ok(()) => {}
            Err(error) => return Err(error),
        }
    }
    Ok(())
}

// Publishes where something is pending.
fn publish_pending<C: Replica + Drop, W: Wait + Drop>(
    writer: TwinWriter<C, W>,
) -> (TwinWriter<C, W>, Result<(), AllocError>)
    ensures { MatchResult result.1 (λ _. result.0 ≡ record {
      base = writer.base;
      published = writer.published
          ++ writer.pending;
      pending = [];
    }) (λ _. result.0 ≡ writer) }
{
    if writer.pending() == 0 {
        return (writer, Ok(()));
    }
    writer.publish()
}

// Tells the reader what is published, and enters. The copy holds just as many commits as were told.
fn enter<C: Replica + Drop, W: EndsCopies + Drop, R: Wait>(
    rt: &R,
    writer: &mut TwinWriter<C, W>,
    mut reader: TwinReader<C>,
) -> Result<Guard<C>, Missed<C>>
    requires { Knows writer.old.base writer.old.published reader }
    ensures kept { writer.new ≡ writer.old }
    ensures entered { MatchResult result (StandsAt writer.old.base writer.old.published)
        (Misses writer.old.base writer.old.published) }
{
    let told = writer.told();
    let Ok(note) = writer.tell() else {
        return Err((reader, Unserved::OutOfMemory));
    };
    reader.learn(note);
    let guard = reader.enter(rt);
    let found = guard.replica().commits();
    if found != told {
        return Err((guard.leave(), Unserved::Twin { told, found }));
    }
    Ok(guard)
}

/// Appends the commits that the writer lacks, and publishes all.
pub(crate) fn renew<C: Replica + Drop, W: Wait + Drop>(
    mut writer: TwinWriter<C, W>,
    commits: Vec<Commit>,
) -> (TwinWriter<C, W>, Result<(), AllocError>)
    ensures { let all = writer.published ++ writer.pending ++ commits.items in
        MatchResult result.1 (λ _. result.0 ≡ record { base = writer.base; published = all; pending = [] })
        (λ _. Follows writer.base all result.0) }
{
    match append_all(&mut writer, commits) {
        Ok(()) => publish_pending(writer),
        Err(error) => (writer, Err(error)),
    }
}

// Appends the commits that the writer lacks, publishes, and enters the copy.
fn catch_up<C: Replica + Drop, W: Wait + Drop, R: Wait>(
    rt: &R,
    writer: TwinWriter<C, W>,
    commits: Vec<Commit>,
    reader: TwinReader<C>,
) -> (TwinWriter<C, W>, Result<Guard<C>, Missed<C>>)
    requires { Knows writer.base (writer.published ++ writer.pending ++ commits.items) reader }
    ensures writer { Follows writer.base (writer.published ++ writer.pending ++ commits.items) result.0 }
    ensures entered { let all = writer.published ++ writer.pending ++ commits.items in
        MatchResult result.1 (StandsAt writer.base all) (Misses writer.base all) }
{
    let (mut writer, renewed) = renew(writer, commits);
    if renewed.is_err() {
        return (writer, Err((reader, Unserved::OutOfMemory)));
    }
    let entered = enter(rt, &mut writer, reader);
    (writer, entered)
}

// Fetches the commits that the writer lacks, and enters the copy that holds all of them.
fn bring_up<C: Replica + Drop, W: Wait + Drop, R: Wait>(
    rt: &R,
    server: &Server<TwinWriter<C, W>>,
    token: &mut Token<TwinWriter<C, W>>,
    writer: TwinWriter<C, W>,
    reader: TwinReader<C>,
) -> (TwinWriter<C, W>, Result<Guard<C>, Missed<C>>)
    requires dispatcher { IsDispatcher server.now token.old }
    requires free { token.old.has_rows ≡ false }
    requires writer { HasTaken token.old writer }
    requires reader { Knows token.old.table.base token.old.seen reader }
    ensures fetched { Fetches token.old token.new }
    ensures few { length (lines_after token.new.table.base token.new.seen) ≤ token.new.table.base.limits.lines }
    ensures writer { Follows token.new.table.base token.new.seen result.0 }
    ensures entered { MatchResult result.1 (StandsAt token.new.table.base token.new.seen)
        (Misses token.new.table.base token.new.seen) }
{
    let taken = writer.taken();
    match server.fetch(rt, token, taken) {
        Ok(commits) => catch_up(rt, writer, commits, reader),
        Err(_) => (writer, Err((reader, Unserved::OutOfMemory))),
    }
}

/// Fetches, publishes and enters. Both parts are home afterwards.
pub(crate) fn snapshot<C: Replica + Drop, W: Wait + Drop, R: Wait>(
    rt: &R,
    server: &Server<TwinWriter<C, W>>,
    token: &mut Token<TwinWriter<C, W>>,
    reader: TwinReader<C>,
) -> Result<Guard<C>, Missed<C>>
    requires dispatcher { IsDispatcher server.now token.old }
    requires free { HoldsNothing token.old }
    requires reader { Knows token.old.table.base token.old.seen reader }
    ensures fetched { HasFetched token.old token.new }
    ensures few { length (lines_after token.new.table.base token.new.seen) ≤ token.new.table.base.limits.lines }
    ensures entered { MatchResult result (StandsAt token.new.table.base token.new.seen)
        (Misses token.new.table.base token.new.seen) }
{
    let table = server.table();
    let writer = table.take_writer(rt, token);
    let (writer, entered) = bring_up(rt, server, token, writer, reader);
    table.put_writer(token, writer);
    entered
}
