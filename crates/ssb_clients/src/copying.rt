//! The commits that somebody lacks, copied out of the row store.
ghost use Rattle.std.specs.Prelude.{◌≡◌, ◌≤◌, true, false, length, drop, IfOk};
ghost use Rattle.row_store.specs.History.{lines_after};
ghost use Rattle.history.specs.Tokens.{gave_back};
ghost use Rattle.ssb_clients.specs.Fetching.{IsDispatcher, HasBeside, AreThere, Fetches};

use crate::server::Server;
use history::Token;
use row_store::{Commit, Follower, RowStore};
use std::alloc::{AllocError, Global};
use std::sync::Wait;

fn copy_of(alloc: Global, commits: &[Commit]) -> Result<Vec<Commit>, AllocError>
    ensures { IfOk result (λ copies. copies.items ≡ commits.now) }
{
    let mut copies = Vec::with_capacity(alloc, commits.len())?;
    for commit in commits {
        copies.push(commit.clone()?)?;
    }
    Ok(copies)
}

// Copies the commits behind the first `taken`. Rows forget no more than the writer of the copies has taken and who
// reads the log has read, so none of these is forgotten; no contract says so, and where it were otherwise, nothing is
// copied.
fn copy_behind(alloc: Global, rows: &RowStore, taken: u64) -> Result<Vec<Commit>, AllocError>
    requires { taken ≤ length rows.now.log }
    ensures { IfOk result (λ commits. commits.items ≡ drop taken rows.now.log) }
{
    match rows.log_from(taken) {
        Some(commits) => copy_of(alloc, commits),
        None => Err(AllocError),
    }
}

// Copies the commits behind the first `taken` out of the rows, lets the rows forget those before them that are among
// the first `unneeded`, and gives the rows back as they were taken.
fn copy_and_put<K: Follower + Drop>(
    server: &Server<K>,
    token: &mut Token<K>,
    mut rows: RowStore,
    taken: u64,
    unneeded: u64,
) -> Result<Vec<Commit>, AllocError>
    requires table { token.old.table ≡ server.now }
    requires holds { token.old.has_rows ≡ true }
    requires rows { rows ≡ record { base = token.old.table.base; log = token.old.seen } }
    requires taken { taken ≤ length token.old.seen }
    ensures back { token.new ≡ gave_back token.old }
    ensures commits { IfOk result (λ commits. commits.items ≡ drop taken token.new.seen) }
{
    let commits = copy_behind(server.alloc, &rows, taken);
    let forgotten = rows.forget(taken.min(unneeded));
    server.table.put_rows(token, rows);
    drop(forgotten);
    commits
}

/// Waits until the row store is home, takes it, copies the commits behind the first `taken`, lets the rows forget those
/// before them that are among the first `unneeded`, and gives the rows back as they were.
pub(crate) fn copy_new<K: Follower + Drop, R: Wait>(
    rt: &R,
    server: &Server<K>,
    token: &mut Token<K>,
    taken: u64,
    unneeded: u64,
) -> Result<Vec<Commit>, AllocError>
    requires dispatcher { IsDispatcher server.now token.old }
    requires free { token.old.has_rows ≡ false }
    requires taken { AreThere token.old taken }
    ensures fetched { Fetches token.old token.new }
    ensures commits { IfOk result (λ commits. commits.items ≡ drop taken token.new.seen) }
    ensures few { length (lines_after token.new.table.base token.new.seen) ≤ token.new.table.base.limits.lines }
{
    let rows = server.table.take_rows(rt, token);
    rows.soundness();
    copy_and_put(server, token, rows, taken, unneeded)
}

impl<K: Follower + Drop> Server<K> {
    /// For a dispatcher: takes the rows, copies the commits that its writer lacks, lets the rows forget those before
    /// them that nobody else lacks, and gives the rows back as they were. Clients let it go first, and keep near to
    /// these commits until `batch_has_ended`.
    pub fn fetch<R: Wait>(
        &self,
        rt: &R,
        token: &mut Token<K>,
        taken: u64,
    ) -> Result<Vec<Commit>, AllocError>
        requires dispatcher { IsDispatcher self.now token.old }
        requires free { token.old.has_rows ≡ false }
        requires taken { HasBeside token.old taken }
        ensures fetched { Fetches token.old token.new }
        ensures commits { IfOk result (λ commits. commits.items ≡ drop taken token.new.seen) }
        ensures few { length (lines_after token.new.table.base token.new.seen) ≤ token.new.table.base.limits.lines }
    {
        self.pace.hold();
        let commits = copy_new(rt, self, token, taken, self.pace.unneeded.count());
        self.pace.begin(token.seen_len());
        self.bells.ring_clients();
        commits
    }
}
