//! The commits of a journal, made again by their clients.

ghost use Rattle.std.specs.Prelude.{◌≡◌, ℕ, ◌+◌, ◌∷◌, ◌++◌, IfErr, OnOk, [], length};
ghost use Rattle.ssb_serving.specs.Members.{IsStill};
ghost use Rattle.serve_command.specs.Seated.{AllHaveSeen, AreSeated, IsSeated};
ghost use Rattle.serve_command.specs.Remade.{IsNotMade, IsRemakeFault};
ghost use Rattle.serve_command.specs.declared.unserved.JournaledFault.TheVariants.{Disturbed};

use crate::unserved::JournaledFault;
use row_store::{Commit, Follower, RefreshError};
use ssb_clients::{Client, LogReader, Server};
use ssb_journal::ReplayFault;
use std::sync::{Arc, Wait};

// Makes the commit of this number again, by its client, behind those that the reader of the log has seen, and lets the
// reader see it.
fn remake_one<F: Follower + Drop, R: Wait>(
    rt: &R,
    server: &Server<F>,
    client: &mut Client<F>,
    reader: &mut LogReader<F>,
    commit: &Commit,
    number: u64,
) -> Result<(), JournaledFault>
    requires reader { reader.old.table ≡ server.now }
    requires client { IsSeated server.now reader.old.seen commit.now.client client.old }
    requires number { number ≡ length reader.old.seen + 1 }
    ensures reader { IsStill reader.old reader.new }
    ensures client { OnOk result (IsSeated server.now reader.new.seen commit.now.client client.new) }
    ensures made { OnOk result (reader.new.seen ≡ reader.old.seen ++ commit.now ∷ []) }
    ensures fault { IfErr result (IsNotMade server.now.base reader.old.seen commit.now) }
{
    if reader.show(server, client) != number - 1 {
        return Err(JournaledFault::Disturbed);
    }
    let refresh = Arc::try_clone(&commit.refresh)?;
    match client.refresh(rt, server, refresh) {
        Ok(_) => {},
        Err(RefreshError::Refused { at, action, cause }) if at == number - 1 => {
            // What it is refused behind is legal.
            client.soundness();
            return Err(JournaledFault::Replay(ReplayFault::Refused {
                number,
                action,
                cause,
            }));
        },
        Err(RefreshError::Refused { .. }) => return Err(JournaledFault::Disturbed),
        Err(RefreshError::OutOfMemory) => return Err(JournaledFault::OutOfMemory),
    }
    if reader.meet(server, client) != number || client.seen() != number {
        return Err(JournaledFault::Disturbed);
    }
    Ok(())
}

/// Makes the next commits of a journal again, each by its client, behind those that the reader of the log has seen, and
/// lets it see them and no others. The first that is refused is told.
pub(crate) fn remake<F: Follower + Drop, R: Wait>(
    rt: &R,
    server: &Server<F>,
    clients: &mut [Client<F>],
    reader: &mut LogReader<F>,
    commits: &[Commit],
) -> Result<(), JournaledFault>
    requires reader { reader.old.table ≡ server.now }
    requires clients { AreSeated server.now reader.old.seen clients.old }
    ensures reader { OnOk result (IsStill reader.old reader.new) }
    ensures seen { OnOk result (reader.new.seen ≡ reader.old.seen ++ commits.now) }
    ensures clients { OnOk result (AreSeated server.now reader.new.seen clients.new) }
    ensures fault { IfErr result (IsRemakeFault server.now.base (reader.old.seen ++ commits.now)) }
{
    for commit in commits {
        // The text of a journal has commits of clients 1 to 16 alone.
        let seat = commit.client as usize;
        if seat == 0 || clients.len() < seat {
            return Err(JournaledFault::Disturbed);
        }
        let client = &mut clients[seat - 1];
        let Some(number) = reader.seen().checked_add(1) else {
            return Err(JournaledFault::Disturbed);
        };
        remake_one(rt, server, client, reader, commit, number)?;
    }
    Ok(())
}

// Lets a client see all that the reader of the log has seen, so many commits.
fn show_one<F: Follower + Drop>(
    server: &Server<F>,
    client: &mut Client<F>,
    reader: &mut LogReader<F>,
    count: u64,
) -> Result<(), JournaledFault>
    requires reader { reader.old.table ≡ server.now }
    requires client { client.old.table ≡ server.now }
    requires count { count ≡ length reader.old.seen }
    ensures reader { OnOk result (IsStill reader.old reader.new) }
    ensures same { OnOk result (reader.new.seen ≡ reader.old.seen) }
    ensures client { OnOk result ((number : ℕ) → IsSeated server.now reader.old.seen number client.old
        → IsSeated server.now reader.old.seen number client.new) }
    ensures seen { OnOk result (client.new.seen ≡ reader.old.seen) }
    ensures fault { IfErr result (λ fault. fault ≡ Disturbed) }
{
    if reader.show(server, client) != count || reader.seen() != count {
        return Err(JournaledFault::Disturbed);
    }
    Ok(())
}

/// Lets each client see all that the reader of the log has seen, so many commits: no answer is older.
pub(crate) fn show_all<F: Follower + Drop>(
    server: &Server<F>,
    clients: &mut [Client<F>],
    reader: &mut LogReader<F>,
    count: u64,
) -> Result<(), JournaledFault>
    requires reader { reader.old.table ≡ server.now }
    requires clients { AreSeated server.now reader.old.seen clients.old }
    requires count { count ≡ length reader.old.seen }
    ensures reader { OnOk result (IsStill reader.old reader.new) }
    ensures same { OnOk result (reader.new.seen ≡ reader.old.seen) }
    ensures clients { OnOk result (AreSeated server.now reader.old.seen clients.new) }
    ensures seen { OnOk result (AllHaveSeen reader.old.seen clients.new) }
    ensures fault { IfErr result (λ fault. fault ≡ Disturbed) }
{
    for place in 0..clients.len() {
        let client = &mut clients[place];
        show_one(server, client, reader, count)?;
    }
    Ok(())
}
