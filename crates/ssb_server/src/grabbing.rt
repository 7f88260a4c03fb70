//! The start of a turn: what the clients have asked.
ghost use Rattle.std.specs.Prelude.{◌≡◌, ◌≤◌, [], length};
ghost use Rattle.history_core.specs.Counts.{most_clients};
ghost use Rattle.ssb_clients.specs.Fetching.{IsDispatcher};
ghost use Rattle.ssb_server.specs.Turns.{HoldsNothing, HasGrabbed};

use crate::batch::Batch;
use history::Token;
use row_store::Follower;
use ssb_clients::Server;

/// One try at each client's mailbox, in the order of clients.
pub(crate) fn grab_all<K: Follower + Drop>(
    server: &Server<K>,
    token: &mut Token<K>,
    batch: &mut Batch,
)
    requires dispatcher { IsDispatcher server.now token.old }
    requires free { HoldsNothing token.old × (token.old.grabbed ≡ []) }
    requires empty { batch.old ≡ record { clients = []; requests = [] } }
    ensures grabbed { HasGrabbed token.old batch.new token.new }
    ensures few { length batch.new.clients ≤ most_clients }
{
    let table = server.table();
    for before in 0..server.clients() {
        let client = before + 1;
        if let Some(questions) = table.grab(token, client) {
            batch.push(client, questions);
        }
    }
}
