//! The end of a turn: each request in hand is answered.
ghost use Rattle.std.specs.Prelude.{◌≡◌, length, Some};
ghost use Rattle.history_core.specs.declared.dispatcher.Outcome.TheVariants.{Served, GivenUp};
ghost use Rattle.history_core.specs.Events.{Questions};
ghost use Rattle.history.specs.Tokens.{MayAnswer};
ghost use Rattle.history.specs.Words.{IsCause, outcome_of};
ghost use Rattle.ssb_server.specs.Hand.{Keeps, no_hand};
ghost use Rattle.ssb_clients.specs.Fetching.{IsDispatcher};
ghost use Rattle.ssb_server.specs.Turns.{answers_after, HoldsNothing, HasInHand, GaveOne, Gave};

use crate::batch::Batch;
use crate::passes::RequestRows;
use history::Token;
use history_core::Response;
use row_store::Follower;
use ssb_answers::Unserved;
use ssb_clients::Server;

// Gives this answer to the request that was grabbed last.
fn give_one<K: Follower + Drop>(
    server: &Server<K>,
    token: &mut Token<K>,
    client: u32,
    answer: Response,
)
    requires dispatcher { IsDispatcher server.now token.old }
    requires free { HoldsNothing token.old }
    requires hand { (questions : Questions) × HasInHand token.old.grabbed client questions }
    requires request { MayAnswer token.old client answer }
    ensures { GaveOne token.old (outcome_of answer) token.new }
{
    server.table().answer(token, client, answer);
    server.ring_client(client);
}

/// Answers every request in hand by its rows. It tells how many there were.
pub(crate) fn give_rows<K: Follower + Drop>(
    server: &Server<K>,
    token: &mut Token<K>,
    batch: &mut Batch,
    at: u64,
    mut rows: Vec<RequestRows>,
) -> usize
    requires dispatcher { IsDispatcher server.now token.old }
    requires free { HoldsNothing token.old }
    requires hand { Keeps batch.old token.old.grabbed }
    requires at { (at ≡ length token.old.seen) × (token.old.version ≡ Some at) }
    requires rows { rows.items ≡ answers_after token.old.table.base token.old.seen batch.old.requests }
    ensures gave { Gave token.old result (Served at) token.new }
    ensures count { result ≡ length batch.old.clients }
    ensures empty { batch.new ≡ no_hand }
    ensures hand { Keeps no_hand token.new.grabbed }
{
    let count = batch.len();
    while let Some((client, _)) = batch.pop() {
        let Some(found) = rows.pop() else {
            unreachable!()
        };
        let answer = Response::Rows {
            questions: found.questions,
            at,
            rows: found.rows,
        };
        give_one(server, token, client, answer);
    }
    count
}

/// Gives up every request in hand, with the cause. It tells how many there were.
pub(crate) fn give_up_all<K: Follower + Drop>(
    server: &Server<K>,
    token: &mut Token<K>,
    batch: &mut Batch,
    cause: Unserved,
) -> usize
    requires dispatcher { IsDispatcher server.now token.old }
    requires free { HoldsNothing token.old }
    requires hand { Keeps batch.old token.old.grabbed }
    requires cause { IsCause cause }
    ensures gave { Gave token.old result (GivenUp cause) token.new }
    ensures count { result ≡ length batch.old.clients }
    ensures empty { batch.new ≡ no_hand }
    ensures hand { Keeps no_hand token.new.grabbed }
{
    let count = batch.len();
    while let Some((client, questions)) = batch.pop() {
        let answer = Response::Unserved { questions, cause };
        give_one(server, token, client, answer);
    }
    count
}
