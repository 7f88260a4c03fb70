//! A turn, over the parts of a dispatcher. The copies are of whatever answers a batch, as in `snapshot` of any replica.
ghost use Rattle.std.specs.Prelude.{◌≡◌, ◌<◌, [], length, Some, IfOk};
ghost use Rattle.twin_cell.specs.Twin.{Reading};
ghost use Rattle.ssb_server.specs.Hand.{Keeps, no_hand};
ghost use Rattle.ssb_clients.specs.Fetching.{IsDispatcher};
ghost use Rattle.ssb_server.specs.Turns.{answers_after, HoldsNothing, Knows, HasFetched};
ghost use Rattle.ssb_server.specs.Ends.{Finishes, Ends, Turned, TellsFound};

use crate::answers::{give_rows, give_up_all};
use crate::batch::Batch;
use crate::grabbing::grab_all;
use crate::passes::{AnswersBatch, RequestRows};
use crate::snapshot::snapshot;
use history::Token;
use row_store::Follower;
use ssb_answers::Unserved;
use ssb_clients::Server;
use std::alloc::AllocError;
use std::sync::Wait;
use std::thread::Threads;
use twin_cell::{TwinReader, TwinWriter};

/// What a turn of a dispatcher did.
#[derive(Clone, Copy, Debug, PartialEq, Eq)]
pub enum Turn {
    /// Nothing was asked.
    Idle,
    /// So many requests were answered by their rows after `at` commits.
    Answered { at: u64, count: usize },
    /// So many requests were given up.
    Unserved { count: usize, cause: Unserved },
}

/// What a dispatcher calls with the mark of its batch while both parts are home and it holds a copy.
pub trait ScanGate {
    fn scanning(&self, at: u64);
}

/// The gate that does nothing.
pub struct OpenGate;

impl ScanGate for OpenGate {
    fn scanning(&self, at: u64) {
        let _ = at;
    }
}

// Answers every request in hand by the rows that were found, or gives it up.
fn finish<K: Follower + Drop>(
    server: &Server<K>,
    token: &mut Token<K>,
    batch: &mut Batch,
    at: u64,
    scanned: Result<Vec<RequestRows>, AllocError>,
) -> Turn
    requires dispatcher { IsDispatcher server.now token.old }
    requires free { HoldsNothing token.old }
    requires hand { Keeps batch.old token.old.grabbed }
    requires some { 0 < length batch.old.clients }
    requires at { (at ≡ length token.old.seen) × (token.old.version ≡ Some at) }
    requires rows { IfOk scanned (λ rows. rows.items ≡ answers_after token.old.table.base token.old.seen
        batch.old.requests) }
    ensures finished { Finishes token.old result token.new }
    ensures found { (reader : Reading) → TellsFound reader result }
    ensures empty { batch.new ≡ no_hand }
    ensures hand { Keeps no_hand token.new.grabbed }
{
    match scanned {
        Ok(rows) => {
            let count = give_rows(server, token, batch, at, rows);
            Turn::Answered { at, count }
        }
        Err(_) => {
            let cause = Unserved::OutOfMemory;
            let count = give_up_all(server, token, batch, cause);
            Turn::Unserved { count, cause }
        }
    }
}

// Answers the requests in hand, or gives them up.
fn answer_hand<C, W, R, G>(
    rt: &R,
    server: &Server<TwinWriter<C, W>>,
    gate: &G,
    token: &mut Token<TwinWriter<C, W>>,
    batch: &mut Batch,
    reader: TwinReader<C>,
) -> (TwinReader<C>, Turn)
where
    C: AnswersBatch + Drop,
    W: Wait + Drop,
    R: Wait + Threads + Sync,
    G: ScanGate,
    requires dispatcher { IsDispatcher server.now token.old }
    requires free { HoldsNothing token.old }
    requires hand { Keeps batch.old token.old.grabbed }
    requires some { 0 < length batch.old.clients }
    requires reader { Knows token.old.table.base token.old.seen reader }
    ensures ended { Ends token.old result.1 token.new }
    ensures found { TellsFound result.0 result.1 }
    ensures reader { Knows token.new.table.base token.new.seen result.0 }
    ensures empty { batch.new ≡ no_hand }
    ensures hand { Keeps no_hand token.new.grabbed }
{
    match snapshot(rt, server, token, reader) {
        Ok(guard) => {
            let at = token.seen_len();
            gate.scanning(at);
            let copy = guard.replica();
            let scanned = copy.answer_batch(rt, server.alloc(), server.figures(), batch.requests());
            let reader = guard.leave();
            let turn = finish(server, token, batch, at, scanned);
            (reader, turn)
        }
        Err(missed) => {
            let (reader, cause) = missed;
            let count = give_up_all(server, token, batch, cause);
            (reader, Turn::Unserved { count, cause })
        }
    }
}

/// A turn: what is asked is grabbed and answered.
pub(crate) fn take_turn<C, W, R, G>(
    rt: &R,
    server: &Server<TwinWriter<C, W>>,
    gate: &G,
    token: &mut Token<TwinWriter<C, W>>,
    batch: &mut Batch,
    reader: TwinReader<C>,
) -> (TwinReader<C>, Turn)
where
    C: AnswersBatch + Drop,
    W: Wait + Drop,
    R: Wait + Threads + Sync,
    G: ScanGate,
    requires dispatcher { IsDispatcher server.now token.old }
    requires free { HoldsNothing token.old }
    requires hand { token.old.grabbed ≡ [] }
    requires empty { batch.old ≡ no_hand }
    requires reader { Knows token.old.table.base token.old.seen reader }
    ensures turned { Turned token.old result.1 token.new }
    ensures found { TellsFound result.0 result.1 }
    ensures reader { Knows token.new.table.base token.new.seen result.0 }
    ensures empty { batch.new ≡ no_hand }
{
    grab_all(server, token, batch);
    if batch.len() == 0 {
        return (reader, Turn::Idle);
    }
    let answered = answer_hand(rt, server, gate, token, batch, reader);
    server.batch_has_ended();
    answered
}
