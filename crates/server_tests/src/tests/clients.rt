//! What a client does, and what it is told. A server and its clients are here over any writer that follows the commits,
//! since the prover compares types, and that of the columns' writer takes it long.
ghost use Rattle.std.specs.Prelude.{All, IfOk, IfSome};
ghost use Rattle.ssb_clients.specs.Tickets.{IsOf, IsQuiet};

use crate::tests::trial::TrialDeed;
use history_core::Response;
use row_store::{Follower, Receipt, RefreshError};
use ssb_answers::Answer;
use ssb_clients::{Client, LogReader, Server};
use ssb_report::{write_answers, write_reply};
use ssb_schema::Refresh;
use ssb_text::WriteFault;
use std::alloc::{AllocError, Global};
use std::sync::{Arc, Wait};
use std::test::Fail;
use test_fixtures::{adding, asking, refresh};

/// The last client, which leaves.
pub fn next_client<K: Follower + Drop>(
    server: &Server<K>,
    clients: &mut Vec<Client<K>>,
) -> Option<Client<K>>
    requires { All (IsQuiet server.now) clients.old.items }
    ensures left { All (IsQuiet server.now) clients.new.items }
    ensures next { IfSome result (IsQuiet server.now) }
{
    let _ = server;
    clients.pop()
}

/// Lets go of a server, of its clients and of who reads its log.
pub fn let_parts_go<K: Follower + Drop>(
    _server: Server<K>,
    _clients: Vec<Client<K>>,
    _reader: Option<LogReader<K>>,
) {}

/// These clients, and one more.
pub fn with_client<K: Follower + Drop>(
    server: &Server<K>,
    mut clients: Vec<Client<K>>,
    client: Client<K>,
) -> Result<Vec<Client<K>>, AllocError>
    requires clients { All (IsQuiet server.now) clients.items }
    requires client { IsQuiet server.now client }
    ensures { IfOk result (λ all. All (IsQuiet server.now) all.items) }
{
    let _ = server;
    clients.reserve(1)?;
    clients.push_reserved(client);
    Ok(clients)
}

// Room for what is told, so that its growth is never the one that is refused.
fn room(alloc: Global) -> Result<Vec<u8>, AllocError> {
    let mut told = Vec::new(alloc);
    told.reserve(400)?;
    Ok(told)
}

// What was written, without the end of its last line. There is room for all of it, and it is UTF-8.
fn text(
    alloc: Global,
    written: Result<(), WriteFault>,
    told: Vec<u8>,
) -> Result<String, AllocError> {
    written.map_err(|_| AllocError)?;
    let told = str::from_utf8(told.as_slice()).map_err(|_| AllocError)?;
    String::from_str(alloc, told.trim_end())
}

// A client's refresh.
fn refreshed<R: Wait, K: Follower + Drop>(
    rt: &R,
    server: &Server<K>,
    client: &mut Client<K>,
    refresh: Arc<Refresh>,
) -> Result<Receipt, RefreshError>
    requires { IsOf server.now client.old }
    ensures { IsOf server.now client.new }
{
    let _ = client.number();
    client.refresh(rt, server, refresh)
}

/// The refresh of a client that asks nothing.
pub fn refreshes_quiet<R: Wait, K: Follower + Drop>(
    rt: &R,
    server: &Server<K>,
    client: &mut Client<K>,
    refresh: Arc<Refresh>,
) -> Result<Receipt, RefreshError>
    requires { IsQuiet server.now client.old }
    ensures { IsQuiet server.now client.new }
{
    let _ = client.number();
    client.refresh(rt, server, refresh)
}

/// A client that asks nothing adds the order of this key.
pub fn adds_quiet<R: Wait, K: Follower + Drop>(
    rt: &R,
    alloc: Global,
    server: &Server<K>,
    client: &mut Client<K>,
    key: u64,
) -> Result<(), Fail>
    requires { IsQuiet server.now client.old }
    ensures { IsQuiet server.now client.new }
{
    let refresh = adding(alloc, key)?;
    match refreshes_quiet(rt, server, client, refresh) {
        Ok(_) => Ok(()),
        Err(error) => Err(error)?,
    }
}

// A refresh that withdraws the order of this key.
fn withdrawing(alloc: Global, key: u64) -> Result<Arc<Refresh>, AllocError> {
    let actions = format!(in alloc; "withdraw|{key}\n")?;
    refresh(alloc, actions.as_str()).map_err(|_| AllocError)
}

// A refresh that adds the order of this key.
fn adding_one(alloc: Global, key: u64) -> Result<Arc<Refresh>, AllocError> {
    adding(alloc, key).map_err(|_| AllocError)
}

// A client refreshes, and what it is told.
fn refreshes<R: Wait, K: Follower + Drop>(
    rt: &R,
    alloc: Global,
    server: &Server<K>,
    client: &mut Client<K>,
    refresh: Arc<Refresh>,
) -> Result<String, AllocError>
    requires { IsOf server.now client.old }
    ensures { IsOf server.now client.new }
{
    let mut told = room(alloc)?;
    let written = write_reply(&mut told, &refreshed(rt, server, client, refresh));
    text(alloc, written, told)
}

// A client asks, where it is not asking.
#[tactic(auto, using(crate::proofs::PlaceLaws::asks_stays))]
fn asks<K: Follower + Drop>(
    alloc: Global,
    server: &Server<K>,
    client: &mut Client<K>,
    queries: &str,
) -> Result<String, AllocError>
    requires { IsOf server.now client.old }
    ensures { IsOf server.now client.new }
{
    if client.is_asking() {
        return String::from_str(alloc, "asking");
    }
    let questions = asking(alloc, queries).map_err(|_| AllocError)?;
    client.ask(server, questions);
    String::from_str(alloc, "asked")
}

// The answer to each question of a request, in order.
fn answers_of(alloc: Global, response: Response) -> Result<Vec<Answer>, AllocError> {
    let count = match &response {
        Response::Rows { questions, .. } => questions.len(),
        Response::Unserved { questions, .. } => questions.len(),
    };
    let mut answers = Vec::with_capacity(alloc, count)?;
    response.put_answers(&mut answers);
    Ok(answers)
}

// A client polls, and what it is told.
#[tactic(auto, using(crate::proofs::PlaceLaws::polls_stays))]
fn polls<K: Follower + Drop>(
    alloc: Global,
    server: &Server<K>,
    client: &mut Client<K>,
) -> Result<String, AllocError>
    requires { IsOf server.now client.old }
    ensures { IsOf server.now client.new }
{
    let Some(response) = client.poll(server) else {
        return String::from_str(alloc, "no answer");
    };
    let answers = answers_of(alloc, response)?;
    let mut told = room(alloc)?;
    let written = write_answers(&mut told, answers.as_slice());
    text(alloc, written, told)
}

/// A client meets another one, and how many commits it then sees.
#[tactic(auto, using(crate::proofs::PlaceLaws::looks_stays))]
pub fn meets<K: Follower + Drop>(
    alloc: Global,
    server: &Server<K>,
    client: &mut Client<K>,
    other: &mut Client<K>,
) -> Result<String, AllocError>
    requires client { IsOf server.now client.old }
    requires other { IsOf server.now other.old }
    ensures client { IsOf server.now client.new }
    ensures other { IsOf server.now other.new }
{
    let seen = client.meet(server, other);
    format!(in alloc; "sees {seen}")
}

/// A client meets another one, and both ask nothing: how many commits it then sees.
#[tactic(auto, using(ssb_clients::proofs::StayingLaws::looks_stays))]
pub fn meets_quiet<K: Follower + Drop>(
    server: &Server<K>,
    client: &mut Client<K>,
    other: &mut Client<K>,
) -> u64
    requires client { IsQuiet server.now client.old }
    requires other { IsQuiet server.now other.old }
    ensures client { IsQuiet server.now client.new }
    ensures other { IsQuiet server.now other.new }
{
    client.meet(server, other)
}

/// What a client does, and what it is told.
pub fn does<R: Wait, K: Follower + Drop>(
    rt: &R,
    alloc: Global,
    server: &Server<K>,
    client: &mut Client<K>,
    deed: TrialDeed,
) -> Result<String, AllocError>
    requires { IsOf server.now client.old }
    ensures { IsOf server.now client.new }
{
    match deed {
        TrialDeed::Adds(key) => refreshes(rt, alloc, server, client, adding_one(alloc, key)?),
        TrialDeed::Withdraws(key) => refreshes(rt, alloc, server, client, withdrawing(alloc, key)?),
        TrialDeed::Asks(queries) => asks(alloc, server, client, queries),
        TrialDeed::Polls => polls(alloc, server, client),
    }
}
