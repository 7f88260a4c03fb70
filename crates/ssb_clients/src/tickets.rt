//! The tokens that a server is opened with, and that it is closed with.
ghost use Rattle.std.specs.Prelude.{◌≡◌, ◌+◌, ◌≤◌, ◌++◌, ◌↔◌, ◌==◌, IsTrue, All, IfOk, IfSome, count_by, length};
ghost use Rattle.std.specs.Prelude.{vec_len, vec_capacity};
ghost use Rattle.history.specs.Tokens.{TokenRecord};
ghost use Rattle.ssb_clients.specs.Tickets.{IsNewClient, IsResting, IsLeft, with_reader};
ghost use Rattle.history.specs.Members.{number_of};
ghost use Rattle.history.specs.Closing.{AreNumbered};

use crate::client::Client;
use crate::log_reader::LogReader;
use history::Token;
use row_store::Follower;
use std::alloc::{AllocError, Global};

/// A client of each token.
pub fn clients_of<K: Follower + Drop>(
    alloc: Global,
    tokens: Vec<Token<K>>,
) -> Result<Vec<Client<K>>, AllocError>
    requires { All IsNewClient tokens.items }
    ensures { IfOk result (λ clients. clients.items ≡ tokens.items) }
{
    let mut clients = Vec::new(alloc);
    for token in tokens {
        clients.push(Client::new(token))?;
    }
    Ok(clients)
}

// How many of the clients have the number.
fn clients_with<K: Follower + Drop>(clients: &[Client<K>], number: u32) -> usize
    ensures { result ≡ count_by (λ (t : TokenRecord). number_of t.who == number) clients.now }
{
    let mut count = 0;
    for client in clients {
        if client.number() == number {
            count += 1;
        }
    }
    count
}

// Whether just one client has the number.
fn has_once<K: Follower + Drop>(clients: &[Client<K>], number: u32) -> bool
    ensures { IsTrue result ↔ (count_by (λ (t : TokenRecord). number_of t.who == number) clients.now ≡ 1) }
{
    clients_with(clients, number) == 1
}

/// Whether these are so many clients, with each number once.
pub fn are_clients_numbered<K: Follower + Drop>(clients: &[Client<K>], count: u32) -> bool
    ensures { IsTrue result ↔ AreNumbered count clients.now }
{
    if clients.len() != count as usize {
        return false;
    }
    for before in 0..count {
        if !has_once(clients, before + 1) {
            return false;
        }
    }
    true
}

/// The tokens of the clients, in room that is there.
pub fn gather_clients<K: Follower + Drop>(tokens: &mut Vec<Token<K>>, clients: Vec<Client<K>>)
    requires { vec_len tokens.old + vec_len clients ≤ vec_capacity tokens.old }
    ensures items { tokens.new.items ≡ tokens.old.items ++ clients.items }
    ensures len { vec_len tokens.new ≡ vec_len tokens.old + vec_len clients }
    ensures capacity { vec_capacity tokens.new ≡ vec_capacity tokens.old }
    ensures rest { All IsResting clients.items }
{
    for client in clients {
        tokens.push_reserved(client.into_token());
    }
}

/// The token of who reads the log, if there is one, in room that is there.
pub fn gather_reader<K: Follower + Drop>(tokens: &mut Vec<Token<K>>, reader: Option<LogReader<K>>)
    requires { length (with_reader tokens.old.items reader) ≤ vec_capacity tokens.old }
    ensures items { tokens.new.items ≡ with_reader tokens.old.items reader }
    ensures left { IfSome reader IsLeft }
{
    if let Some(reader) = reader {
        tokens.push_reserved(reader.into_token());
    }
}
