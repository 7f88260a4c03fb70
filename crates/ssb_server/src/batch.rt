//! The requests that a dispatcher has in hand.
ghost use Rattle.std.specs.Prelude.{◌≡◌, ◌+◌, ◌<◌, ◌≤◌, [], ◌∷◌, ◌++◌, length, IfOk, MatchOption, nat_eq};
ghost use Rattle.history_core.specs.Counts.{most_clients};

use ssb_clients::MOST_CLIENTS;
use ssb_questions::Question;
use ssb_schema::Items;
use std::alloc::{AllocError, Global};
use std::marker::Model;

/// Clients with what they ask, in room for one request of each client. Contracts see the two lists.
#[derive(Drop)]
pub struct Batch {
    clients: Vec<u32>,
    requests: Vec<Items<Question>>,
}

impl Model for Batch {
    ghost use Rattle.std.specs.Prelude.{◌≡◌, ◌≤◌, vec_len, vec_capacity};
    ghost use Rattle.history_core.specs.Counts.{most_clients};
    ghost use Rattle.ssb_server.specs.Hand.{Hand};

    ghost Value = { Hand };

    ghost view = { λ b. record { clients = b.clients.items; requests = b.requests.items } };

    ghost invariant = { λ b. (vec_len b.clients ≡ vec_len b.requests) × (most_clients ≤ vec_capacity b.clients)
        × (most_clients ≤ vec_capacity b.requests) };
}

impl Batch {
    ghost use Rattle.ssb_server.specs.Hand.{no_hand};

    /// No requests, and room for those of all clients.
    pub fn new(alloc: Global) -> Result<Batch, AllocError>
        ensures { IfOk result (λ batch. batch ≡ record { clients = []; requests = [] }) }
    {
        let clients = Vec::with_capacity(alloc, MOST_CLIENTS as usize)?;
        let requests = Vec::with_capacity(alloc, MOST_CLIENTS as usize)?;
        Ok(Batch { clients, requests })
    }

    /// How many requests there are.
    pub fn len(&self) -> usize
        ensures clients { result ≡ length self.now.clients }
        ensures requests { result ≡ length self.now.requests }
    {
        let _ = &self.requests;
        self.clients.len()
    }

    /// What they ask, in the order of `push`.
    pub fn requests(&self) -> &[Items<Question>]
        ensures { result.now ≡ self.now.requests }
    {
        self.requests.as_slice()
    }

    /// One request more.
    pub fn push(&mut self, client: u32, questions: Items<Question>)
        requires { length self.old.clients < most_clients }
        ensures { self.new ≡ record {
          clients = self.old.clients ++ client ∷ [];
          requests = self.old.requests
              ++ questions ∷ [];
        } }
    {
        self.clients.push_reserved(client);
        self.requests.push_reserved(questions);
    }

    /// The request that came last, which leaves.
    pub fn pop(&mut self) -> Option<(u32, Items<Question>)>
        ensures { MatchOption result ((self.old ≡ no_hand) × (self.new ≡ no_hand))
            (λ last. self.old ≡ record {
              clients = self.new.clients ++ last.0 ∷ [];
              requests = self.new.requests
                  ++ last.1 ∷ [];
            }) }
    {
        let client = self.clients.pop()?;
        let questions = self.requests.pop()?;
        Some((client, questions))
    }
}
