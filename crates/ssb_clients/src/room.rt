//! Room for the tokens that a server is closed with.
ghost use Rattle.std.specs.Prelude.{◌≡◌, ◌≤◌, [], vec_capacity};
ghost use Rattle.history_core.specs.Counts.{most_clients};
ghost use Rattle.ssb_clients.specs.Counts.{most_at_table};

use crate::server::{MOST_AT_TABLE, MOST_CLIENTS};
use history::Token;
use std::alloc::{AllocError, Global};

/// Room for the tokens of all clients, and of all dispatchers and who reads the log, and nothing in it.
#[derive(Drop)]
pub struct ClosingRoom<K> {
    pub clients: Vec<Token<K>>,
    pub dispatchers: Vec<Token<K>>,
    ghost no_clients: { clients.items ≡ [] },
    ghost no_dispatchers: { dispatchers.items ≡ [] },
    ghost client_room: { most_clients ≤ vec_capacity clients },
    ghost dispatcher_room: { most_at_table ≤ vec_capacity dispatchers },
}

impl<K: Drop> ClosingRoom<K> {
    pub(crate) fn new(alloc: Global) -> Result<ClosingRoom<K>, AllocError> {
        Ok(ClosingRoom {
            clients: Vec::with_capacity(alloc, MOST_CLIENTS as usize)?,
            dispatchers: Vec::with_capacity(alloc, MOST_AT_TABLE as usize)?,
        })
    }
}
