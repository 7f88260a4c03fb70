//! What the machine keeps of each client.
ghost use Rattle.std.specs.Prelude.{◌≤◌, IfOk};
ghost use Rattle.history_core.specs.Counts.{most_clients};
ghost use Rattle.history_core.specs.Fresh.{OpeningClients};

use crate::mailbox::Mailbox;
use std::alloc::{AllocError, Global};

/// A client by its number, how many commits it has seen, and its mailbox.
#[derive(Drop)]
pub struct WorldClient {
    pub number: u32,
    pub seen: usize,
    pub mailbox: Mailbox,
}

/// So many clients, numbered from 1, which have seen nothing and have asked nothing.
pub fn opening_clients(alloc: Global, count: u32) -> Result<Vec<WorldClient>, AllocError>
    requires { count ≤ most_clients }
    ensures { IfOk result (λ list. OpeningClients count list.items) }
{
    let mut list = Vec::new(alloc);
    for place in 0..count {
        list.push(WorldClient {
            number: place + 1,
            seen: 0,
            mailbox: Mailbox::Empty,
        })?;
    }
    Ok(list)
}
