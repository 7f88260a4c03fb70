//! Where waiting threads sleep, and how they are woken.

use std::alloc::{AllocError, Global};
use std::sync::Wait;
use std::thread::Parker;
use std::time::Duration;

/// The dispatcher that carries commits over to the copies while nobody asks. Each server has one of this number.
pub(crate) const FOLLOWER: u32 = 1;

/// A parker for each client and each dispatcher, by number. A ring before the sleep lets the sleep end at once, so none
/// is lost. At most one thread at a time sleeps at each, since it has the token.
#[derive(Drop)]
pub(crate) struct Bells {
    clients: Vec<Parker>,
    dispatchers: Vec<Parker>,
}

fn parkers(alloc: Global, count: u32) -> Result<Vec<Parker>, AllocError> {
    let mut parkers = Vec::with_capacity(alloc, count as usize)?;
    for _ in 0..count {
        parkers.push(Parker::new())?;
    }
    Ok(parkers)
}

// The parker of the number, which counts from 1.
fn parker_of(parkers: &[Parker], number: u32) -> Option<&Parker> {
    parkers.get(number.checked_sub(1)? as usize)
}

impl Bells {
    pub(crate) fn new(alloc: Global, clients: u32, dispatchers: u32) -> Result<Bells, AllocError> {
        Ok(Bells {
            clients: parkers(alloc, clients)?,
            dispatchers: parkers(alloc, dispatchers)?,
        })
    }

    /// Wakes every dispatcher.
    pub(crate) fn ring_dispatchers(&self) {
        for parker in &self.dispatchers {
            parker.unpark();
        }
    }

    /// Wakes the dispatcher that follows the commits.
    pub(crate) fn ring_follower(&self) {
        if let Some(parker) = parker_of(self.dispatchers.as_slice(), FOLLOWER) {
            parker.unpark();
        }
    }

    /// Wakes the client.
    pub(crate) fn ring_client(&self, number: u32) {
        if let Some(parker) = parker_of(self.clients.as_slice(), number) {
            parker.unpark();
        }
    }

    /// Wakes every client.
    pub(crate) fn ring_clients(&self) {
        for parker in &self.clients {
            parker.unpark();
        }
    }

    /// Sleeps until the client is woken. It may return for no reason.
    pub(crate) fn await_client<R: Wait>(&self, rt: &R, number: u32) {
        if let Some(parker) = parker_of(self.clients.as_slice(), number) {
            parker.park(rt);
        }
    }

    /// Sleeps until the client is woken, or for so long. It may return for no reason.
    pub(crate) fn await_client_for<R: Wait>(&self, rt: &R, number: u32, longest: Duration) {
        if let Some(parker) = parker_of(self.clients.as_slice(), number) {
            parker.park_timeout(rt, longest);
        }
    }

    /// Sleeps until the dispatcher is woken. It may return for no reason.
    pub(crate) fn await_dispatcher<R: Wait>(&self, rt: &R, number: u32) {
        if let Some(parker) = parker_of(self.dispatchers.as_slice(), number) {
            parker.park(rt);
        }
    }

    /// Sleeps until the dispatcher is woken, or for so long. It may return for no reason.
    pub(crate) fn await_dispatcher_for<R: Wait>(&self, rt: &R, number: u32, longest: Duration) {
        if let Some(parker) = parker_of(self.dispatchers.as_slice(), number) {
            parker.park_timeout(rt, longest);
        }
    }
}
