//! The dispatchers of a run, each at work in a thread of its own.
ghost use Rattle.std.specs.Prelude.{◌≡◌, All, IfOk, OnOk};
ghost use Rattle.ssb_serving.specs.Members.{AreStill};
ghost use Rattle.ssb_clients.specs.Tickets.{IsOf};

use crate::dispatchers::{Dispatching, join_dispatchers, start_dispatchers};
use ssb_server::{Dispatcher, Server};
use std::alloc::{AllocError, Global};
use std::marker::Model;
use std::sync::Wait;
use std::sync::atomic::{AtomicBool, Ordering};
use std::thread::{Scope, Threads};
use std::time::Clock;

/// Dispatchers that are to work, which are what contracts see, with room for their threads and for what these leave. The
/// room is made before the first thread starts: a started thread can then be joined without memory.
#[derive(Drop)]
pub(crate) struct Staff<W: Wait + Drop> {
    dispatchers: Vec<Dispatcher<W>>,
    dispatching: Vec<Dispatching<W>>,
    ended: Vec<Dispatcher<W>>,
}

impl<W: Wait + Drop> Model for Staff<W> {
    ghost use Rattle.std.specs.Prelude.{◌≡◌, ◌≤◌, List, [], vec_len, vec_capacity};
    ghost use Rattle.history.specs.Tokens.{TokenRecord};

    ghost Value = { List TokenRecord };

    ghost view = { λ staff. staff.dispatchers.items };

    ghost invariant = { λ staff. (staff.dispatching.items ≡ []) × (staff.ended.items ≡ [])
        × (vec_len staff.dispatchers ≤ vec_capacity staff.dispatching)
        × (vec_len staff.dispatchers ≤ vec_capacity staff.ended) };
}

/// Dispatchers at work. Contracts see each as it was when it began.
#[derive(Drop)]
pub(crate) struct StaffAtWork<W: Wait + Drop> {
    dispatching: Vec<Dispatching<W>>,
    ended: Vec<Dispatcher<W>>,
}

impl<W: Wait + Drop> Model for StaffAtWork<W> {
    ghost use Rattle.std.specs.Prelude.{◌≡◌, ◌≤◌, List, [], map, vec_len, vec_capacity};
    ghost use Rattle.history.specs.Tokens.{TokenRecord};

    ghost Value = { List TokenRecord };

    ghost view = { λ staff. map (λ h. h.promise.dispatcher.value) staff.dispatching.items };

    ghost invariant = { λ staff. (staff.ended.items ≡ [])
        × (vec_len staff.dispatching ≤ vec_capacity staff.ended) };
}

impl<W: Wait + Drop> Staff<W> {
    pub(crate) fn new(
        alloc: Global,
        dispatchers: Vec<Dispatcher<W>>,
    ) -> Result<Staff<W>, AllocError>
        ensures { IfOk result (λ staff. staff ≡ dispatchers.items) }
    {
        let dispatching = Vec::with_capacity(alloc, dispatchers.len())?;
        let ended = Vec::with_capacity(alloc, dispatchers.len())?;
        Ok(Staff {
            dispatchers,
            dispatching,
            ended,
        })
    }

    /// Starts a thread for each dispatcher, in order. Where a thread can't be started, no later one is.
    pub(crate) fn start<'s, E, R: Wait + Threads + Sync + Clock>(
        self,
        scope: &Scope<'s, E>,
        rt: &'s R,
        server: &'s Server<W>,
        stop: &'s AtomicBool,
    ) -> (StaffAtWork<W>, Result<(), AllocError>)
    where
        W: Send,
        requires { All (IsOf server.now) self }
        ensures { OnOk result.1 (result.0 ≡ self) }
    {
        let Staff {
            dispatchers,
            mut dispatching,
            ended,
        } = self;
        let all = start_dispatchers(scope, rt, server, stop, dispatchers, &mut dispatching);
        (StaffAtWork { dispatching, ended }, all)
    }
}

impl<W: Wait + Drop> StaffAtWork<W> {
    /// Tells the dispatchers to stop, and waits until all of them have ended.
    pub(crate) fn end<R: Threads>(
        self,
        rt: &R,
        server: &Server<W>,
        stop: &AtomicBool,
    ) -> Vec<Dispatcher<W>>
        ensures { AreStill self result.items }
    {
        let StaffAtWork {
            dispatching,
            mut ended,
        } = self;
        stop.store(true, Ordering::SeqCst);
        server.ring();
        join_dispatchers(rt, dispatching, &mut ended);
        ended
    }
}
