//! Many clients at once, each served in a thread of its own.

ghost use Rattle.std.specs.Prelude.{◌≡◌, All, IfOk, IfErr, OnOk, map, vec_len};
ghost use Rattle.history.specs.Tokens.{new_clients, new_dispatchers};
ghost use Rattle.ssb_server.specs.Opening.{AreCounts};
ghost use Rattle.ssb_clients.specs.Tickets.{IsOf, IsQuiet};
ghost use Rattle.ssb_serving.specs.RunFaults.{IsRunFault};
ghost use Rattle.ssb_serving.specs.Members.{AreStill, IsReady};
ghost use Rattle.ssb_serving.specs.Streams.{AreSpoken, IsClosedWith, IsStreamRun};

use crate::clients::{Seat, Spoken};
use crate::run_fault::RunFault;
use crate::threads::{EndedThreads, run_threads};
use crate::watch::{NoWatch, WatchesRun};
use row_store::Log;
use server_figures::Figures;
use ssb_server::{Client, Closed, ColumnsWriter, Dispatcher, Keeps, Loaded, Opened, Server, open};
use std::alloc::{AllocError, Global};
use std::marker::PhantomData;
use std::sync::Wait;
use std::thread::Threads;
use std::time::Clock;
use stream_sessions::{Acknowledges, AtOnce, Evidence, Nothing, Service, Speaks};

/// What the sessions of many clients leave: what each speaker left, in their order, and the log. The figures of the
/// server at its end are for a reader.
#[derive(Drop)]
pub struct StreamRun<L: Drop> {
    pub left: Vec<L>,
    pub log: Log,
    pub figures: Figures,
}

// What the clients leave, each by its place.
#[derive(Drop)]
struct Gathered<W: Wait + Drop, L: Drop> {
    clients: Vec<Client<W>>,
    left: Vec<L>,
}

// Each client with its speaker.
fn seats_of<'a, W: Wait + Drop, S: Drop, K, E>(
    alloc: Global,
    acknowledger: &'a K,
    clients: Vec<Client<W>>,
    speakers: Vec<S>,
) -> Result<Vec<Seat<'a, W, S, K, E>>, AllocError>
    requires { vec_len clients ≡ vec_len speakers }
    ensures clients { IfOk result (λ seats. map (λ seat. seat.client) seats.items ≡ clients.items) }
    ensures speakers { IfOk result (λ seats. map (λ seat. seat.speaker) seats.items ≡ speakers.items) }
{
    let mut seats = Vec::new(alloc);
    let mut speakers = speakers.into_iter();
    for client in clients {
        let Some(speaker) = speakers.next() else {
            unreachable!()
        };
        seats.push(Seat {
            client,
            speaker,
            acknowledger,
            evidence: PhantomData,
        })?;
    }
    Ok(seats)
}

// What the clients leave, in their order.
fn gather_left<W: Wait + Drop, L: Drop>(
    alloc: Global,
    spoken: Vec<Spoken<W, L>>,
) -> Result<Gathered<W, L>, AllocError>
    ensures clients { IfOk result (λ gathered. gathered.clients.items ≡ map (λ one. one.client) spoken.items) }
    ensures left { IfOk result (λ gathered. gathered.left.items ≡ map (λ one. one.left) spoken.items) }
{
    let mut clients = Vec::new(alloc);
    let mut all_left = Vec::new(alloc);
    for one in spoken {
        let Spoken { client, left } = one;
        clients.push(client)?;
        all_left.push(left)?;
    }
    Ok(Gathered {
        clients,
        left: all_left,
    })
}

// Closes the server with all who took part.
fn close_run<W: Wait + Drop, L: Drop>(
    alloc: Global,
    server: Server<W>,
    ended: EndedThreads<W, Spoken<W, L>>,
) -> Result<StreamRun<L>, AllocError>
    requires { IsReady server (map (λ one. one.client) ended.spoken.items) ended.dispatchers.items }
    ensures closed { IfOk result (λ run. IsClosedWith server (map (λ one. one.client) ended.spoken.items)
        ended.dispatchers.items run.log) }
    ensures left { IfOk result (λ run. run.left.items ≡ map (λ one. one.left) ended.spoken.items) }
{
    let EndedThreads {
        spoken,
        dispatchers,
    } = ended;
    let Gathered { clients, left } = gather_left(alloc, spoken)?;
    let figures = server.figures().now();
    let closing = Opened {
        server,
        clients,
        dispatchers,
        reader: None,
    };
    let Ok(Closed { base: _, log }) = closing.close() else {
        unreachable!()
    };
    Ok(StreamRun { left, log, figures })
}

/// Serves the client of each place of a new server by the speaker there, each client and each dispatcher in a thread of
/// its own, and closes the server when all of them have ended. The watch is told when the threads begin and have ended.
pub fn run_opened<W, R, S, V>(
    rt: &R,
    alloc: Global,
    opened: Opened<W>,
    speakers: Vec<S>,
    watch: &mut V,
) -> Result<StreamRun<S::Left>, AllocError>
where
    W: Wait + Drop + Send,
    R: Wait + Threads + Sync + Clock,
    S: Speaks<R, Nothing> + Drop + Send,
    S::Left: Drop + Send,
    V: WatchesRun,
    requires clients { opened.clients.items ≡ new_clients opened.server }
    requires dispatchers { opened.dispatchers.items ≡ new_dispatchers opened.server }
    requires speakers { opened.server.clients ≡ vec_len speakers }
    ensures { IfOk result (λ run. IsStreamRun S.spoken opened.server.base speakers.items opened.server.dispatchers
        run.left.items run.log) }
{
    let Opened {
        server,
        clients,
        dispatchers,
        reader: _,
    } = opened;
    let at_once = AtOnce;
    let seats: Vec<Seat<'_, W, S, AtOnce, Nothing>> = seats_of(alloc, &at_once, clients, speakers)?;
    watch.begin();
    let ended = run_threads(rt, alloc, &server, seats, dispatchers)?;
    watch.end();
    close_run(alloc, server, ended)
}

/// Serves quiet clients of a server that is open already, one for each speaker, each client and each dispatcher in a
/// thread of its own, and waits until all of them have ended. Replies leave once there is the acknowledger's evidence.
pub fn serve_opened<W, R, E, K, S>(
    service: &Service<'_, ColumnsWriter<W>, R, K>,
    clients: Vec<Client<W>>,
    dispatchers: Vec<Dispatcher<W>>,
    speakers: Vec<S>,
) -> Result<EndedThreads<W, Spoken<W, S::Left>>, AllocError>
where
    W: Wait + Drop + Send,
    R: Wait + Threads + Sync + Clock,
    E: Evidence + Send,
    K: Acknowledges<E> + Sync,
    K::Failure: Send,
    S: Speaks<R, E> + Drop + Send,
    S::Left: Drop + Send,
    requires clients { All (IsQuiet service.now.server.now) clients.items }
    requires dispatchers { All (IsOf service.now.server.now) dispatchers.items }
    requires speakers { vec_len clients ≡ vec_len speakers }
    ensures served { IfOk result (λ ended. AreSpoken S.spoken speakers.items clients.items
        (map (λ one. one.client) ended.spoken.items) (map (λ one. one.left) ended.spoken.items)) }
    ensures dispatchers { IfOk result (λ ended. AreStill dispatchers.items ended.dispatchers.items) }
{
    let seats: Vec<Seat<'_, W, S, K, E>> = seats_of(
        service.alloc,
        service.acknowledger,
        clients,
        speakers,
    )?;
    let ended = run_threads(
        service.rt,
        service.alloc,
        service.server,
        seats,
        dispatchers,
    )?;
    Ok(ended)
}

/// Serves 1 to 16 clients, one for each speaker, by 1 to 4 dispatchers over a loaded base, each client and each
/// dispatcher in a thread of its own. It waits until all of them have ended.
///
/// The dispatchers' threads start first, then the clients' in the order of the speakers, and where one can't be
/// started, no later one is. That, and a refused growth wherever it is met, is `OutOfMemory`; each thread that was
/// started has ended then, too.
pub fn serve_streams<R: Wait + Threads + Sync + Clock, S: Speaks<R, Nothing> + Drop + Send>(
    rt: &R,
    alloc: Global,
    loaded: Loaded,
    speakers: Vec<S>,
    dispatchers: u32,
) -> Result<StreamRun<S::Left>, RunFault>
where
    S::Left: Drop + Send,
    ensures counts { OnOk result (AreCounts (vec_len speakers) dispatchers) }
    ensures served { IfOk result (λ run. IsStreamRun S.spoken loaded speakers.items dispatchers run.left.items
        run.log) }
    ensures fault { IfErr result (λ fault. IsRunFault (vec_len speakers) dispatchers fault) }
{
    let count = u32::try_from(speakers.len()).unwrap_or(u32::MAX);
    match open(alloc, rt, loaded, count, dispatchers, Keeps::Recent) {
        Ok(opened) => Ok(run_opened(rt, alloc, opened, speakers, &mut NoWatch)?),
        Err(fault) => Err(RunFault::from(fault)),
    }
}
