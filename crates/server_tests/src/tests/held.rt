//! A scan that is held while others go on.
ghost use Rattle.std.specs.Prelude.{All};
ghost use Rattle.std.specs.Thread.{IsSync};
ghost use Rattle.ssb_clients.specs.Tickets.{IsOf, IsQuiet};

use crate::tests::LOADED;
use crate::tests::opening::{next_dispatcher, opened};
use crate::tests::parties::{Plays, PlaysTurns};
use crate::tests::trial::TrialDeed::{Adds, Asks, Polls};
use crate::tests::trial::TrialStep::{First, Second, Third};
use crate::tests::trial::{Trial, TrialStep};
use ssb_server::{EndsCopies, Opened, ScanGate, Server, Turn};
use std::alloc::Global;
use std::sync::Wait;
use std::sync::atomic::{AtomicBool, Ordering};
use std::test::Fail;
use std::thread::{self, Threads, join};

// How often a thread looks at a flag before it gives up: some seconds at least.
const MOST_LOOKS: u32 = 20_000_000;

// Whether the flag was set before the looks ran out.
fn is_set(flag: &AtomicBool) -> bool {
    for _ in 0..MOST_LOOKS {
        if flag.load(Ordering::SeqCst) {
            return true;
        }
        thread::yield_now();
    }
    false
}

// A gate that holds a scan from its beginning until it is let go.
#[derive(Drop)]
struct HeldGate {
    begun: AtomicBool,
    released: AtomicBool,
    ended: AtomicBool,
}

impl HeldGate {
    fn new() -> HeldGate {
        HeldGate {
            begun: AtomicBool::new(false),
            released: AtomicBool::new(false),
            ended: AtomicBool::new(false),
        }
    }
}

impl ScanGate for HeldGate {
    fn scanning(&self, at: u64) {
        let _ = at;
        self.begun.store(true, Ordering::SeqCst);
        let _ = is_set(&self.released);
        self.ended.store(true, Ordering::SeqCst);
    }
}

// One turn through the gate.
fn held_turn<W: EndsCopies + Drop, D: PlaysTurns<W> + Drop, R: Wait + Threads + Sync>(
    rt: &R,
    server: &Server<W>,
    mut dispatcher: D,
    gate: &HeldGate,
) -> Turn
    requires { IsOf server.now (D.token dispatcher) }
{
    let turn = dispatcher.take_turn(rt, server, gate);
    // Nobody waits for a scan that never began.
    gate.begun.store(true, Ordering::SeqCst);
    turn
}

// While the gate holds a scan, a client asks, another dispatcher takes a turn, and then another client refreshes.
// Whether the scan was held from before the question until after the refresh.
fn go_on<T: Plays, R: Wait + Threads + Sync>(
    rt: &R,
    alloc: Global,
    trial: &mut T,
    gate: &HeldGate,
) -> Result<bool, Fail> {
    let begun = is_set(&gate.begun);
    let played = trial.play(
        rt,
        alloc,
        &[
            (Second(Asks("Q4.1")), "asked"),
            (TrialStep::Turn, "answered 1 at 0"),
            (Third(Adds(9)), "committed 1"),
        ],
    );
    let held = begun && !gate.ended.load(Ordering::SeqCst);
    gate.released.store(true, Ordering::SeqCst);
    played?;
    Ok(held)
}

// A turn through a gate that holds its scan, and the others who go on meanwhile.
fn hold_and_go_on<
    W: EndsCopies + Drop + Send,
    D: PlaysTurns<W> + Drop + Send,
    T: Plays,
    R: Wait + Threads + Sync,
>(
    rt: &R,
    alloc: Global,
    server: &Server<W>,
    dispatcher: D,
    trial: &mut T,
) -> (Turn, Result<bool, Fail>)
    requires { IsOf server.now (D.token dispatcher) }
{
    let gate = HeldGate::new();
    let held = &gate;
    join(
        rt,
        || -> Turn
            requires { IsSync R.row × IsOf server.now (D.token dispatcher) }
        { held_turn(rt, server, dispatcher, held) },
        || -> Result<bool, Fail>
            requires { IsSync R.row }
        { go_on(rt, alloc, trial, held) },
    )
}

// A client asks and its scan is held while the others go on; then both who asked poll. What the held turn did, and
// whether it was held all the while.
fn asks_and_is_held<
    W: EndsCopies + Drop + Send,
    D: PlaysTurns<W> + Drop + Send,
    T: Plays,
    R: Wait + Threads + Sync,
>(
    rt: &R,
    alloc: Global,
    server: &Server<W>,
    dispatcher: D,
    trial: &mut T,
) -> Result<(Turn, bool), Fail>
    requires { IsOf server.now (D.token dispatcher) }
{
    trial.play(rt, alloc, &[(First(Asks("Q1.1")), "asked")])?;
    let (turn, held) = hold_and_go_on(rt, alloc, server, dispatcher, trial);
    let held = held?;
    trial.play(
        rt,
        alloc,
        &[
            (First(Polls), "Q1.1 at 0 rows 1\n3000"),
            (Second(Polls), LOADED),
        ],
    )?;
    Ok((turn, held))
}

// The same over a server that was opened for three clients and two dispatchers.
fn held_over<W: Wait + Drop + Send, R: Wait + Threads + Sync>(
    rt: &R,
    alloc: Global,
    made: Opened<W>,
) -> Result<(Turn, bool), Fail>
    requires clients { All (IsQuiet made.server) made.clients.items }
    requires dispatchers { All (IsOf made.server) made.dispatchers.items }
{
    let Opened {
        server,
        mut clients,
        mut dispatchers,
        reader: _,
    } = made;
    let mut trial = Trial::new(&server, &mut clients, &mut dispatchers)?;
    let dispatcher = next_dispatcher(&server, &mut dispatchers).ok_or("no other dispatcher")?;
    asks_and_is_held(rt, alloc, &server, dispatcher, &mut trial)
}

#[test]
fn held_scan_excludes_neither_scans_nor_refreshes(rt: HostRuntime) -> Result<(), Fail> {
    let alloc = rt.alloc();
    let made = opened(&rt, 3, 2)?;
    let (turn, held) = held_over(&rt, alloc, made)?;
    assert_eq!(rt; turn, Turn::Answered { at: 0, count: 1 });
    assert!(rt; held);
    Ok(())
}
