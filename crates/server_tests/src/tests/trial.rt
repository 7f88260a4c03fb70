//! Trials: what clients and a dispatcher of a server do, step by step, and what they are told.
ghost use Rattle.std.specs.Prelude.{All};
ghost use Rattle.ssb_clients.specs.Tickets.{IsOf, IsQuiet};

use crate::tests::clients::{does, meets, next_client};
use crate::tests::opening::{next_dispatcher, opened};
use server_figures::Figures;
use ssb_server::{Client, Dispatcher, EndsCopies, OpenGate, Opened, ScanGate, Server, Turn};
use std::alloc::{AllocError, Global};
use std::marker::Model;
use std::random::RandomSource;
use std::sync::Wait;
use std::test::Fail;
use std::thread::Threads;

/// What a client does.
#[derive(Clone, Copy, Debug)]
pub enum TrialDeed {
    /// It adds the order of this key.
    Adds(u64),
    /// It withdraws the order of this key.
    Withdraws(u64),
    /// It asks the queries of these names, parted by spaces, in one request, with the benchmark's constants.
    Asks(&'static str),
    /// It polls.
    Polls,
}

/// A step of a trial.
#[derive(Clone, Copy, Debug)]
pub enum TrialStep {
    /// The first client does this.
    First(TrialDeed),
    /// The second client does this.
    Second(TrialDeed),
    /// The third client does this.
    Third(TrialDeed),
    /// The second client meets the first one.
    Meeting,
    /// The dispatcher takes a turn.
    Turn,
    /// The dispatcher carries the commits over, though nothing is asked.
    Following,
    /// The server's figures are looked at.
    Counting,
}

/// Three clients and a dispatcher of a server, which is theirs.
#[derive(Drop)]
pub struct Trial<'s, W: EndsCopies + Drop> {
    server: &'s Server<W>,
    first: Client<W>,
    second: Client<W>,
    third: Client<W>,
    dispatcher: Dispatcher<W>,
}

impl<'s, W: EndsCopies + Drop> Model for Trial<'s, W> {
    ghost Value = { Unit {0} };

    ghost view = { λ t. tt };

    ghost invariant = { λ t. IsOf t.server.now t.first × IsOf t.server.now t.second × IsOf t.server.now t.third
        × IsOf t.server.now t.dispatcher };
}

// What a turn did.
fn report(alloc: Global, turn: Turn) -> Result<String, AllocError> {
    match turn {
        Turn::Idle => String::from_str(alloc, "idle"),
        Turn::Answered { at, count } => format!(in alloc; "answered {count} at {at}"),
        Turn::Unserved { count, cause } => format!(in alloc; "gave up {count}: {cause:?}"),
    }
}

// What a server has counted.
fn counted(alloc: Global, figures: Figures) -> Result<String, AllocError> {
    let (commits, lines, refusals) = (figures.commits, figures.lines, figures.refusals);
    let (answers, batches) = (figures.answers, figures.batches);
    format!(in alloc;
        "{commits} commits, {lines} lines, {refusals} refused, {answers} answers, {batches} batches"
    )
}

/// A turn of a dispatcher.
#[tactic(auto, using(ssb_server::proofs::StayingLaws::turned_stays))]
pub fn turns<W: Wait + Drop, R: Wait + Threads + Sync, G: ScanGate>(
    rt: &R,
    server: &Server<W>,
    dispatcher: &mut Dispatcher<W>,
    gate: &G,
) -> Turn
    requires { IsOf server.now dispatcher.old }
    ensures { IsOf server.now dispatcher.new }
{
    dispatcher.turn(rt, server, gate)
}

/// A dispatcher carries the commits over.
#[tactic(auto, using(crate::proofs::PlaceLaws::fetched_stays))]
pub fn follows<W: Wait + Drop, R: Wait>(rt: &R, server: &Server<W>, dispatcher: &mut Dispatcher<W>)
    requires { IsOf server.now dispatcher.old }
    ensures { IsOf server.now dispatcher.new }
{
    dispatcher.follow(rt, server);
}

// Whether what a step told is what stands beside it.
fn as_expected(alloc: Global, step: (TrialStep, &str), told: String) -> Result<(), Fail> {
    if told.as_str() != step.1 {
        Err(format!(in alloc; "{:?}: {told}", step.0)?)?
    }
    Ok(())
}

impl<'s, W: EndsCopies + Drop> Trial<'s, W> {
    /// A trial of the last three of these clients and the last of these dispatchers, which leave.
    pub fn new(
        server: &'s Server<W>,
        clients: &mut Vec<Client<W>>,
        dispatchers: &mut Vec<Dispatcher<W>>,
    ) -> Result<Trial<'s, W>, Fail>
        requires clients { All (IsQuiet server.now) clients.old.items }
        requires dispatchers { All (IsOf server.now) dispatchers.old.items }
        ensures dispatchers { All (IsOf server.now) dispatchers.new.items }
    {
        Ok(Trial {
            server,
            first: next_client(server, clients).ok_or("no client")?,
            second: next_client(server, clients).ok_or("no second client")?,
            third: next_client(server, clients).ok_or("no third client")?,
            dispatcher: next_dispatcher(server, dispatchers).ok_or("no dispatcher")?,
        })
    }
}

impl<'s, W: Wait + Drop> Trial<'s, W> {
    // Takes a step. What its client is told, or what the dispatcher did.
    fn takes<R: Wait + Threads + Sync>(
        &mut self,
        rt: &R,
        alloc: Global,
        step: TrialStep,
    ) -> Result<String, AllocError> {
        match step {
            TrialStep::First(deed) => does(rt, alloc, self.server, &mut self.first, deed),
            TrialStep::Second(deed) => does(rt, alloc, self.server, &mut self.second, deed),
            TrialStep::Third(deed) => does(rt, alloc, self.server, &mut self.third, deed),
            TrialStep::Meeting => meets(alloc, self.server, &mut self.second, &mut self.first),
            TrialStep::Turn => {
                let turn = turns(rt, self.server, &mut self.dispatcher, &OpenGate);
                report(alloc, turn)
            }
            TrialStep::Following => {
                follows(rt, self.server, &mut self.dispatcher);
                String::from_str(alloc, "follows")
            }
            TrialStep::Counting => counted(alloc, self.server.figures().now()),
        }
    }

    /// Takes the steps, one after another. It fails where one is told anything else than what stands beside it.
    pub fn plays<R: Wait + Threads + Sync>(
        &mut self,
        rt: &R,
        alloc: Global,
        steps: &[(TrialStep, &str)],
    ) -> Result<(), Fail> {
        for (step, expected) in steps {
            let told = self.takes(rt, alloc, *step)?;
            as_expected(alloc, (*step, *expected), told)?;
        }
        Ok(())
    }

    // Takes a step. Where it is told that memory lacks, the steps that come with that are taken.
    fn plays_at_last<R: Wait + Threads + Sync>(
        &mut self,
        rt: &R,
        alloc: Global,
        step: (TrialStep, &str),
        lacking: (&str, &[(TrialStep, &str)]),
    ) -> Result<(), Fail> {
        let told = self.takes(rt, alloc, step.0)?;
        if told.as_str() == lacking.0 {
            return self.plays(rt, alloc, lacking.1);
        }
        as_expected(alloc, step, told)
    }
}

// Takes the steps over a server that was opened for three clients and a dispatcher.
fn played_over<W: Wait + Drop, R: Wait + Threads + Sync>(
    rt: &R,
    alloc: Global,
    made: Opened<W>,
    steps: &[(TrialStep, &str)],
) -> Result<(), Fail>
    requires clients { All (IsQuiet made.server) made.clients.items }
    requires dispatchers { All (IsOf made.server) made.dispatchers.items }
{
    let Opened {
        server,
        mut clients,
        mut dispatchers,
        reader: _,
    } = made;
    let mut trial = Trial::new(&server, &mut clients, &mut dispatchers)?;
    trial.plays(rt, alloc, steps)
}

/// Opens a server over the small data set, and takes the steps.
pub fn played<R: Wait + Threads + Sync + AllocGlobal + RandomSource>(
    rt: &R,
    steps: &[(TrialStep, &str)],
) -> Result<(), Fail> {
    let made = opened(rt, 3, 1)?;
    played_over(rt, rt.alloc(), made, steps)
}

// The same of steps of which one may lack memory.
fn played_at_last_over<W: Wait + Drop, R: Wait + Threads + Sync + AllocGlobal>(
    rt: &R,
    made: Opened<W>,
    before: &[(TrialStep, &str)],
    step: (TrialStep, &str),
    lacking: (&str, &[(TrialStep, &str)]),
    after: &[(TrialStep, &str)],
) -> Result<(), Fail>
    requires clients { All (IsQuiet made.server) made.clients.items }
    requires dispatchers { All (IsOf made.server) made.dispatchers.items }
{
    let Opened {
        server,
        mut clients,
        mut dispatchers,
        reader: _,
    } = made;
    let mut trial = Trial::new(&server, &mut clients, &mut dispatchers)?;
    trial.plays(rt, rt.alloc(), before)?;
    trial.plays_at_last(rt, rt.alloc(), step, lacking)?;
    trial.plays(rt, rt.alloc(), after)
}

/// Opens a server over the small data set, and takes steps of which one may lack memory. Where that step is told so, the
/// steps that come with it are taken too, and then those after it.
pub fn played_at_last<R: Wait + Threads + Sync + AllocGlobal + RandomSource>(
    rt: &R,
    before: &[(TrialStep, &str)],
    step: (TrialStep, &str),
    lacking: (&str, &[(TrialStep, &str)]),
    after: &[(TrialStep, &str)],
) -> Result<(), Fail> {
    let made = opened(rt, 3, 1)?;
    played_at_last_over(rt, made, before, step, lacking, after)
}
