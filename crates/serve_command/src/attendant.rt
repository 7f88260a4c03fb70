//! The attendant: a thread beside those of the clients, which does what they cannot do while they wait.
//!
//! A client's thread that waits in the opening of one pipe can neither open the other nor tell whom it waits for. The
//! attendant does both for all clients. Where the journal has failed, it lets go all that wait for their clients, so that
//! they end. It sleeps while nothing is due.

use crate::ends::{EndPaths, let_go, open_unread};
use std::alloc::{AllocError, Global};
use std::io::{Print, Write};
use std::rt::Files;
use std::sync::atomic::{AtomicBool, Ordering};
use std::sync::{Mutex, Wait};
use std::thread::Parker;
use std::time::{Clock, Duration};
use std::{fmt, io, thread};

// How many milliseconds a tick has. What is due is counted in ticks, and not by a clock: while the machine has no time
// for who reads the end of a session, it has none for the attendant.
const TICK: u64 = 10;

// The tick at which an output is opened though its input is not: 50 ms, behind the tick that had begun.
const OUTPUT_IS_DUE: u32 = 6;

// The tick at which it is told whom a client waits for: a second.
const TELLING_IS_DUE: u32 = 100;

/// Whom a client's thread waits for.
#[derive(Clone, Copy, Debug, PartialEq, Eq)]
pub(crate) enum Awaited {
    /// Who writes what the client is read from.
    Writer,
    /// Who reads what the client is answered to.
    Reader,
}

impl fmt::Display for Awaited {
    fn fmt<W: fmt::Write>(&self, f: &mut fmt::Formatter<W>) -> fmt::Result {
        match self {
            Awaited::Writer => f.write_str("a writer of IN"),
            Awaited::Reader => f.write_str("a reader of OUT"),
        }
    }
}

// A client, as the attendant knows it.
#[derive(Drop)]
struct Attended<O: Drop> {
    // Where its input and its output are.
    input: String,
    path: String,
    // Whom its thread waits for, and how many ticks it has waited.
    awaited: Option<Awaited>,
    ticks: u32,
    // The output, opened with no reader.
    unread: Option<O>,
    // Whether it can be opened so: it was, before.
    is_openable: bool,
}

impl<O: Drop> Attended<O> {
    fn new(input: String, path: String) -> Attended<O> {
        Attended {
            input,
            path,
            awaited: None,
            ticks: 0,
            unread: None,
            is_openable: false,
        }
    }

    // Keeps the output open with no reader.
    fn hold(&mut self, unread: O) {
        self.unread = Some(unread);
        self.is_openable = true;
    }

    // Its thread waits for somebody from now on.
    fn awaits(&mut self, awaited: Awaited) {
        self.awaited = Some(awaited);
        self.ticks = 0;
    }

    // Its thread waits for nobody any more, and the output is not kept open.
    fn awaits_nobody(&mut self) {
        self.awaited = None;
        self.unread = None;
    }

    // Whether something is due while its thread goes on waiting.
    fn has_due(&self) -> bool {
        self.awaited.is_some() && self.ticks < TELLING_IS_DUE
    }

    // Counts a tick. Opens the output where that is due, and gives who is waited for where that is to be told.
    fn tick<F: Files<File = O>>(&mut self, files: &F) -> Option<Awaited> {
        let awaited = self.awaited?;
        self.ticks = self.ticks.saturating_add(1);
        let is_closed = self.is_openable && self.unread.is_none();
        if awaited == Awaited::Writer && self.ticks == OUTPUT_IS_DUE && is_closed {
            self.unread = open_unread(files, self.path.as_str());
        }
        if self.ticks == TELLING_IS_DUE {
            Some(awaited)
        } else {
            None
        }
    }
}

// What stands at the place of the number, which counts from 1.
fn at_number<T>(all: &[T], number: u64) -> Option<&T> {
    all.get(number.checked_sub(1)? as usize)
}

/// What the threads of the clients and their attendant share.
#[derive(Drop)]
pub struct Attendant<O: Drop> {
    // By number from 1, and whether their threads wait in a read.
    clients: Vec<Mutex<Attended<O>>>,
    reading: Vec<AtomicBool>,
    // Whether it is told whom they wait for.
    tells: bool,
    // Where the attendant sleeps.
    bell: Parker,
    has_begun: AtomicBool,
    has_failed: AtomicBool,
    has_ended: AtomicBool,
}

impl<O: Drop> Attendant<O> {
    /// An attendant of clients whose ends are there. It tells whom they wait for, or does not.
    pub fn new(alloc: Global, ends: &[EndPaths], tells: bool) -> Result<Attendant<O>, AllocError> {
        let mut clients = Vec::new(alloc);
        let mut reading = Vec::new(alloc);
        for paths in ends {
            let input = String::from_str(alloc, paths.input.as_str())?;
            let path = String::from_str(alloc, paths.output.as_str())?;
            clients.push(Mutex::new(Attended::new(input, path)))?;
            reading.push(AtomicBool::new(false))?;
        }
        Ok(Attendant {
            clients,
            reading,
            tells,
            bell: Parker::new(),
            has_begun: AtomicBool::new(false),
            has_failed: AtomicBool::new(false),
            has_ended: AtomicBool::new(false),
        })
    }

    /// Whether it opens the output of this client, when that is due, so that the client's thread need not.
    pub(crate) fn opens_later<R: Wait>(&self, rt: &R, number: u64) -> bool {
        match at_number(self.clients.as_slice(), number) {
            Some(client) => client.lock(rt).is_openable && self.has_begun.load(Ordering::SeqCst),
            None => false,
        }
    }

    /// Keeps the output of this client open with no reader, until its thread waits for nobody any more.
    pub(crate) fn hold<R: Wait>(&self, rt: &R, number: u64, unread: O) {
        match at_number(self.clients.as_slice(), number) {
            Some(client) => client.lock(rt).hold(unread),
            None => unread.drop(),
        }
    }

    /// The thread of this client waits for somebody from now on.
    pub(crate) fn awaits<R: Wait>(&self, rt: &R, number: u64, awaited: Awaited) {
        if let Some(client) = at_number(self.clients.as_slice(), number) {
            client.lock(rt).awaits(awaited);
            self.bell.unpark();
        }
    }

    /// The thread of this client waits for nobody any more.
    pub(crate) fn awaits_nobody<R: Wait>(&self, rt: &R, number: u64) {
        if let Some(client) = at_number(self.clients.as_slice(), number) {
            client.lock(rt).awaits_nobody();
        }
    }

    /// The thread of this client waits in a read, or does not any more.
    pub(crate) fn reads(&self, number: u64, is_reading: bool) {
        if let Some(reading) = at_number(self.reading.as_slice(), number) {
            reading.store(is_reading, Ordering::SeqCst);
        }
    }

    /// The journal has failed: clients that are waited for are let go.
    pub(crate) fn fail(&self) {
        self.has_failed.store(true, Ordering::SeqCst);
        self.bell.unpark();
    }

    // Lets the threads go on that wait for their clients.
    fn let_all_go<R: Wait, F: Files<File = O>>(&self, rt: &R, files: &F) {
        let mut number = 0u64;
        for client in &self.clients {
            number = number.saturating_add(1);
            let client = client.lock(rt);
            let reads = match at_number(self.reading.as_slice(), number) {
                Some(reading) => reading.load(Ordering::SeqCst),
                None => false,
            };
            if reads || client.awaited.is_some() {
                let_go(files, client.input.as_str(), reads);
                let_go(files, client.path.as_str(), false);
            }
        }
    }

    // Whether something is due while the clients' threads go on waiting.
    fn has_due<R: Wait>(&self, rt: &R) -> bool {
        for client in &self.clients {
            if client.lock(rt).has_due() {
                return true;
            }
        }
        false
    }

    // Tells whom a client waits for, if the screen takes it.
    fn tell<E: Print>(&self, number: u64, awaited: Awaited, screen: &E) {
        if self.tells {
            let mut screen = io::writer(screen);
            let _ = writeln!(screen, "ssb_live: client {number}: waits for {awaited}");
        }
    }

    // Counts a tick of each client.
    fn tick<R: Wait, F: Files<File = O>, E: Print>(&self, rt: &R, files: &F, screen: &E) {
        let mut number = 0u64;
        for client in &self.clients {
            number = number.saturating_add(1);
            let told = client.lock(rt).tick(files);
            if let Some(awaited) = told {
                self.tell(number, awaited, screen);
            }
        }
    }

    /// Attends to the clients, in the thread that calls it, until it is told to end.
    pub fn attend<R: Wait + Clock, F: Files<File = O>, E: Print>(
        &self,
        rt: &R,
        files: &F,
        screen: &E,
    ) {
        self.has_begun.store(true, Ordering::SeqCst);
        for _ in rt.forever() {
            if self.has_ended.load(Ordering::SeqCst) {
                return;
            }
            if self.has_failed.load(Ordering::SeqCst) {
                thread::sleep(rt, Duration::from_millis(TICK));
                self.let_all_go(rt, files);
            } else if self.has_due(rt) {
                thread::sleep(rt, Duration::from_millis(TICK));
                self.tick(rt, files, screen);
            } else {
                self.bell.park(rt);
            }
        }
    }

    /// Tells the attendant to end.
    pub fn end(&self) {
        self.has_ended.store(true, Ordering::SeqCst);
        self.bell.unpark();
    }
}
