//! How a server is opened.
ghost use Rattle.std.specs.Prelude.{◌≡◌, ℕ, ◌≤◌, [], ◌∷◌, ◌++◌, All, length, IfOk, OnOk, IfErr, MatchOption};
ghost use Rattle.std.specs.Option.{is_some};
ghost use Rattle.history.specs.Tokens.{new_clients, new_dispatchers};
ghost use Rattle.history_core.specs.Counts.{most_clients};
ghost use Rattle.ssb_clients.specs.Counts.{most_dispatchers, most_at_table, at_table, has_reader};
ghost use Rattle.ssb_clients.specs.Tickets.{with_reader};
ghost use Rattle.ssb_server.specs.Opening.{AreCounts, IsDispatcherCount, IsOpenFault, IsNewReader, IsNewDispatcher};
ghost use Rattle.ssb_server.specs.Opening.{AreSeats, MayRead};

use crate::batch::Batch;
use crate::dispatcher::TwinDispatcher;
use crate::loaded::Loaded;
use history::{OpenedTable, SharedTable, Token};
use row_store::{Follower, Replica};
use ssb_clients::tickets::clients_of;
use ssb_clients::{Client, Keeps, LogReader, MOST_CLIENTS, MOST_DISPATCHERS, Server, Shared};
use standing_columns::StandingColumns;
use std::alloc::{AllocError, Global};
use std::sync::Wait;
use std::thread::Threads;
use thiserror::Error;
use twin_cell::{EndsCopies, TwinError, TwinReader, TwinWriter, twin};

/// Why no server was opened.
#[derive(Clone, Copy, Debug, PartialEq, Eq, Error)]
pub enum OpenFault {
    /// There are to be 1 to 16 clients.
    #[error("60 ClientCount")]
    ClientCount,
    /// There are to be 1 to 4 dispatchers.
    #[error("61 DispatcherCount")]
    DispatcherCount,
    /// No place is free for a reader of the columns.
    #[error("62 NoReader")]
    NoReader,
    /// Memory ran out.
    #[error("out of memory")]
    OutOfMemory,
}

/// An open server, with all who have a token of it: its clients and its dispatchers, in a new one each by number from
/// 1, and who reads its log, where somebody does, which at the table is one dispatcher more, behind the others. The
/// copies are of the columns, but nothing here looks into one, and the prover takes their type long.
#[derive(Drop)]
pub struct Opened<W: EndsCopies + Drop, C: Replica + Drop = StandingColumns> {
    pub server: Server<TwinWriter<C, W>>,
    pub clients: Vec<Client<TwinWriter<C, W>>>,
    pub dispatchers: Vec<TwinDispatcher<C, W>>,
    pub reader: Option<LogReader<TwinWriter<C, W>>>,
}

// A dispatcher of each token, with a reader and room for a batch.
fn dispatchers_of<C: Replica + Drop, W: EndsCopies + Drop>(
    alloc: Global,
    tokens: Vec<Token<TwinWriter<C, W>>>,
    mut readers: Vec<TwinReader<C>>,
) -> Result<Vec<TwinDispatcher<C, W>>, AllocError>
    requires { AreSeats tokens.items readers.items }
    ensures { IfOk result (λ dispatchers. dispatchers.items ≡ tokens.items) }
{
    let mut dispatchers = Vec::new(alloc);
    for token in tokens {
        let Some(reader) = readers.pop() else {
            unreachable!()
        };
        let batch = Batch::new(alloc)?;
        dispatchers.push(TwinDispatcher::new(token, reader, batch))?;
    }
    Ok(dispatchers)
}

// The last token, which leaves.
fn last_token<K: Follower + Drop>(tokens: &mut Vec<Token<K>>) -> Token<K>
    requires { 1 ≤ length tokens.old.items }
    ensures { tokens.old.items ≡ tokens.new.items ++ result ∷ [] }
{
    let Some(token) = tokens.pop() else {
        unreachable!()
    };
    token
}

// Who reads the log gets the last token of a dispatcher, where there is to be a reader.
fn reader_of<K: Follower + Drop>(tokens: &mut Vec<Token<K>>, keeps: Keeps) -> Option<LogReader<K>>
    requires { MayRead keeps tokens.old.items }
    ensures parted { with_reader tokens.new.items result ≡ tokens.old.items }
    ensures there { is_some result ≡ has_reader keeps }
{
    match keeps {
        Keeps::All => None,
        Keeps::Recent => None,
        Keeps::Unread => {
            let token = last_token(tokens);
            Some(LogReader::new(token))
        }
    }
}

// A table that was just made, readers of its columns, and what the server over it shows.
#[derive(Drop)]
struct MadeTable<C: Replica + Drop, W: EndsCopies + Drop> {
    opened: OpenedTable<TwinWriter<C, W>>,
    readers: Vec<TwinReader<C>>,
    beside: Shared,
}

// The clients and dispatchers of these tokens of a table that was just made, with the server over it.
fn seat_all<C: Replica + Drop, W: EndsCopies + Drop>(
    alloc: Global,
    made: MadeTable<C, W>,
    reader: Option<LogReader<TwinWriter<C, W>>>,
    counts: (u32, u32),
    keeps: Keeps,
) -> Result<Opened<W, C>, AllocError>
    requires counts { (counts.0 ≡ made.opened.shared.clients) × (counts.1 ≡ made.opened.shared.dispatchers) }
    requires few { (counts.0 ≤ most_clients) × (counts.1 ≤ most_at_table) }
    requires clients { made.opened.clients.items ≡ new_clients made.opened.shared }
    requires dispatchers { All (IsNewDispatcher made.opened.shared.base) made.opened.dispatchers.items }
    requires readers { All (IsNewReader made.opened.shared.base) made.readers.items }
    requires each { length made.readers.items ≡ length made.opened.dispatchers.items }
    requires base { made.beside.base.value ≡ made.opened.shared.base }
    ensures server { IfOk result (λ seated. seated.server ≡ made.opened.shared) }
    ensures clients { IfOk result (λ seated. seated.clients.items ≡ new_clients seated.server) }
    ensures dispatchers { IfOk result (λ seated. seated.dispatchers.items ≡ made.opened.dispatchers.items) }
    ensures reader { IfOk result (λ seated. seated.reader ≡ reader) }
{
    let MadeTable {
        opened,
        readers,
        beside,
    } = made;
    let OpenedTable {
        shared,
        clients,
        dispatchers,
    } = opened;
    let clients = clients_of(alloc, clients)?;
    let dispatchers = dispatchers_of(alloc, dispatchers, readers)?;
    Ok(Opened {
        server: Server::new(alloc, shared, counts.0, counts.1, keeps, beside)?,
        clients,
        dispatchers,
        reader,
    })
}

// The table over a base, with so many tokens of dispatchers, and a reader of the columns for each that is to answer.
fn table_over<W: Threads + Sync + Wait + Drop>(
    alloc: Global,
    rt: W,
    loaded: Loaded,
    counts: (u32, u32),
    answering: u32,
) -> Result<MadeTable<StandingColumns, W>, TwinError>
    requires clients { (1 ≤ counts.0) × (counts.0 ≤ most_clients) }
    requires tokens { (1 ≤ counts.1) × (counts.1 ≤ most_at_table) }
    requires answering { IsDispatcherCount answering }
    ensures base { IfOk result (λ made. made.opened.shared.base ≡ loaded) }
    ensures counts { IfOk result (λ made. (made.opened.shared.clients ≡ counts.0)
        × (made.opened.shared.dispatchers ≡ counts.1)) }
    ensures clients { IfOk result (λ made. made.opened.clients.items ≡ new_clients made.opened.shared) }
    ensures dispatchers { IfOk result (λ made. made.opened.dispatchers.items ≡ new_dispatchers made.opened.shared) }
    ensures readers { IfOk result (λ made. All (IsNewReader made.opened.shared.base) made.readers.items) }
    ensures each { IfOk result (λ made. length made.readers.items ≡ answering) }
    ensures beside { IfOk result (λ made. made.beside.base.value ≡ made.opened.shared.base) }
{
    let Loaded {
        rows,
        columns,
        base,
        figures,
    } = loaded;
    figures.has_committed(0, rows.line_count() as u64);
    let beside = Shared { base, figures };
    let (writer, readers) = twin(alloc, rt, columns, answering as usize)?;
    match SharedTable::new(alloc, rows, writer, counts.0, counts.1) {
        Ok(opened) => Ok(MadeTable {
            opened,
            readers,
            beside,
        }),
        Err(_) => Err(TwinError::OutOfMemory),
    }
}

// How many dispatchers the table has.
fn count_at_table(keeps: Keeps, dispatchers: u32) -> u32
    requires { dispatchers ≤ most_dispatchers }
    ensures { result ≡ at_table keeps dispatchers }
{
    match keeps {
        Keeps::All => dispatchers,
        Keeps::Recent => dispatchers,
        Keeps::Unread => dispatchers + 1,
    }
}

// The clients and dispatchers of a table that was just made, and who reads its log, where somebody does.
fn seated<C: Replica + Drop, W: EndsCopies + Drop>(
    alloc: Global,
    mut made: MadeTable<C, W>,
    counts: (u32, u32),
    keeps: Keeps,
) -> Result<Opened<W, C>, TwinError>
    requires counts { (counts.0 ≡ made.opened.shared.clients) × (counts.1 ≡ made.opened.shared.dispatchers) }
    requires few { (counts.0 ≤ most_clients) × (1 ≤ counts.1) × (counts.1 ≤ most_at_table) }
    requires clients { made.opened.clients.items ≡ new_clients made.opened.shared }
    requires dispatchers { made.opened.dispatchers.items ≡ new_dispatchers made.opened.shared }
    requires readers { All (IsNewReader made.opened.shared.base) made.readers.items }
    requires each { at_table keeps (length made.readers.items) ≡ counts.1 }
    requires base { made.beside.base.value ≡ made.opened.shared.base }
    ensures server { IfOk result (λ seated. seated.server ≡ made.opened.shared) }
    ensures clients { IfOk result (λ seated. seated.clients.items ≡ new_clients seated.server) }
    ensures dispatchers { IfOk result (λ seated. with_reader seated.dispatchers.items seated.reader
        ≡ new_dispatchers seated.server) }
    ensures reader { IfOk result (λ seated. is_some seated.reader ≡ has_reader keeps) }
{
    let reader = reader_of(&mut made.opened.dispatchers, keeps);
    match seat_all(alloc, made, reader, counts, keeps) {
        Ok(seated) => Ok(seated),
        Err(_) => Err(TwinError::OutOfMemory),
    }
}

// Builds all parts over a loaded base, for counts in their ranges.
fn build<W: Threads + Sync + Wait + Drop>(
    alloc: Global,
    rt: W,
    loaded: Loaded,
    clients: u32,
    dispatchers: u32,
    keeps: Keeps,
) -> Result<Opened<W>, TwinError>
    requires counts { AreCounts clients dispatchers }
    ensures base { IfOk result (λ made. made.server.base ≡ loaded) }
    ensures counts { IfOk result (λ made. (made.server.clients ≡ clients)
        × (made.server.dispatchers ≡ at_table keeps dispatchers)) }
    ensures clients { IfOk result (λ made. made.clients.items ≡ new_clients made.server) }
    ensures dispatchers { IfOk result (λ made. with_reader made.dispatchers.items made.reader
        ≡ new_dispatchers made.server) }
    ensures reader { IfOk result (λ made. is_some made.reader ≡ has_reader keeps) }
{
    let counts = (clients, count_at_table(keeps, dispatchers));
    match table_over(alloc, rt, loaded, counts, dispatchers) {
        Ok(made) => seated(alloc, made, counts, keeps),
        Err(fault) => Err(fault),
    }
}

// Which count is out of its range, if one is.
fn count_fault(clients: u32, dispatchers: u32) -> Option<OpenFault>
    ensures { MatchOption result (AreCounts clients dispatchers) (IsOpenFault clients dispatchers) }
{
    if clients == 0 || clients > MOST_CLIENTS {
        return Some(OpenFault::ClientCount);
    }
    if dispatchers == 0 || dispatchers > MOST_DISPATCHERS {
        return Some(OpenFault::DispatcherCount);
    }
    None
}

// What is told of a fault that comes where the counts are in their ranges.
fn fault_of(error: TwinError) -> OpenFault
    ensures { (clients dispatchers : ℕ) → AreCounts clients dispatchers → IsOpenFault clients dispatchers result }
{
    match error {
        TwinError::NoReader => OpenFault::NoReader,
        TwinError::OutOfMemory => OpenFault::OutOfMemory,
    }
}

/// Opens a server over a loaded base, for 1 to 16 clients and 1 to 4 dispatchers. `rt` is the handle by which the
/// writer of the columns waits, and `keeps` says which part of the log stays in memory, and with that whether somebody
/// reads the log. The client count is looked at first, then the dispatcher count.
///
/// It is not proved to return, since it makes the two copies of the columns (`twin`), whose writer publishes once, and
/// may wait for readers then. Here nobody reads yet.
pub fn open<W: Threads + Sync + Wait + Drop>(
    alloc: Global,
    rt: W,
    loaded: Loaded,
    clients: u32,
    dispatchers: u32,
    keeps: Keeps,
) -> Result<Opened<W>, OpenFault>
    ensures range { OnOk result (AreCounts clients dispatchers) }
    ensures base { IfOk result (λ made. made.server.base ≡ loaded) }
    ensures counts { IfOk result (λ made. (made.server.clients ≡ clients)
        × (made.server.dispatchers ≡ at_table keeps dispatchers)) }
    ensures clients { IfOk result (λ made. made.clients.items ≡ new_clients made.server) }
    ensures dispatchers { IfOk result (λ made. with_reader made.dispatchers.items made.reader
        ≡ new_dispatchers made.server) }
    ensures reader { IfOk result (λ made. is_some made.reader ≡ has_reader keeps) }
    ensures fault { IfErr result (IsOpenFault clients dispatchers) }
{
    if let Some(fault) = count_fault(clients, dispatchers) {
        return Err(fault);
    }
    match build(alloc, rt, loaded, clients, dispatchers, keeps) {
        Ok(opened) => Ok(opened),
        Err(error) => Err(fault_of(error)),
    }
}
