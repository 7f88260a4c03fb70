//! The tokens of dispatchers and of who reads the log, with which a server is closed.
ghost use Rattle.std.specs.Prelude.{◌≡◌, ◌+◌, ◌≤◌, [], ◌∷◌, ◌++◌, ◌↔◌, ◌==◌, IsTrue, All, count_by, length};
ghost use Rattle.std.specs.Prelude.{vec_len, vec_capacity};
ghost use Rattle.history.specs.Tokens.{TokenRecord};
ghost use Rattle.history.specs.Members.{number_of};
ghost use Rattle.history.specs.Closing.{AreNumbered};
ghost use Rattle.history_core.specs.Counts.{most_clients};
ghost use Rattle.ssb_clients.specs.Counts.{most_at_table};
ghost use Rattle.ssb_clients.specs.Tickets.{IsResting, IsLeft, with_reader};

use crate::dispatcher::TwinDispatcher;
use history::Token;
use row_store::Replica;
use ssb_clients::tickets::{gather_clients, gather_reader};
use ssb_clients::{Client, ClosingRoom, LogReader};
use twin_cell::{EndsCopies, TwinWriter};

// How many of the dispatchers have the number.
fn dispatchers_with<C: Replica + Drop, W: EndsCopies + Drop>(
    dispatchers: &[TwinDispatcher<C, W>],
    number: u32,
) -> usize
    ensures { result ≡ count_by (λ (t : TokenRecord). number_of t.who == number) dispatchers.now }
{
    let mut count = 0;
    for dispatcher in dispatchers {
        if dispatcher.number() == number {
            count += 1;
        }
    }
    count
}

// How many they are, with who reads the log.
fn count_of<C: Replica + Drop, W: EndsCopies + Drop>(
    dispatchers: &[TwinDispatcher<C, W>],
    reader: &Option<LogReader<TwinWriter<C, W>>>,
) -> usize
    ensures { result ≡ length (with_reader dispatchers.now reader.now) }
{
    match reader {
        Some(_) => dispatchers.len() + 1,
        None => dispatchers.len(),
    }
}

// Whether just one of the dispatchers and of this reader of the log has the number.
fn has_one_once<C: Replica + Drop, W: EndsCopies + Drop>(
    dispatchers: &[TwinDispatcher<C, W>],
    reader: &LogReader<TwinWriter<C, W>>,
    number: u32,
) -> bool
    ensures { IsTrue result ↔ (count_by (λ (t : TokenRecord). number_of t.who == number)
        (dispatchers.now ++ reader.now ∷ []) ≡ 1) }
{
    let others = dispatchers_with(dispatchers, number);
    if reader.number() == number {
        others == 0
    } else {
        others == 1
    }
}

// Whether just one of the dispatchers and of who reads the log has the number.
fn has_once<C: Replica + Drop, W: EndsCopies + Drop>(
    dispatchers: &[TwinDispatcher<C, W>],
    reader: &Option<LogReader<TwinWriter<C, W>>>,
    number: u32,
) -> bool
    ensures { IsTrue result ↔ (count_by (λ (t : TokenRecord). number_of t.who == number)
        (with_reader dispatchers.now reader.now) ≡ 1) }
{
    match reader {
        Some(reader) => has_one_once(dispatchers, reader, number),
        None => dispatchers_with(dispatchers, number) == 1,
    }
}

/// Whether the dispatchers, and who reads the log, are so many, with each number once.
pub(crate) fn are_numbered<C: Replica + Drop, W: EndsCopies + Drop>(
    dispatchers: &[TwinDispatcher<C, W>],
    reader: &Option<LogReader<TwinWriter<C, W>>>,
    count: u32,
) -> bool
    ensures { IsTrue result ↔ AreNumbered count (with_reader dispatchers.now reader.now) }
{
    if count_of(dispatchers, reader) != count as usize {
        return false;
    }
    for before in 0..count {
        if !has_once(dispatchers, reader, before + 1) {
            return false;
        }
    }
    true
}

/// The tokens of the dispatchers, in room that is there.
pub(crate) fn gather_dispatchers<C: Replica + Drop, W: EndsCopies + Drop>(
    tokens: &mut Vec<Token<TwinWriter<C, W>>>,
    dispatchers: Vec<TwinDispatcher<C, W>>,
)
    requires { vec_len tokens.old + vec_len dispatchers ≤ vec_capacity tokens.old }
    ensures items { tokens.new.items ≡ tokens.old.items ++ dispatchers.items }
    ensures len { vec_len tokens.new ≡ vec_len tokens.old + vec_len dispatchers }
    ensures capacity { vec_capacity tokens.new ≡ vec_capacity tokens.old }
    ensures left { All IsLeft dispatchers.items }
{
    for dispatcher in dispatchers {
        tokens.push_reserved(dispatcher.into_token());
    }
}

/// The tokens of all clients, and of all dispatchers and who reads the log, in the room for them.
pub(crate) fn gather_all<C: Replica + Drop, W: EndsCopies + Drop>(
    room: ClosingRoom<TwinWriter<C, W>>,
    clients: Vec<Client<TwinWriter<C, W>>>,
    dispatchers: Vec<TwinDispatcher<C, W>>,
    reader: Option<LogReader<TwinWriter<C, W>>>,
) -> (Vec<Token<TwinWriter<C, W>>>, Vec<Token<TwinWriter<C, W>>>)
    requires clients { length clients.items ≤ most_clients }
    requires dispatchers { length (with_reader dispatchers.items reader) ≤ most_at_table }
    ensures clients { result.0.items ≡ clients.items }
    ensures rest { All IsResting clients.items }
    ensures dispatchers { result.1.items ≡ with_reader dispatchers.items reader }
    ensures left { All IsLeft (with_reader dispatchers.items reader) }
{
    let ClosingRoom {
        clients: mut client_tokens,
        dispatchers: mut dispatcher_tokens,
    } = room;
    gather_clients(&mut client_tokens, clients);
    gather_dispatchers(&mut dispatcher_tokens, dispatchers);
    gather_reader(&mut dispatcher_tokens, reader);
    (client_tokens, dispatcher_tokens)
}
