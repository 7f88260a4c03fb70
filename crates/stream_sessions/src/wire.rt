//! The wire between a session and its client.
ghost use Rattle.std.specs.Prelude.{◌≡◌, ◌≤◌, [], ◌∷◌, length, take, drop, IfOk, IfErr, MatchResult};
ghost use Rattle.std.specs.Io.Buffered.{reader_buffer, reader_remaining};
ghost use Rattle.std.specs.Io.KnownBytes.{Appends, Consumes};
ghost use Rattle.ssb_script.specs.NextRequest.{IsFound, IsRequestFault};
ghost use Rattle.ssb_text.specs.Written.{AppendsPart};
ghost use Rattle.stream_sessions.specs.Events.{WireRecord, Looks, Takes, Passes, most_covered};
ghost use Rattle.stream_sessions.specs.Session.{most_bytes};

use crate::acknowledges::Evidence;
use crate::events::Events;
use crate::told_with::ToldWith;
use ssb_script::{MOST_BYTES, NextRequest, RequestError, next_request};
use ssb_text::write_bytes;
use std::io::{BufRead, BufReader, Read, Write};
use std::marker::{Model, PhantomData};
use thiserror::Error;

/// A text could not be written, or not handed on.
#[derive(Clone, Copy, Debug, PartialEq, Eq, Error)]
#[error("not passed on")]
pub struct NotPassed;

/// The wire between a session and its client: requests come from the input, and replies leave by the output, with
/// evidence in hand of as many commits as they tell of. There is no other way to either, so that what was read and what
/// was passed on stand in one history, which contracts see.
#[derive(Drop)]
pub struct Wire<I: Read + Drop, O: Write + Drop, E: Evidence> {
    input: BufReader<I>,
    output: O,
    told: ToldWith<E>,
    events: Events,
}

impl<I: Read + Drop, O: Write + Drop, E: Evidence> Model for Wire<I, O, E> {
    ghost use Rattle.std.specs.Prelude.{◌≡◌};
    ghost use Rattle.std.specs.Io.Buffered.{reader_buffer, reader_remaining};
    ghost use Rattle.stream_sessions.specs.Events.{WireRecord, most_covered};

    ghost Value = { WireRecord };

    ghost view = { λ wire. record {
      at_hand = reader_buffer wire.input;
      unread = reader_remaining I.remaining wire.input;
      written = O.contents wire.output;
      events = wire.events.list;
    } };

    ghost invariant = { λ wire. wire.told ≡ most_covered wire.events.list };
}

impl<I: Read + Drop, O: Write + Drop, E: Evidence> Wire<I, O, E> {
    /// A wire that nothing went over.
    pub(crate) fn new(input: BufReader<I>, output: O) -> Wire<I, O, E>
        ensures { result ≡ record {
          at_hand = reader_buffer input;
          unread = reader_remaining I.remaining input;
          written = O.contents output;
          events = [];
        } }
    {
        Wire {
            input,
            output,
            told: ToldWith::nothing(),
            events: Events::new(),
        }
    }

    /// Closes the end that is read, and hands the other back; and of how many commits was told, with their evidence.
    pub fn close(self) -> (ClosedWire<I, O>, ToldWith<E>)
        ensures written { O.contents result.0.output ≡ self.written }
        ensures events { result.0.events.list ≡ self.events }
        ensures told { result.1 ≡ most_covered self.events }
    {
        let Wire {
            input: _,
            output,
            told,
            events,
        } = self;
        let closed = ClosedWire {
            output,
            events,
            input: PhantomData,
        };
        (closed, told)
    }

    /// The bytes at hand: those that were read, and not yet taken.
    pub(crate) fn at_hand(&self) -> &[u8]
        ensures { result.now ≡ self.now.at_hand }
    {
        self.input.buffer()
    }

    /// Takes a request that is at hand.
    pub(crate) fn take(&mut self, size: usize)
        requires { size ≤ length self.old.at_hand }
        ensures taken { Consumes self.old.unread self.new.unread (take size self.old.at_hand) }
        ensures at_hand { self.new.at_hand ≡ drop size self.old.at_hand }
        ensures written { self.new.written ≡ self.old.written }
        ensures events { self.new.events ≡ Takes (take size self.old.at_hand) ∷ self.old.events }
    {
        let (request, _) = self.input.buffer().split_at(size);
        self.events.takes(request);
        self.input.consume(size);
    }

    /// Takes the next request, as [`next_request`] does. The session may wait for its client here, and nowhere else.
    pub(crate) fn next_request(
        &mut self,
        request: &mut Vec<u8>,
    ) -> Result<NextRequest, RequestError>
        ensures taken { Consumes self.old.unread self.new.unread request.new.items }
        ensures found { IfOk result (λ found. IsFound found self.old.unread request.new.items) }
        ensures fault { IfErr result (λ error. IsRequestFault error most_bytes self.old.unread request.new.items) }
        ensures written { self.new.written ≡ self.old.written }
        ensures events { self.new.events ≡ Takes request.new.items ∷ Looks self.old.at_hand ∷ self.old.events }
    {
        self.events.looks(self.input.buffer());
        let found = next_request(&mut self.input, request, MOST_BYTES);
        self.events.takes(request.as_slice());
        found
    }

    /// Writes a text that tells of the first commits, so many of them at most, and hands it on.
    pub(crate) fn pass_on(
        &mut self,
        evidence: E,
        commits: u64,
        text: &[u8],
    ) -> Result<(), NotPassed>
        requires { E.covers evidence commits }
        ensures written { MatchResult result (λ _. Appends self.old.written self.new.written text.now)
            (λ _. AppendsPart self.old.written self.new.written text.now) }
        ensures at_hand { self.new.at_hand ≡ self.old.at_hand }
        ensures unread { self.new.unread ≡ self.old.unread }
        ensures events { self.new.events ≡ Passes text.now commits ∷ self.old.events }
    {
        self.events.passes(text, commits);
        self.told.tell(evidence, commits);
        hand_over(&mut self.output, text)
    }
}

/// What is left of a wire: its output, and what went over it, which contracts see. It is made of a wire between such ends
/// alone, or of an output over which nothing went.
#[derive(Drop)]
pub struct ClosedWire<I: Read + Drop, O: Write + Drop> {
    output: O,
    events: Events,
    input: PhantomData<I>,
}

impl<I: Read + Drop, O: Write + Drop> ClosedWire<I, O> {
    /// Of an output over which nothing went.
    pub fn unused(output: O) -> ClosedWire<I, O>
        ensures output { result.output ≡ output }
        ensures events { result.events.list ≡ [] }
    {
        ClosedWire {
            output,
            events: Events::new(),
            input: PhantomData,
        }
    }

    /// The output.
    pub fn into_output(self) -> O
        ensures { result ≡ self.output }
    {
        let ClosedWire {
            output,
            events: _,
            input: _,
        } = self;
        output
    }
}

// Writes a text, and has the writer hand it on.
fn hand_over<O: Write>(writer: &mut O, text: &[u8]) -> Result<(), NotPassed>
    ensures { MatchResult result (λ _. Appends (O.contents writer.old) (O.contents writer.new) text.now)
        (λ _. AppendsPart (O.contents writer.old) (O.contents writer.new) text.now) }
{
    if write_bytes(writer, text).is_err() {
        return Err(NotPassed);
    }
    match writer.flush() {
        Ok(()) => Ok(()),
        Err(_) => Err(NotPassed),
    }
}
