//! Requests that are read before their turn.

ghost use Rattle.std.specs.Prelude.{◌≡◌, []};
ghost use Rattle.ssb_script.specs.Ahead.{AskFirst};
ghost use Rattle.stream_sessions.specs.Ahead.{StandsNext, TakesFirst, asked_ahead, is_at_hand};

use ssb_script::{AtHand, Request, read_together, request_length, requests_at_hand};
use std::alloc::Global;
use std::vec::IntoIter;

/// The most requests that are read together. A reader of records is made for them all, which costs as much as to read
/// some ten of them.
const MOST_TOGETHER: usize = 64;

/// The requests at hand that were read together and are still to be served, in order.
#[derive(Drop)]
pub(crate) struct Ahead {
    requests: IntoIter<Request>,
    // So many requests are to be read alone, since they could not be read together.
    alone: usize,
}

/// What a session takes next.
#[derive(Drop)]
pub(crate) enum Coming {
    /// A request at hand, of so many bytes, which was read before its turn.
    Read(Request, usize),
    /// A request at hand, of so many bytes, which is to be read alone.
    Whole(usize),
    /// No request stands whole at hand: the session may have to wait for it.
    Awaited,
}

impl Coming {
    /// Whether a request stands whole at hand.
    pub(crate) fn is_at_hand(&self) -> bool
        ensures { result ≡ is_at_hand self.now }
    {
        !matches!(self, Coming::Awaited)
    }
}

/// The requests of a session that are still to be served: those that were read ahead, and room for one that is read alone.
#[derive(Drop)]
pub(crate) struct Requests {
    ahead: Ahead,
    pub(crate) alone: Vec<u8>,
}

impl Requests {
    /// Nothing is read.
    pub(crate) fn new(alloc: Global) -> Requests
        ensures { asked_ahead result.ahead ≡ [] }
    {
        Requests {
            ahead: Ahead::new(alloc),
            alone: Vec::new(alloc),
        }
    }

    /// What comes next, where these bytes are at hand. Where several requests stand whole there, they are read together,
    /// each before its turn.
    pub(crate) fn next(&mut self, alloc: Global, at_hand: &[u8]) -> Coming
        requires { AskFirst at_hand.now (asked_ahead self.old.ahead) }
        ensures { StandsNext result at_hand.now (asked_ahead self.new.ahead) }
    {
        self.ahead.look(alloc, at_hand);
        match (self.ahead.next(), request_length(at_hand)) {
            (Some(request), Some(size)) => Coming::Read(request, size),
            (Some(_), None) => unreachable!(),
            (None, Some(size)) => Coming::Whole(size),
            (None, None) => Coming::Awaited,
        }
    }
}

impl Ahead {
    /// Nothing is read ahead.
    pub(crate) fn new(alloc: Global) -> Ahead
        ensures { asked_ahead result ≡ [] }
    {
        Ahead {
            requests: Vec::new(alloc).into_iter(),
            alone: 0,
        }
    }

    /// Reads the requests at the front of these bytes together, where all that were read before are served.
    pub(crate) fn look(&mut self, alloc: Global, bytes: &[u8])
        requires { AskFirst bytes.now (asked_ahead self.old) }
        ensures { AskFirst bytes.now (asked_ahead self.new) }
    {
        if self.requests.len() > 0 {
            return;
        }
        if self.alone > 0 {
            self.alone -= 1;
            return;
        }
        let AtHand { count, size } = requests_at_hand(bytes, MOST_TOGETHER);
        // One alone would not be read in less time.
        if count < 2 {
            return;
        }
        let (text, _) = bytes.split_at(size);
        match read_together(alloc, text, count) {
            Some(requests) => self.requests = requests.into_iter(),
            None => self.alone = count - 1,
        }
    }

    /// The next one.
    pub(crate) fn next(&mut self) -> Option<Request>
        ensures { TakesFirst (asked_ahead self.old) result (asked_ahead self.new) }
    {
        self.requests.next()
    }
}
