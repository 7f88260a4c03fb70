//! What looks on while a script is served.
ghost use Rattle.std.specs.Prelude.{◌≡◌};
ghost use Rattle.ssb_script.specs.Requests.{request_of};
ghost use Rattle.stream_sessions.specs.Keeping.{question_count};

use ssb_script::{Asking, Request};

/// What a request of a script asks for.
#[derive(Clone, Copy, Debug, PartialEq, Eq)]
pub enum RequestKind {
    /// A refresh.
    Refresh,
    /// So many questions, which are asked together.
    Questions(usize),
    /// The lines of an order.
    Order,
    /// An `abort`: nothing was asked for.
    Abort,
}

// The kind of a request.
pub(crate) fn kind_of(request: &Request) -> RequestKind {
    match request {
        Request::Refresh(_) => RequestKind::Refresh,
        Request::Ask(_) => RequestKind::Questions(question_count(request)),
        Request::Order(_) => RequestKind::Order,
        Request::Abort => RequestKind::Abort,
    }
}

/// How many questions a request asks.
pub(crate) fn question_count(request: &Request) -> usize
    ensures { result ≡ question_count (request_of request.now) }
{
    match request {
        Request::Refresh(_) => 0,
        Request::Ask(Asking::Alone(_)) => 1,
        Request::Ask(Asking::Together(questions)) => questions.len(),
        Request::Ask(Asking::Statement(asked)) => asked.statement.questions.len(),
        Request::Order(_) => 0,
        Request::Abort => 0,
    }
}

/// Is told when each request begins and ends, as a clock that takes the times. It promises nothing, and what is served is
/// the same with any of them.
pub trait Meter {
    /// The next request is served from here on.
    fn begin(&mut self);

    /// It was served, and its reply is reported. A request that ends the run has no end.
    fn end(&mut self, kind: RequestKind);
}

/// Looks at nothing.
#[derive(Clone, Copy, Debug)]
pub struct NoMeter;

impl Meter for NoMeter {
    fn begin(&mut self) {}

    fn end(&mut self, _kind: RequestKind) {}
}
