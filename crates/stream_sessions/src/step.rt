//! One step of a session: the next request, answered.

ghost use Rattle.std.specs.Prelude.{◌≡◌, ◌<◌, [], ◌++◌, drop, length, false, OnOk, MatchResult, take};
ghost use Rattle.std.specs.Option.{is_some};
ghost use Rattle.history.specs.Members.{number_of};
ghost use Rattle.ssb_script.specs.Ahead.{AskFirst, AsksOne, IsWhole};
ghost use Rattle.ssb_script.specs.Requests.{request_of};
ghost use Rattle.stream_sessions.specs.Ahead.{asked_ahead};
ghost use Rattle.stream_sessions.specs.Conversation.{most_held};
ghost use Rattle.stream_sessions.specs.Course.{Steps, TakesNext, course};
ghost use Rattle.stream_sessions.specs.FaultLine.{too_long_line};
ghost use Rattle.stream_sessions.specs.declared.outcome.SessionFault.TheVariants.{OutOfMemory};
ghost use Rattle.stream_sessions.specs.declared.step.Step.TheVariants.{TooLong};

use crate::acknowledges::{Acknowledges, Evidence};
use crate::ahead::{Coming, Requests};
use crate::answer::{answer, answer_read};
use crate::outcome::SessionFault;
use crate::service::Service;
use crate::session::Session;
use row_store::Follower;
use ssb_clients::Client;
use ssb_formats::{ReplyFormat, write_fault_as};
use ssb_script::{NextRequest, Request, RequestError};
use std::alloc::Global;
use std::io::{Read, Write};
use std::sync::Wait;

/// What a step did.
#[derive(Clone, Copy, Debug, PartialEq, Eq)]
pub(crate) enum Step {
    /// A request was answered.
    Request,
    /// What was left at the end of the input was answered.
    Rest,
    /// The input had ended.
    Nothing,
    /// The next request is too long, and that was told.
    TooLong,
}

// Tells that a request is too long.
fn tell_too_long(
    alloc: Global,
    format: ReplyFormat,
    replies: &mut Vec<u8>,
) -> Result<Step, SessionFault>
    ensures { MatchResult result
        (λ step. (step ≡ TooLong) × (replies.new.items ≡ replies.old.items ++ too_long_line format))
        (λ fault. (fault ≡ OutOfMemory) × (replies.new.items ≡ replies.old.items)) }
{
    let before = replies.len();
    match write_fault_as(alloc, replies, format, "76 RequestTooLong") {
        Ok(()) => Ok(Step::TooLong),
        Err(_) => {
            replies.truncate(before);
            Err(SessionFault::OutOfMemory)
        }
    }
}

impl<I: Read + Drop, O: Write + Drop, E: Evidence> Session<I, O, E> {
    // Answers the request at the front of what is at hand, of so many bytes, which was read before its turn, and takes it.
    fn take_read<W: Follower + Drop, R: Wait, K>(
        &mut self,
        service: &Service<'_, W, R, K>,
        client: &mut Client<W>,
        request: Request,
        size: usize,
    ) -> Result<Step, SessionFault>
        requires table { client.old.table ≡ service.now.server.now }
        requires quiet { is_some client.old.asked ≡ false }
        requires few { length self.old.replies.items < most_held }
        requires whole { IsWhole size self.old.wire.at_hand }
        requires asks { AsksOne (take size self.old.wire.at_hand) (request_of request) }
        ensures takes { TakesNext result (number_of client.old.who) (course client.old self.old)
            (course client.new self.new) }
        ensures at_hand { self.new.wire.at_hand ≡ drop size self.old.wire.at_hand }
    {
        let answered = answer_read(service, client, self.manner, request, &mut self.replies);
        self.wire.take(size);
        match answered {
            Ok(()) => Ok(Step::Request),
            Err(_) => Err(SessionFault::OutOfMemory),
        }
    }

    // Answers the request at the front of what is at hand, of so many bytes, read alone, and takes it.
    fn take_whole<W: Follower + Drop, R: Wait, K>(
        &mut self,
        service: &Service<'_, W, R, K>,
        client: &mut Client<W>,
        size: usize,
    ) -> Result<Step, SessionFault>
        requires table { client.old.table ≡ service.now.server.now }
        requires quiet { is_some client.old.asked ≡ false }
        requires few { length self.old.replies.items < most_held }
        requires whole { IsWhole size self.old.wire.at_hand }
        ensures takes { TakesNext result (number_of client.old.who) (course client.old self.old)
            (course client.new self.new) }
    {
        let (request, _) = self.wire.at_hand().split_at(size);
        let answered = answer(
            service,
            client,
            &mut self.manner,
            request,
            &mut self.replies,
        );
        self.wire.take(size);
        match answered {
            Ok(()) => Ok(Step::Request),
            Err(_) => Err(SessionFault::OutOfMemory),
        }
    }

    // Takes the next request, for which the session may wait, and answers it. No reply is held then.
    fn take_awaited<W: Follower + Drop, R: Wait, K>(
        &mut self,
        service: &Service<'_, W, R, K>,
        client: &mut Client<W>,
        request: &mut Vec<u8>,
    ) -> Result<Step, SessionFault>
        requires table { client.old.table ≡ service.now.server.now }
        requires quiet { is_some client.old.asked ≡ false }
        requires none_held { self.old.replies.items ≡ [] }
        ensures takes { TakesNext result (number_of client.old.who) (course client.old self.old)
            (course client.new self.new) }
    {
        let step = match self.wire.next_request(request) {
            Ok(NextRequest::Request) => Step::Request,
            Ok(NextRequest::Rest) => Step::Rest,
            Ok(NextRequest::Nothing) => return Ok(Step::Nothing),
            Err(RequestError::TooLong) => {
                return tell_too_long(service.alloc, self.manner.format, &mut self.replies);
            }
            Err(RequestError::Read) => return Err(SessionFault::Read),
            Err(RequestError::OutOfMemory) => return Err(SessionFault::OutOfMemory),
        };
        let answered = answer(
            service,
            client,
            &mut self.manner,
            request.as_slice(),
            &mut self.replies,
        );
        match answered {
            Ok(()) => Ok(step),
            Err(_) => Err(SessionFault::OutOfMemory),
        }
    }

    /// Hands the replies on that are held, where it is time, takes the next request, answers it, and holds the reply behind
    /// the others.
    pub(crate) fn step<W: Follower + Drop, R: Wait, K: Acknowledges<E>>(
        &mut self,
        service: &Service<'_, W, R, K>,
        client: &mut Client<W>,
        requests: &mut Requests,
    ) -> Result<Step, SessionFault>
        requires table { client.old.table ≡ service.now.server.now }
        requires quiet { is_some client.old.asked ≡ false }
        requires ahead { AskFirst self.old.wire.at_hand (asked_ahead requests.old.ahead) }
        ensures steps { Steps result (number_of client.old.who) (course client.old self.old)
            (course client.new self.new) }
        ensures ahead { OnOk result (AskFirst self.new.wire.at_hand (asked_ahead requests.new.ahead)) }
    {
        let next = requests.next(service.alloc, self.wire.at_hand());
        self.hand_on_in_time(service, client, next.is_at_hand())?;
        match next {
            Coming::Read(request, size) => self.take_read(service, client, request, size),
            Coming::Whole(size) => self.take_whole(service, client, size),
            Coming::Awaited => self.take_awaited(service, client, &mut requests.alone),
        }
    }
}
