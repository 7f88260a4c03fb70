//! A live session, from its first request to its last.

ghost use Rattle.std.specs.Prelude.{◌≡◌, [], false, IfOk, IfErr};
ghost use Rattle.std.specs.Io.Buffered.{reader_buffer, reader_remaining};
ghost use Rattle.std.specs.Option.{is_some};
ghost use Rattle.history.specs.Members.{number_of};
ghost use Rattle.stream_sessions.specs.Conversation.{ConversesTo};
ghost use Rattle.stream_sessions.specs.Course.{HasAnswered, IsLeft, course};
ghost use Rattle.stream_sessions.specs.OneRequest.{AreAlike};
ghost use Rattle.stream_sessions.specs.Session.{Breaks, Serves};
ghost use Rattle.stream_sessions.specs.Speaking.{InSession, first_format, manner_of};

use crate::acknowledges::{Acknowledges, Evidence};
use crate::ahead::Requests;
use crate::manner::{Manner, Terms};
use crate::outcome::{Ending, Served, SessionError, SessionFault};
use crate::service::Service;
use crate::step::Step;
use crate::wire::Wire;
use row_store::Follower;
use ssb_clients::Client;
use ssb_formats::ReplyFormat;
use std::alloc::Global;
use std::io::{BufReader, Read, Write};
use std::sync::Wait;

/// A session: its wire, the manner in which its client is served, and the replies that are held.
#[derive(Drop)]
pub(crate) struct Session<I: Read + Drop, O: Write + Drop, E: Evidence> {
    pub(crate) wire: Wire<I, O, E>,
    pub(crate) manner: Manner,
    pub(crate) replies: Vec<u8>,
}

/// What a session leaves: its wire, and how it ended.
#[derive(Drop)]
pub struct SessionLeft<I: Read + Drop, O: Write + Drop, E: Evidence> {
    pub wire: Wire<I, O, E>,
    pub outcome: Result<Served, SessionError>,
}

impl<I: Read + Drop, O: Write + Drop, E: Evidence> Session<I, O, E> {
    // A session that begins.
    fn new(alloc: Global, input: BufReader<I>, output: O, terms: Terms) -> Session<I, O, E>
        ensures wire { result.wire ≡ record {
          at_hand = reader_buffer input;
          unread = reader_remaining I.remaining input;
          written = O.contents output;
          events = [];
        } }
        ensures manner { result.manner ≡ manner_of terms first_format }
        ensures none_held { result.replies.items ≡ [] }
    {
        Session {
            wire: Wire::new(input, output),
            manner: Manner {
                format: ReplyFormat::Report,
                terms,
            },
            replies: Vec::new(alloc),
        }
    }

    // Answers requests until the session ends; the last replies are still held.
    fn answer_all<W: Follower + Drop, R: Wait, K: Acknowledges<E>>(
        &mut self,
        service: &Service<'_, W, R, K>,
        client: &mut Client<W>,
    ) -> Result<Served, SessionError>
        requires table { client.old.table ≡ service.now.server.now }
        requires quiet { is_some client.old.asked ≡ false }
        requires begins { self.old.wire.events ≡ [] }
        requires none_held { self.old.replies.items ≡ [] }
        ensures { HasAnswered result (course client.old self.old) (course client.new self.new) }
    {
        let mut requests = Requests::new(service.alloc);
        for answered in 0..u64::MAX {
            match self.step(service, client, &mut requests) {
                Ok(Step::Request) => {}
                Ok(Step::Rest) => {
                    return Ok(Served {
                        answered: answered + 1,
                        ending: Ending::InputEnded,
                    });
                }
                Ok(Step::Nothing) => {
                    return Ok(Served {
                        answered,
                        ending: Ending::InputEnded,
                    });
                }
                Ok(Step::TooLong) => {
                    return Ok(Served {
                        answered,
                        ending: Ending::RequestTooLong,
                    });
                }
                Err(fault) => return Err(SessionError { answered, fault }),
            }
        }
        // No client writes so many requests.
        Err(SessionError {
            answered: u64::MAX,
            fault: SessionFault::Read,
        })
    }

    // Answers requests until the session ends, and hands the last replies on. What could not be written is not tried again.
    fn serve<W: Follower + Drop, R: Wait, K: Acknowledges<E>>(
        &mut self,
        service: &Service<'_, W, R, K>,
        client: &mut Client<W>,
    ) -> Result<Served, SessionError>
        requires table { client.old.table ≡ service.now.server.now }
        requires quiet { is_some client.old.asked ≡ false }
        requires begins { self.old.wire.events ≡ [] }
        requires none_held { self.old.replies.items ≡ [] }
        ensures { IsLeft result (course client.old self.old) (course client.new self.new) }
    {
        let error = match self.answer_all(service, client) {
            Ok(served) => {
                return match self.hand_on(service, client) {
                    Ok(()) => Ok(served),
                    Err(fault) => Err(SessionError {
                        answered: served.answered,
                        fault,
                    }),
                };
            }
            Err(error) => error,
        };
        if let SessionFault::Write = error.fault {
            return Err(error);
        }
        match self.hand_on(service, client) {
            Ok(()) => Err(error),
            Err(fault) => Err(SessionError {
                answered: error.answered,
                fault,
            }),
        }
    }
}

/// Serves a client whose requests are read from this input, and whose replies are written to this output, until the input
/// ends or a request is longer than 1 MiB.
///
/// Each request is read as a script of its own, though many that are at hand are read together, and answered by its
/// report, or by the line of its fault, as `fault: 70 BadLine 2`; it then changed nothing, and the session goes on. At
/// the end of the input the rest is answered likewise, where there is any. A request that is too long is told as soon as
/// it is known. Behind a request that names a format, as `format|json`, all this is told in that format. A session that
/// takes no refreshes does nothing of a request that has one, and tells `fault: 68 ReadOnly`. Each number of commits
/// that is told counts those that came before the first of the log.
///
/// Replies are held while whole requests are at hand in the input's buffer, 64 KiB of them at most and one more, and
/// are handed on before the session waits for its client, and at its end, once there is the evidence of all commits that
/// the client has seen: receipts and answers tell of those alone. Memory does not grow with the session. It waits for the
/// rows, for answers and for that evidence; a dispatcher has to take its turns meanwhile.
///
/// A failed read or write, or want of memory, breaks it, and so many requests were answered before. Evidence that is not
/// got is a failed write: nothing more is written. In each case nothing is outstanding then.
pub fn serve_session<
    W: Follower + Drop,
    R: Wait,
    E: Evidence,
    K: Acknowledges<E>,
    I: Read + Drop,
    O: Write + Drop,
>(
    service: &Service<'_, W, R, K>,
    client: &mut Client<W>,
    input: BufReader<I>,
    output: O,
    terms: Terms,
) -> SessionLeft<I, O, E>
    requires table { client.old.table ≡ service.now.server.now }
    requires quiet { is_some client.old.asked ≡ false }
    ensures served { IfOk result.outcome (λ served. InSession terms client.old client.new (λ first last.
        Serves served (number_of client.old.who) first last (reader_remaining I.remaining input) result.wire.unread
        (O.contents output) result.wire.written)) }
    ensures broken { IfErr result.outcome (λ error. InSession terms client.old client.new (λ first last.
        Breaks error (number_of client.old.who) first last (reader_remaining I.remaining input) result.wire.unread
        (O.contents output) result.wire.written)) }
    // What was read and what was passed on, in one order: evidence before each text, and no reply kept back at a wait.
    ensures conversed { InSession terms client.old client.new (λ first last. ConversesTo result.outcome
        (number_of client.old.who) first last result.wire.events) }
    ensures same { AreAlike client.old client.new }
{
    let mut session = Session::new(service.alloc, input, output, terms);
    let outcome = session.serve(service, client);
    let Session {
        wire,
        manner: _,
        replies: _,
    } = session;
    SessionLeft { wire, outcome }
}
