//! The replies that are held until the server waits for its client.

ghost use Rattle.std.specs.Prelude.{◌≡◌, ◌<◌, false, [], length, OnOk, MatchResult};
ghost use Rattle.stream_sessions.specs.Conversation.{most_held};
ghost use Rattle.stream_sessions.specs.Course.{HandsInTime, HandsOnAll, HandsOnPart, course};
ghost use Rattle.stream_sessions.specs.declared.outcome.SessionFault.TheVariants.{Write as FailedWrite};

use crate::acknowledges::{Acknowledges, Evidence};
use crate::outcome::SessionFault;
use crate::service::Service;
use crate::session::Session;
use row_store::Follower;
use ssb_clients::Client;
use std::io::{Read, Write};
use std::sync::Wait;

/// The most bytes of replies that are held while requests are at hand.
const MOST_HELD: usize = 65_536;

impl<I: Read + Drop, O: Write + Drop, E: Evidence> Session<I, O, E> {
    // Passes the replies that are held on, with the evidence of all commits that the client has seen. What could not be
    // written is held no more.
    fn pass_held<W: Follower + Drop>(
        &mut self,
        client: &Client<W>,
        evidence: E,
    ) -> Result<(), SessionFault>
        requires evidence { E.covers evidence (length client.now.seen) }
        ensures handed { MatchResult result
            (λ _. HandsOnAll (course client.now self.old) (course client.now self.new))
            (λ fault. (fault ≡ FailedWrite) × HandsOnPart (course client.now self.old) (course client.now self.new)) }
        ensures at_hand { self.new.wire.at_hand ≡ self.old.wire.at_hand }
    {
        if self.replies.is_empty() {
            return Ok(());
        }
        let passed = self
            .wire
            .pass_on(evidence, client.seen(), self.replies.as_slice());
        self.replies.clear();
        match passed {
            Ok(()) => Ok(()),
            Err(_) => Err(SessionFault::Write),
        }
    }

    /// Passes the replies that are held on, once all commits that the client has seen may be told. Replies leave a session
    /// by this function alone.
    pub(crate) fn hand_on<W: Follower + Drop, R: Wait, K: Acknowledges<E>>(
        &mut self,
        service: &Service<'_, W, R, K>,
        client: &Client<W>,
    ) -> Result<(), SessionFault>
        ensures handed { MatchResult result
            (λ _. HandsOnAll (course client.now self.old) (course client.now self.new))
            (λ fault. (fault ≡ FailedWrite) × HandsOnPart (course client.now self.old) (course client.now self.new)) }
        ensures at_hand { self.new.wire.at_hand ≡ self.old.wire.at_hand }
    {
        let acknowledger = service.acknowledger;
        match acknowledger.acknowledge(service.rt, service.alloc, client.seen()) {
            Ok(evidence) => self.pass_held(client, evidence),
            Err(_) => Err(SessionFault::Write),
        }
    }

    /// Hands the replies on where no request is at hand, before the session waits for its client, or where many are held.
    pub(crate) fn hand_on_in_time<W: Follower + Drop, R: Wait, K: Acknowledges<E>>(
        &mut self,
        service: &Service<'_, W, R, K>,
        client: &Client<W>,
        is_at_hand: bool,
    ) -> Result<(), SessionFault>
        ensures handed { MatchResult result
            (λ _. HandsInTime (course client.now self.old) (course client.now self.new))
            (λ fault. (fault ≡ FailedWrite) × HandsOnPart (course client.now self.old) (course client.now self.new)) }
        ensures at_hand { self.new.wire.at_hand ≡ self.old.wire.at_hand }
        ensures in_time { OnOk result (is_at_hand ≡ false → self.new.replies.items ≡ []) }
        ensures few { OnOk result (length self.new.replies.items < most_held) }
    {
        if self.replies.len() >= MOST_HELD || !is_at_hand {
            self.hand_on(service, client)?;
        }
        Ok(())
    }
}
