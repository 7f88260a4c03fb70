//! What a client or a dispatcher did at the table, and what it was told. Contracts alone speak of it; no value is made.

use history_core::{Event, EventReply};
use std::marker::Model;

/// An event of the protocol, and the reply to it.
pub struct Deed {
    event: Event,
    reply: EventReply,
}

impl Model for Deed {
    ghost use Rattle.history_core.specs.Deeds.{Deed as Shown};

    ghost Value = { Shown };

    ghost use Rattle.history_core.specs.Events.{event_of};

    ghost view = { λ d. record { event = event_of d.event; reply = d.reply } };
}
