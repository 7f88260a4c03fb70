//! What went over a line, which only clauses read: no memory holds it.
ghost use Rattle.std.specs.Prelude.{◌≡◌, List, [], ◌∷◌};
ghost use Rattle.std.specs.Borrow.{ftrue};
ghost use Rattle.stream_sessions.specs.Events.{Event, Looks, Takes, Passes};

use std::marker::{Model, PhantomData};

/// What went over a line, the newest first. A note does nothing.
#[derive(Drop)]
pub(crate) struct Events {
    marker: PhantomData<u8>,
    pub ghost list: { List Event },
}

impl Model for Events {
    ghost also_owns = { λ _. ftrue };
}

impl Events {
    /// Of a line that nothing went over.
    pub(crate) fn new() -> Events
        ensures { result.list ≡ [] }
    {
        Events {
            marker: PhantomData,
        }
    }

    /// The session looks for more, with these bytes at hand.
    pub(crate) fn looks(&mut self, _at_hand: &[u8])
        ensures { self.new.list ≡ Looks _at_hand.now ∷ self.old.list }
    {}

    /// It takes these bytes.
    pub(crate) fn takes(&mut self, _bytes: &[u8])
        ensures { self.new.list ≡ Takes _bytes.now ∷ self.old.list }
    {}

    /// This text is passed on, with evidence of so many commits in hand.
    pub(crate) fn passes(&mut self, _text: &[u8], _commits: u64)
        ensures { self.new.list ≡ Passes _text.now _commits ∷ self.old.list }
    {}
}

// It owns nothing, so it may go to any thread.
unsafe impl Send for Events {}
