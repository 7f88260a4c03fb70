//! The calls on a file, which only clauses read: no memory holds them.
ghost use Rattle.std.specs.Prelude.{◌≡◌, List, [], ◌∷◌};
ghost use Rattle.std.specs.Borrow.{ftrue};
ghost use Rattle.journal.specs.Calls.{Call, wrote, trimmed, synced, promised};

use std::marker::{Model, PhantomData};

/// The calls on a file, the newest first. Each method notes one: it does nothing.
#[derive(Drop)]
pub(crate) struct Transcript {
    marker: PhantomData<u8>,
    pub ghost calls: { List Call },
}

impl Model for Transcript {
    ghost also_owns = { λ _. ftrue };
}

impl Transcript {
    /// Of a file on which no call was made.
    pub(crate) fn new() -> Transcript
        ensures { result.calls ≡ [] }
    {
        Transcript {
            marker: PhantomData,
        }
    }

    /// These bytes were written at this offset, or that failed.
    pub(crate) fn wrote(&mut self, _at: u64, _bytes: &[u8], _done: bool)
        ensures { self.new.calls ≡ wrote _at _bytes.now _done ∷ self.old.calls }
    {}

    /// The file was cut to this length, or that failed.
    pub(crate) fn trimmed(&mut self, _len: u64, _done: bool)
        ensures { self.new.calls ≡ trimmed _len _done ∷ self.old.calls }
    {}

    /// The file was synced, or that failed.
    pub(crate) fn synced(&mut self, _done: bool)
        ensures { self.new.calls ≡ synced _done ∷ self.old.calls }
    {}

    /// What a read stands for was promised.
    pub(crate) fn promised(&mut self)
        ensures { self.new.calls ≡ promised ∷ self.old.calls }
    {}
}

// It owns nothing, so it may go to any thread.
unsafe impl Send for Transcript {}
