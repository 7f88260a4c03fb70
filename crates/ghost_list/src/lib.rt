//! A list that only clauses read: no memory holds it.
//!
//! A structure that keeps the last items of a long list keeps the whole as a [`GhostList`] beside them: its contracts
//! then speak of all items, though most of them are forgotten. Only the clauses of `new` and `push` tie the list to
//! what happens, so the structure's invariant has to say what its memory has to do with it.
//!
//! ```text
//! let mut history = GhostList::new();
//! history.push(&commit);                  // contracts: one item more; the machine does nothing
//! ```
#![tactic(auto)]

ghost use Rattle.std.specs.Prelude.{◌≡◌, List, [], ◌∷◌, ◌++◌};
ghost use Rattle.std.specs.Borrow.{ftrue};
ghost use Rattle.std.specs.Coded.{coded_list};

use std::marker::{Model, PhantomData};

/// A list that only clauses read. It has no bytes and owns nothing.
pub struct GhostList<T> {
    marker: PhantomData<T>,
    pub ghost items: { List T } by { coded_list T.code },
}

impl<T> Model for GhostList<T> {
    ghost also_owns = { λ _. ftrue };
}

impl<T> GhostList<T> {
    /// The empty list.
    pub fn new() -> GhostList<T>
        ensures { result.items ≡ [] }
    {
        GhostList {
            marker: PhantomData,
        }
    }

    /// One item more, as it is now. It does nothing.
    pub fn push(&mut self, item: &T)
        ensures { self.new.items ≡ self.old.items ++ item.now ∷ [] }
    {
        let _ = item;
    }
}

unsafe impl<T> Send for GhostList<T> {}

unsafe impl<T> Sync for GhostList<T> {}

impl<T> Drop for GhostList<T> {
    fn drop(self) {
        let Self { marker: _ } = self;
    }
}
