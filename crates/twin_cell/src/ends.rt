//! How a writer that goes waits for the readers that hold a copy.

use crossbeam_utils::rule::Protocol;
use left_right::Absorb;
use left_right::writer::Writer;
use std::sync::Wait;

/// What a writer that goes waits by. Any handle that may wait serves. What holds a writer is generic over this and not
/// over `Wait`, so its calls are proved to return, but for what the end of a writer waits for.
pub trait EndsCopies {
    /// Waits for the readers that hold a copy, and drops both copies with all that is pending.
    fn end<T: Absorb<O> + Drop, O: Drop, V, P: Protocol<T, V>>(&self, copies: Writer<T, O, V, P>);
}

impl<W: Wait> EndsCopies for W {
    fn end<T: Absorb<O> + Drop, O: Drop, V, P: Protocol<T, V>>(&self, copies: Writer<T, O, V, P>) {
        drop(copies.take(self));
    }
}
