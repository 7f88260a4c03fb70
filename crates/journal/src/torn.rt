//! What a crash has torn of a file: it is kept before it is cut off.
ghost use Rattle.std.specs.Prelude.{◌≡◌, ℕ, List, IfOk};

use std::io;

/// Keeps what a crash has torn of a file. An implementation alone makes evidence: whoever holds it has had bytes kept.
pub trait KeepsTorn {
    /// The evidence that bytes are kept.
    type Kept;

    /// The bytes that it is the evidence of.
    ghost bytes: { Self.Kept → List ℕ };

    /// Keeps bytes, so that they may be cut off.
    fn keep_torn(&self, torn: Vec<u8>) -> io::Result<Self::Kept>
        ensures { IfOk result (λ kept. bytes kept ≡ torn.items) };
}
