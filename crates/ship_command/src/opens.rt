//! Where a journal is that another process writes.

ghost use Rattle.std.specs.Prelude.{◌≡◌, ℕ, List, [], Option, None, IfOk, IfErr};
ghost use Rattle.journal_opening.specs.Opens.{TellsMissing};

use journal::GrowingFile;
use journal_file::{JournalFile, OpenError, WatchedFile};
use std::alloc::Global;
use std::rt::Files;

/// Where a journal is that another process may write.
pub trait OpensGrowing {
    /// The file.
    type File: GrowingFile + Drop;

    /// What the file holds, where that is known before it is opened, and does not change.
    ghost holds: { Self → Option (List ℕ) };

    /// The file is not there.
    ghost is_missing: { Self → Type 0 };

    /// Opens the file: nothing was read of it.
    fn open(&self, alloc: Global) -> Result<Self::File, OpenError>
        ensures unread { IfOk result (λ file. Self.File.seen file ≡ []) }
        ensures held { IfOk result (λ file. Self.File.holds file ≡ holds self.now) }
        ensures missing { IfErr result (TellsMissing (is_missing self.now)) };
}

/// A journal's file by its path. What it holds, and whether it is there, is in no contract.
#[derive(Drop)]
pub struct WatchedPath<'a, F: Files> {
    pub files: &'a F,
    pub path: &'a str,
}

impl<'a, F: Files> OpensGrowing for WatchedPath<'a, F>
where
    F::File: JournalFile,
{
    type File = WatchedFile<F::File>;

    ghost holds = { λ _. None };

    ghost is_missing = { λ _. Unit {0} };

    fn open(&self, alloc: Global) -> Result<WatchedFile<F::File>, OpenError> {
        WatchedFile::open(self.files, alloc, self.path)
    }
}
