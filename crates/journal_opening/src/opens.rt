//! Where a journal is: a file that is opened once the tables are loaded.
ghost use Rattle.std.specs.Prelude.{◌≡◌, ℕ, List, [], Option, None, IfOk, IfErr, IsErrOf};
ghost use Rattle.journal_opening.specs.Opens.{TellsMissing};
ghost use Rattle.journal_opening.specs.declared.start.JournalStart.{JournalStart as Start};
ghost use Rattle.journal_opening.specs.declared.start.JournalStart.TheVariants.{GoesOn};

use crate::start::JournalStart;
use journal::{Disk, KeepsTorn, UnreadDisk};
use journal_file::{FileDisk, JournalFile, OpenError, TornFile, UnreadFile, keep_torn};
use std::alloc::Global;
use std::io;
use std::rt::Files;

/// Where a journal is: its file is opened once the tables are loaded.
pub trait OpensJournal {
    /// The file, once it was read to its end.
    type Disk: Disk + Drop;

    /// The file, of which nothing was read.
    type Opened: UnreadDisk<Whole = Self::Disk> + Drop;

    /// What the file holds, where that is known before it is opened.
    ghost holds: { Self → Option (List ℕ) };

    /// Another has the file.
    ghost is_taken: { Self → Type 0 };

    /// The file is not there, and is not to be made.
    ghost is_missing: { Self → Type 0 };

    /// Whether the journal is gone on with or begun.
    ghost starts: { Self → Start };

    /// The path of the file.
    fn path(&self) -> &str;

    /// Whether the journal is gone on with or begun.
    fn start(&self) -> JournalStart
        ensures { result ≡ starts self.now };

    /// Opens the file: nothing was read of it.
    fn open(&self, alloc: Global) -> Result<Self::Opened, OpenError>
        ensures unread { IfOk result (λ file. Self.Opened.taken file ≡ []) }
        ensures held { IfOk result (λ file. Self.Opened.holds file ≡ holds self.now) }
        ensures taken { IsErrOf result OpenError.InUse → is_taken self.now }
        ensures missing { IfErr result (TellsMissing (is_missing self.now)) };
}

/// A journal's file by its path, to be written: it is made where there is none and the journal begins. What a crash has
/// torn of it is kept beside it. What it holds, who has it, and whether it is there, is in no contract.
#[derive(Drop)]
pub struct JournalPath<'a, F: Files> {
    pub files: &'a F,
    pub alloc: Global,
    pub path: &'a str,
    pub start: JournalStart,
}

impl<'a, F: Files> OpensJournal for JournalPath<'a, F>
where
    F::File: JournalFile,
{
    type Disk = FileDisk<F::File>;

    type Opened = UnreadFile<F::File>;

    ghost holds = { λ _. None };

    ghost is_taken = { λ _. Unit {0} };

    ghost is_missing = { λ _. Unit {0} };

    ghost starts = { λ place. place.start };

    fn path(&self) -> &str {
        self.path
    }

    fn start(&self) -> JournalStart {
        self.start
    }

    fn open(&self, alloc: Global) -> Result<UnreadFile<F::File>, OpenError> {
        match self.start {
            JournalStart::GoesOn => UnreadFile::open(self.files, alloc, self.path),
            JournalStart::Begins => UnreadFile::make(self.files, self.path),
        }
    }
}

impl<'a, F: Files> KeepsTorn for JournalPath<'a, F> {
    type Kept = TornFile;

    ghost bytes = { λ kept. kept };

    fn keep_torn(&self, torn: Vec<u8>) -> io::Result<TornFile> {
        keep_torn(self.files, self.alloc, self.path, torn)
    }
}

/// The file of a journal that is there, by its path, to be read alone. What it holds, who has it, and whether it is
/// there, is in no contract.
#[derive(Drop)]
pub struct ReadPath<'a, F: Files> {
    pub files: &'a F,
    pub path: &'a str,
}

impl<'a, F: Files> OpensJournal for ReadPath<'a, F>
where
    F::File: JournalFile,
{
    type Disk = FileDisk<F::File>;

    type Opened = UnreadFile<F::File>;

    ghost holds = { λ _. None };

    ghost is_taken = { λ _. Unit {0} };

    ghost is_missing = { λ _. Unit {0} };

    ghost starts = { λ _. GoesOn };

    fn path(&self) -> &str {
        self.path
    }

    fn start(&self) -> JournalStart {
        JournalStart::GoesOn
    }

    fn open(&self, alloc: Global) -> Result<UnreadFile<F::File>, OpenError> {
        UnreadFile::open_to_read(self.files, alloc, self.path)
    }
}
