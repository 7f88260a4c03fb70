//! The journal of a server: in one file, or a store.

ghost use Rattle.std.specs.Prelude.{None};
ghost use Rattle.store_folder.specs.Served.{start_of};

use crate::place::StorePlace;
use crate::store_file::StoreFile;
use journal::KeepsTorn;
use journal_file::{
    FileDisk, JournalFile, OpenError, TornFile, UnreadFile, keep_torn, make_locked, open_locked,
};
use journal_opening::{JournalStart, OpensJournal};
use std::alloc::Global;
use std::io;
use std::rt::Files;

/// A journal in one file, by its path, to be written: it is made where there is none and the journal begins.
#[derive(Drop)]
pub struct OneFile<'a, F: Files> {
    pub files: &'a F,
    pub alloc: Global,
    pub path: &'a str,
    pub start: JournalStart,
}

/// The journal of a server. What a crash has torn of it is kept beside it. What it holds, who has it, and whether it is
/// there, is in no contract.
#[derive(Drop)]
pub enum ServedJournal<'a, F: Files> {
    File(OneFile<'a, F>),
    Store(StorePlace<'a, F>),
}

impl<'a, F: Files> OneFile<'a, F>
where
    F::File: JournalFile,
{
    fn opened(&self) -> Result<StoreFile<'a, F>, OpenError> {
        let file = match self.start {
            JournalStart::GoesOn => open_locked(self.files, self.alloc, self.path)?,
            JournalStart::Begins => make_locked(self.files, self.path)?,
        };
        Ok(StoreFile::single(self.files, self.alloc, file))
    }
}

impl<'a, F: Files> OpensJournal for ServedJournal<'a, F>
where
    F::File: JournalFile,
{
    type Disk = FileDisk<StoreFile<'a, F>>;

    type Opened = UnreadFile<StoreFile<'a, F>>;

    ghost holds = { λ _. None };

    ghost is_taken = { λ _. Unit {0} };

    ghost is_missing = { λ _. Unit {0} };

    ghost starts = { start_of };

    fn path(&self) -> &str {
        match self {
            ServedJournal::File(file) => file.path,
            ServedJournal::Store(store) => store.path(),
        }
    }

    fn start(&self) -> JournalStart {
        match self {
            ServedJournal::File(file) => file.start,
            ServedJournal::Store(_) => JournalStart::GoesOn,
        }
    }

    fn open(&self, alloc: Global) -> Result<UnreadFile<StoreFile<'a, F>>, OpenError> {
        match self {
            ServedJournal::File(file) => Ok(UnreadFile::of(file.opened()?)),
            ServedJournal::Store(store) => store.open(alloc),
        }
    }
}

impl<'a, F: Files> KeepsTorn for ServedJournal<'a, F>
where
    F::File: JournalFile,
{
    type Kept = TornFile;

    ghost bytes = { λ kept. kept };

    fn keep_torn(&self, torn: Vec<u8>) -> io::Result<TornFile> {
        match self {
            ServedJournal::File(file) => keep_torn(file.files, file.alloc, file.path, torn),
            ServedJournal::Store(store) => store.keep_torn(torn),
        }
    }
}
