//! The journal that the words of a command name.

ghost use Rattle.std.specs.Prelude.{◌≡◌, ◌||◌, IfOk, is_some};

use crate::stores::ServedStore;
use arguments::{JournalWord, ServeWords};
use confirmed_commits::Seconds;
use journal_file::{JournalFile, find_journal};
use journal_opening::{JournalStart, OpeningFault};
use serve_command::JournalPlace;
use ssb_files::TableBytes;
use std::alloc::AllocError;
use std::rt::Files;
use std::sync::Arc;
use store_folder::{OneFile, ServedJournal};

/// The journal of a server: in a file, by its path, and whether it is gone on with or begins; or a store.
#[derive(Drop)]
pub(crate) enum NamedJournal {
    File(String, JournalStart),
    Store(Arc<ServedStore>),
}

impl NamedJournal {
    /// That of these words, where they name one, or of a store that was found.
    pub(crate) fn of<F: AllocGlobal>(
        files: &F,
        words: &ServeWords<'_>,
        store: Option<Arc<ServedStore>>,
    ) -> Result<Option<NamedJournal>, AllocError>
        ensures { IfOk result (λ named. is_some named ≡ is_some words.now.journal || is_some store) }
    {
        if let Some(store) = store {
            return Ok(Some(NamedJournal::Store(store)));
        }
        let Some(word) = words.journal else {
            return Ok(None);
        };
        let start = match word {
            JournalWord::GoesOn(_) => JournalStart::GoesOn,
            JournalWord::Begins(_) => JournalStart::Begins,
        };
        let path = String::from_str(files.alloc(), word.path())?;
        Ok(Some(NamedJournal::File(path, start)))
    }

    /// Another one that names the same.
    pub(crate) fn share(&self) -> Result<NamedJournal, AllocError> {
        match self {
            NamedJournal::File(path, start) => Ok(NamedJournal::File(path.clone()?, *start)),
            NamedJournal::Store(store) => Ok(NamedJournal::Store(Arc::try_clone(store)?)),
        }
    }

    /// The store, where it is one.
    pub(crate) fn store(&self) -> Option<&ServedStore> {
        match self {
            NamedJournal::File(_, _) => None,
            NamedJournal::Store(store) => Some(&**store),
        }
    }
}

/// Looks whether the journal of this path, which is gone on with, is there: before tables are loaded and anything is
/// written.
pub(crate) fn check_is_there<F: Files + AllocGlobal>(
    files: &F,
    path: &str,
) -> Result<(), OpeningFault> {
    match find_journal(files, files.alloc(), path) {
        Ok(()) => Ok(()),
        Err(fault) => Err(OpeningFault::File(fault)),
    }
}

/// The journal, where there is one.
pub(crate) fn served_journal<'a, F: Files + AllocGlobal>(
    files: &'a F,
    journal: Option<&'a NamedJournal>,
) -> Result<Option<ServedJournal<'a, F>>, AllocError>
where
    F::File: JournalFile,
    ensures { IfOk result (λ served. is_some served ≡ is_some journal.entry) }
{
    match journal {
        Some(NamedJournal::File(path, start)) => Ok(Some(ServedJournal::File(OneFile {
            files,
            alloc: files.alloc(),
            path: path.as_str(),
            start: *start,
        }))),
        Some(NamedJournal::Store(store)) => Ok(Some(ServedJournal::Store(store.place(files)?))),
        None => Ok(None),
    }
}

/// What the place of a server's journal refers to.
#[derive(Drop)]
pub(crate) struct PlaceParts<'f, F: Files> {
    /// The journal, where there is one.
    pub(crate) path: Option<ServedJournal<'f, F>>,
    /// The second servers that confirm its commits.
    pub(crate) seconds: Arc<Seconds>,
    /// The bytes of the tables, which are counted while these are loaded.
    pub(crate) bytes: TableBytes,
}

impl<'f, F: Files> PlaceParts<'f, F>
where
    F::File: JournalFile,
{
    /// The journal's place, where there is a file; and whether it is told how many commits it has.
    pub(crate) fn place(
        &self,
        tells: bool,
    ) -> Option<JournalPlace<'_, ServedJournal<'f, F>, Seconds>>
        ensures { is_some result ≡ is_some self.now.path }
    {
        Some(JournalPlace {
            file: self.path.as_ref()?,
            confirms: &*self.seconds,
            bytes: &self.bytes,
            tells,
        })
    }
}
