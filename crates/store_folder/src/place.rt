//! A store as the place of a journal.

ghost use Rattle.std.specs.Prelude.{◌≡◌, None, IfOk};
ghost use Rattle.journal_opening.specs.declared.start.JournalStart.TheVariants.{GoesOn};

use crate::fault::StoreFault;
use crate::file_name::{lock_path, segment_path};
use crate::finding::{FoundStore, find_store};
use crate::placed_segment::PlacedSegment;
use crate::segment::{OpenSegment, open_segment};
use crate::store_file::{ClosedSegment, SegmentRule, StoreFile};
use crate::turns::SegmentTurns;
use journal::{KeepsTorn, open_block};
use journal_file::{FileDisk, JournalFile, OpenError, TornFile, UnreadFile, keep_torn};
use journal_opening::{JournalStart, OpensJournal};
use std::alloc::{AllocError, Global};
use std::fs::{self, OpenFile, OpenOptions};
use std::io::{self, ErrorKind};
use std::rt::Files;

/// For what a store is opened.
#[derive(Clone, Copy, Debug, PartialEq, Eq)]
pub enum StoreUse {
    /// A server goes on with it, and has the store's lock.
    Serving,
    /// It is read, beside a server too.
    Reading,
    /// Its closed segments are read, beside a server too.
    Folding,
}

/// A store as the place of a journal: the commits behind the tables that were found.
#[derive(Drop)]
pub struct StorePlace<'a, F: Files> {
    pub files: &'a F,
    pub alloc: Global,
    pub folder: &'a str,
    pub found: &'a FoundStore,
    pub used: StoreUse,
    /// How many commits a segment has at most.
    pub most: u64,
    /// Which take note of a segment that cannot be made.
    pub turns: Option<&'a SegmentTurns>,
    /// The path of the segment that is gone on with.
    path: String,
}

// What is told of a store that could not be opened as it was found.
fn open_error(fault: StoreFault) -> io::Error {
    match fault {
        StoreFault::OutOfMemory => io::Error::from(ErrorKind::OutOfMemory),
        _ => io::Error::from(ErrorKind::NotFound),
    }
}

impl<'a, F: Files> StorePlace<'a, F>
where
    F::File: JournalFile,
{
    /// The place of the commits of a store that was found.
    pub fn new(
        files: &'a F,
        alloc: Global,
        folder: &'a str,
        found: &'a FoundStore,
        used: StoreUse,
    ) -> Result<StorePlace<'a, F>, AllocError>
        ensures { IfOk result (λ place. place.found.now ≡ found.now) }
    {
        Ok(StorePlace {
            files,
            alloc,
            folder,
            found,
            used,
            most: u64::MAX,
            turns: None,
            path: segment_path(alloc, folder, found.last())?,
        })
    }

    // The file of the store's lock.
    fn lock_file(&self) -> io::Result<F::File> {
        let path = lock_path(self.alloc, self.folder)?;
        OpenOptions::new()
            .read(true)
            .write(true)
            .create(true)
            .open(self.files, path.as_str())
    }

    // Another server may have gone on with the store since it was found, in a later segment.
    fn check_last(&self) -> Result<(), OpenError> {
        match find_store(self.files, self.alloc, self.folder, None) {
            Ok(found) if found.last() == self.found.last() => Ok(()),
            Ok(_) => Err(OpenError::InUse),
            Err(fault) => Err(OpenError::Io(open_error(fault))),
        }
    }

    // The store's lock, where it is served.
    fn locked(&self) -> Result<Option<F::File>, OpenError> {
        if self.used != StoreUse::Serving {
            return Ok(None);
        }
        let file = self.lock_file()?;
        file.lock_alone()?;
        self.check_last()?;
        Ok(Some(file))
    }

    // A segment that was found, on the disk as it reads.
    fn segment(&self, number: u64, is_written: bool) -> io::Result<OpenSegment<F::File>> {
        let of = &self.found.sizes().of;
        match open_segment(self.files, self.alloc, self.folder, number, of, is_written) {
            Ok(segment) => Ok(segment),
            Err(fault) => Err(open_error(fault)),
        }
    }

    // The closed segments, one behind another from this place on.
    fn closed(&self, begin: u64) -> io::Result<Vec<ClosedSegment>> {
        let mut closed = Vec::new(self.alloc);
        let mut begin = begin;
        for number in self.found.closed() {
            let segment = self.segment(*number, false)?;
            let end = begin.saturating_add(segment.closed_groups());
            closed.push(ClosedSegment {
                number: *number,
                head: segment.head,
                begin,
                end,
            })?;
            begin = end;
        }
        Ok(closed)
    }

    // The last segment, whose groups stand from this place on, where it is not left out.
    fn last(&self, begin: u64) -> io::Result<Option<PlacedSegment<F::File>>> {
        if self.used == StoreUse::Folding {
            return Ok(None);
        }
        let segment = self.segment(self.found.last(), self.used == StoreUse::Serving)?;
        Ok(Some(PlacedSegment::new(segment, begin)))
    }

    // Where segments are made.
    fn rule(&self) -> Result<SegmentRule<'a, F>, AllocError> {
        Ok(SegmentRule {
            files: self.files,
            alloc: self.alloc,
            folder: self.folder,
            of: self.found.sizes().of.clone()?,
            after: self.found.after(),
            most: self.most,
            turns: self.turns,
        })
    }

    // The segments as one file, behind the head of a journal over the tables.
    fn file(&self, lock: Option<F::File>) -> io::Result<StoreFile<'a, F>> {
        let head = open_block(self.alloc, &self.found.sizes().journal_head(self.alloc)?)?;
        let begin = head.len() as u64;
        let closed = self.closed(begin)?;
        let end = match closed.last() {
            Some(closed) => closed.end,
            None => begin,
        };
        let last = self.last(end)?;
        fs::open(self.files, self.folder)?.sync_all()?;
        Ok(StoreFile {
            rule: self.rule()?,
            head,
            closed,
            last,
            last_number: self.found.last(),
            begun: self.found.last().saturating_sub(self.found.after()),
            place: 0,
            lock,
        })
    }

    fn opened(&self) -> Result<StoreFile<'a, F>, OpenError> {
        let lock = self.locked()?;
        Ok(self.file(lock)?)
    }
}

impl<'a, F: Files> OpensJournal for StorePlace<'a, F>
where
    F::File: JournalFile,
{
    type Disk = FileDisk<StoreFile<'a, F>>;

    type Opened = UnreadFile<StoreFile<'a, F>>;

    ghost holds = { λ _. None };

    ghost is_taken = { λ _. Unit {0} };

    ghost is_missing = { λ _. Unit {0} };

    ghost starts = { λ _. GoesOn };

    fn path(&self) -> &str {
        self.path.as_str()
    }

    fn start(&self) -> JournalStart {
        JournalStart::GoesOn
    }

    fn open(&self, _alloc: Global) -> Result<UnreadFile<StoreFile<'a, F>>, OpenError> {
        Ok(UnreadFile::of(self.opened()?))
    }
}

impl<'a, F: Files> KeepsTorn for StorePlace<'a, F> {
    type Kept = TornFile;

    ghost bytes = { λ kept. kept };

    fn keep_torn(&self, torn: Vec<u8>) -> io::Result<TornFile> {
        keep_torn(self.files, self.alloc, self.path.as_str(), torn)
    }
}
