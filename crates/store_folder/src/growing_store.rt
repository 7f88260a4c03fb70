//! A store that a server extends, as a file of groups that grows.

ghost use Rattle.std.specs.Prelude.{◌≡◌, [], true, None, IfOk};
ghost use Rattle.store_folder.specs.Reads.{seen_by, left_by};

use crate::fault::StoreFault;
use crate::finding::FoundStore;
use crate::read_notes::{ReadNote, note_read};
use crate::segment_reader::SegmentReader;
use ghost_list::GhostList;
use journal::{DiskError, GrowingFile};
use journal_file::{JournalFile, ReadPart};
use std::alloc::Global;
use std::cell::Cell;
use std::rt::Files;

/// The commits behind tables of a store that a server may extend: the head of a journal over these tables, and the
/// groups of the segments, one behind another. No lock is taken. After a call that fails, each further one fails.
#[derive(Drop)]
pub struct GrowingStore<'a, F: Files> {
    reader: SegmentReader<'a, F>,
    is_ended: bool,
    // Why nothing more is read.
    fault: Option<StoreFault>,
    // The reads and syncs; no memory holds them.
    notes: GhostList<ReadNote>,
}

impl<'a, F: Files> GrowingStore<'a, F>
where
    F::File: JournalFile,
{
    /// Opens a store that was found. Nothing was read of it. Whoever reads it counts in `passed` how many commits of the
    /// store come before what is read next: by that the segment that follows is told.
    pub fn open(
        files: &'a F,
        alloc: Global,
        folder: &'a str,
        found: &FoundStore,
        passed: &'a Cell<u64>,
    ) -> Result<GrowingStore<'a, F>, StoreFault>
        ensures { IfOk result (λ file. file.notes.items ≡ []) }
    {
        Ok(GrowingStore {
            reader: SegmentReader::open(files, alloc, folder, found, passed)?,
            is_ended: false,
            fault: None,
            notes: GhostList::new(),
        })
    }

    /// Why nothing more is read, where a call has failed.
    pub fn fault(&self) -> Option<&StoreFault> {
        self.fault.as_ref()
    }

    // Takes note of why nothing more is read.
    fn fail(&mut self, fault: StoreFault) -> DiskError
        ensures notes { self.new.notes ≡ self.old.notes }
        ensures ended { self.new.is_ended ≡ self.old.is_ended }
    {
        let error = match &fault {
            StoreFault::OutOfMemory => DiskError::OutOfMemory,
            _ => DiskError::Failed,
        };
        self.fault = Some(fault);
        error
    }
}

impl<'a, F: Files> GrowingFile for GrowingStore<'a, F>
where
    F::File: JournalFile,
{
    ghost seen = { λ f. seen_by f.notes.items };

    // What was synced stays.
    ghost may_leave = { λ f. left_by f.notes.items };

    ghost is_ended = { λ f. f.is_ended ≡ true };

    // What a store has is in no contract.
    ghost holds = { λ _. None };

    ghost as_known = { λ _. tt };

    fn read_behind(
        &mut self,
        _alloc: Global,
        at: usize,
        most: usize,
    ) -> Result<Vec<u8>, DiskError> {
        if self.fault.is_some() {
            return Err(DiskError::Failed);
        }
        match self.reader.read_behind(at, most) {
            Ok(bytes) => {
                self.is_ended = bytes.len() < most;
                Ok(note_read(&mut self.notes, ReadPart { at, bytes }))
            }
            Err(fault) => Err(self.fail(fault)),
        }
    }

    fn sync(&mut self) -> Result<(), DiskError> {
        if self.fault.is_some() {
            return Err(DiskError::Failed);
        }
        match self.reader.sync() {
            Ok(()) => {
                self.notes.push(&ReadNote::Synced);
                Ok(())
            }
            Err(fault) => Err(self.fail(fault)),
        }
    }
}
