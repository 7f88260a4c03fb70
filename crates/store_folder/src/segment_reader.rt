//! The segments of a store, one behind another, as they are read while a server extends them.

ghost use Rattle.std.specs.Io.{ReadsAtMost};
ghost use Rattle.std.specs.Prelude.{◌≡◌, ◌≤◌, length, IfOk};

use crate::fault::StoreFault;
use crate::file_name::segment_path;
use crate::finding::{FoundStore, list_store};
use crate::placed_segment::{PlacedSegment, read_head};
use crate::segment::{OpenSegment, open_later, open_segment};
use journal::open_block;
use journal_file::JournalFile;
use ssb_schema::number;
use std::alloc::Global;
use std::cell::Cell;
use std::fs::OpenFile;
use std::io::{self, ErrorKind};
use std::os::unix::fs::FileExt;
use std::rt::Files;

// How many bytes a gate and the length of a group are.
const BEFORE_GROUP: u64 = 18;

/// The commits behind tables of a store as one file that grows: the head of a journal over these tables, and the groups
/// of one segment and those behind it. It is read front to back, so one segment is open, and stays readable when a
/// checkpoint has taken it away.
#[derive(Drop)]
pub(crate) struct SegmentReader<'a, F: Files> {
    files: &'a F,
    alloc: Global,
    folder: &'a str,
    /// Which store it is.
    of: Vec<u8>,
    /// The head of the journal behind an open gate, which is in no file.
    head: Vec<u8>,
    /// The number of the segment that is read.
    number: u64,
    segment: PlacedSegment<F::File>,
    /// How many commits of the store come before what is read next, by the count of who reads it.
    passed: &'a Cell<u64>,
}

impl<'a, F: Files> SegmentReader<'a, F>
where
    F::File: JournalFile,
{
    /// A store that was found: its first segment behind the tables is open, and nothing was read.
    pub(crate) fn open(
        files: &'a F,
        alloc: Global,
        folder: &'a str,
        found: &FoundStore,
        passed: &'a Cell<u64>,
    ) -> Result<SegmentReader<'a, F>, StoreFault> {
        let sizes = found.sizes();
        let number = sizes.after;
        let head = open_block(alloc, &sizes.journal_head(alloc)?)?;
        let segment = open_segment(files, alloc, folder, number, &sizes.of, false)?;
        let begin = head.len() as u64;
        Ok(SegmentReader {
            files,
            alloc,
            folder,
            of: sizes.of.clone()?,
            head,
            number,
            segment: PlacedSegment::new(segment, begin),
            passed,
        })
    }

    // Why the segment that is read was not read or synced.
    fn fault_of(&self, error: io::Error) -> StoreFault {
        match segment_path(self.alloc, self.folder, self.number) {
            Ok(path) => StoreFault::of_path(path, error),
            Err(_) => StoreFault::OutOfMemory,
        }
    }

    // Reads bytes from a place on: of the head, or of the segment.
    fn read_from(&self, buf: &mut [u8], place: u64) -> io::Result<usize>
        ensures { ReadsAtMost result buf.new }
    {
        if place < self.head.len() as u64 {
            return Ok(read_head(&self.head, buf, place as usize));
        }
        self.segment.file.read_at(buf, self.segment.own(place)?)
    }

    // Reads from a place on, until the bytes are full or the segment ends: how many were read.
    fn fill_at(&self, bytes: &mut [u8], at: usize) -> io::Result<usize>
        ensures few { IfOk result (λ count. count ≤ length bytes.old) }
        ensures size { length bytes.new ≡ length bytes.old }
    {
        let mut filled = 0usize;
        for _ in 0..u64::MAX {
            if filled >= bytes.len() {
                break;
            }
            let place = (at as u64).saturating_add(filled as u64);
            match self.read_from(&mut bytes[filled..], place) {
                Ok(0) => break,
                Ok(count) => filled += count,
                Err(error) if error.kind() == ErrorKind::Interrupted => {}
                Err(error) => return Err(error),
            }
        }
        Ok(filled)
    }

    // The bytes from a place on, so many at most, and fewer only where the segment ends.
    fn part(&self, at: usize, most: usize) -> Result<Vec<u8>, StoreFault>
        ensures { IfOk result (λ bytes. length bytes.items ≤ most) }
    {
        let mut bytes = vec![in self.alloc; 0; most]?;
        match self.fill_at(bytes.as_mut_slice(), at) {
            Ok(filled) => {
                bytes.truncate(filled);
                Ok(bytes)
            }
            Err(error) => Err(self.fault_of(error)),
        }
    }

    // Whether bytes begin with a group that counts: its gate is open, as the head's own is, and it is whole.
    fn begin_with_group(&self, bytes: &[u8]) -> bool {
        // Behind the gate and a space stand fifteen digits.
        let Some(digits) = bytes.get(2..17) else {
            return false;
        };
        match number(digits) {
            Some(told) => {
                let end = BEFORE_GROUP.saturating_add(told);
                bytes.first() == self.head.first() && bytes.len() as u64 >= end
            }
            None => false,
        }
    }

    // The first later segment that has commits, and its number.
    fn later(&self) -> Result<Option<(u64, OpenSegment<F::File>)>, StoreFault> {
        let (files, alloc, folder) = (self.files, self.alloc, self.folder);
        let numbers = match list_store(files, alloc, folder) {
            Ok(numbers) => numbers,
            Err(error) => {
                return Err(StoreFault::of_path(String::from_str(alloc, folder)?, error));
            }
        };
        for number in &numbers.segments {
            if *number > self.number {
                if let Some(segment) = open_later(files, alloc, folder, *number, &self.of)? {
                    return Ok(Some((*number, segment)));
                }
            }
        }
        Ok(None)
    }

    // Whether a later segment goes on at this place: as many commits come before it as were read, and all of the one
    // before it was, but for the closed gate at its end.
    fn goes_on(&self, at: usize, number: u64, next: &OpenSegment<F::File>) -> bool {
        let end = match self.segment.own(at as u64) {
            Ok(own) => own.checked_add(1),
            Err(_) => None,
        };
        number == self.passed.get() && Some(next.before) == end
    }

    // Goes on in a later segment from this place on. What was read of the one before is on the disk then.
    fn turn(
        &mut self,
        at: usize,
        number: u64,
        next: OpenSegment<F::File>,
    ) -> Result<(), StoreFault> {
        self.sync()?;
        self.number = number;
        self.segment = PlacedSegment::new(next, at as u64);
        Ok(())
    }

    /// Reads from a place on, so many bytes at most, and fewer only at the end; behind the last group of a segment, of
    /// the one that follows. All groups before the place were read, and their commits counted. Where commits are missing
    /// before the first segment that is there, that is told.
    pub(crate) fn read_behind(&mut self, at: usize, most: usize) -> Result<Vec<u8>, StoreFault>
        ensures { IfOk result (λ bytes. length bytes.items ≤ most) }
    {
        let bytes = self.part(at, most)?;
        if bytes.len() == most || self.begin_with_group(&bytes) {
            return Ok(bytes);
        }
        let Some((number, next)) = self.later()? else {
            return Ok(bytes);
        };
        if self.goes_on(at, number, &next) {
            self.turn(at, number, next)?;
            return self.part(at, most);
        }
        // It may have got groups since it was read. From now on it gets none, for a later one has some.
        let bytes = self.part(at, most)?;
        if bytes.len() == most || self.begin_with_group(&bytes) {
            return Ok(bytes);
        }
        Err(StoreFault::Gap(number))
    }

    /// Puts on the disk what was read of the segment.
    pub(crate) fn sync(&mut self) -> Result<(), StoreFault> {
        match self.segment.file.sync_data() {
            Ok(()) => Ok(()),
            Err(error) => Err(self.fault_of(error)),
        }
    }
}
