//! The commits behind tables of a store as one file.

ghost use Rattle.std.specs.Io.{ReadsAtMost};
ghost use Rattle.std.specs.Prelude.{◌≡◌, IfOk};
ghost use Rattle.store_core.specs.Calls.{Ended, Ready, segment_known};

use crate::file_name::segment_path;
use crate::placed_segment::{PlacedSegment, own_place, read_head, refused};
use crate::segment_head::SegmentHead;
use crate::steps::{BegunSegment, StoreSteps};
use crate::turns::SegmentTurns;
use journal_file::{JournalFile, OpenError};
use std::alloc::{AllocError, Global};
use std::fs::{self, Metadata, OpenFile};
use std::io::{self, Read};
use std::os::unix::fs::FileExt;
use std::rt::Files;

/// A closed segment: how long its own head is, and from where to where its groups stand in the one file.
#[derive(Clone, Copy, Debug)]
pub(crate) struct ClosedSegment {
    pub(crate) number: u64,
    pub(crate) head: u64,
    pub(crate) begin: u64,
    pub(crate) end: u64,
}

/// Where segments are made, and how many commits one has at most.
#[derive(Drop)]
pub(crate) struct SegmentRule<'a, F: Files> {
    pub(crate) files: &'a F,
    pub(crate) alloc: Global,
    pub(crate) folder: &'a str,
    /// Which store it is.
    pub(crate) of: Vec<u8>,
    /// After how many commits the tables are.
    pub(crate) after: u64,
    pub(crate) most: u64,
    /// Which take note of a segment that cannot be made.
    pub(crate) turns: Option<&'a SegmentTurns>,
}

/// The commits behind tables of a store as one file: the head of a journal over these tables, and the groups of the
/// segments, one behind another. It is written in its last segment alone. A closed one is opened as it is read, so
/// that its space is free once a checkpoint has taken it away.
#[derive(Drop)]
pub struct StoreFile<'a, F: Files> {
    pub(crate) rule: SegmentRule<'a, F>,
    /// The head of the journal behind an open gate, which is in no file.
    pub(crate) head: Vec<u8>,
    pub(crate) closed: Vec<ClosedSegment>,
    /// The last segment, which is written: those before it are not any more. None where closed segments alone are read.
    pub(crate) last: Option<PlacedSegment<F::File>>,
    /// The number of the last segment.
    pub(crate) last_number: u64,
    /// How many commits behind the tables the last segment begins, or the one that could not be made.
    pub(crate) begun: u64,
    /// What is read next.
    pub(crate) place: u64,
    /// The lock of the store, where it is served.
    pub(crate) lock: Option<F::File>,
}

impl<'a, F: Files> StoreFile<'a, F>
where
    F::File: JournalFile,
{
    /// A journal that is in one file, which is locked and on the disk.
    pub(crate) fn single(files: &'a F, alloc: Global, file: F::File) -> StoreFile<'a, F> {
        StoreFile {
            rule: SegmentRule {
                files,
                alloc,
                folder: "",
                of: Vec::new(alloc),
                after: 0,
                most: u64::MAX,
                turns: None,
            },
            head: Vec::new(alloc),
            closed: Vec::new(alloc),
            last: Some(PlacedSegment {
                file,
                head: 0,
                begin: 0,
            }),
            last_number: 0,
            begun: 0,
            place: 0,
            lock: None,
        }
    }

    // Reads bytes of a closed segment.
    fn read_closed(&self, closed: ClosedSegment, buf: &mut [u8], place: u64) -> io::Result<usize>
        ensures { ReadsAtMost result buf.new }
    {
        let Some(own) = own_place(closed.head, closed.begin, place) else {
            return Err(refused());
        };
        let path = segment_path(self.rule.alloc, self.rule.folder, closed.number)?;
        let file = fs::open(self.rule.files, path.as_str())?;
        let most = closed.end.saturating_sub(place).min(buf.len() as u64) as usize;
        file.read_at(&mut buf[..most], own)
    }

    // Reads bytes from a place on: of the head, or of one segment.
    fn read_from(&self, buf: &mut [u8], place: u64) -> io::Result<usize>
        ensures { ReadsAtMost result buf.new }
    {
        if place < self.head.len() as u64 {
            return Ok(read_head(&self.head, buf, place as usize));
        }
        for closed in &self.closed {
            if place < closed.end {
                return self.read_closed(*closed, buf, place);
            }
        }
        match &self.last {
            Some(last) => last.file.read_at(buf, last.own(place)?),
            None => Ok(0),
        }
    }

    // The segment that is written.
    fn last(&self) -> io::Result<&PlacedSegment<F::File>> {
        match &self.last {
            Some(last) => Ok(last),
            None => Err(refused()),
        }
    }

    // Makes the segment behind so many commits of the store, where all before is on the disk, and syncs its name; and
    // what the last one is from then on.
    fn next_segment(
        &self,
        steps: &mut StoreSteps<'a, F>,
        after: u64,
    ) -> io::Result<(ClosedSegment, BegunSegment<F::File>)>
        requires { segment_known steps.old ≡ Ended self.now.last_number after }
        ensures { IfOk result (λ next. segment_known steps.new ≡ Ready next.1.before next.1.number) }
    {
        let last = self.last()?;
        let size = last.file.metadata()?.len();
        let head = SegmentHead {
            after,
            of: &self.rule.of,
            before: size,
        };
        let begun = steps.begin_segment(self.last_number, &head)?;
        steps.sync_names()?;
        // The closed gate at the end of the last one is the one that the next begins with.
        let groups = size.saturating_sub(last.head).saturating_sub(1);
        let end = last.begin.saturating_add(groups);
        let closed = ClosedSegment {
            number: self.last_number,
            head: last.head,
            begin: last.begin,
            end,
        };
        Ok((closed, begun))
    }

    // Goes on in the next segment.
    fn go_on(&mut self, steps: &mut StoreSteps<'a, F>, after: u64) -> io::Result<()>
        requires { segment_known steps.old ≡ Ended self.old.last_number after }
    {
        self.closed.try_reserve(1)?;
        let (closed, begun) = self.next_segment(steps, after)?;
        self.closed.push(closed)?;
        self.last = Some(PlacedSegment::new(steps.go_on(begun), closed.end));
        self.last_number = after;
        Ok(())
    }

    // Takes note that the last segment goes on.
    fn note_unmade(&self) {
        if let Some(turns) = self.rule.turns {
            turns.note_unmade(self.last_number);
        }
    }
}

impl<'a, F: Files> Read for StoreFile<'a, F>
where
    F::File: JournalFile,
{
    ghost use Rattle.std.specs.Prelude.{None};

    // What a store has is in no contract.
    ghost remaining = { λ _. None };

    fn read(&mut self, buf: &mut [u8]) -> io::Result<usize> {
        let count = self.read_from(buf, self.place)?;
        if let (0, Some(last)) = (count, &self.last) {
            // A server may have written while it was read: at its end, what was read is on the disk.
            last.file.sync_data()?;
        }
        self.place = self.place.saturating_add(count as u64);
        Ok(count)
    }
}

impl<'a, F: Files> OpenFile for StoreFile<'a, F>
where
    F::File: JournalFile,
{
    fn metadata(&self) -> io::Result<Metadata> {
        self.last()?.file.metadata()
    }

    fn set_len(&self, size: u64) -> io::Result<()> {
        let last = self.last()?;
        last.file.set_len(last.own(size)?)
    }

    fn sync_all(&self) -> io::Result<()> {
        self.last()?.file.sync_all()
    }

    fn sync_data(&self) -> io::Result<()> {
        self.last()?.file.sync_data()
    }
}

impl<'a, F: Files> FileExt for StoreFile<'a, F>
where
    F::File: JournalFile,
{
    fn read_at(&self, buf: &mut [u8], offset: u64) -> io::Result<usize> {
        self.read_from(buf, offset)
    }

    fn write_at(&self, buf: &[u8], offset: u64) -> io::Result<usize> {
        let last = self.last()?;
        last.file.write_at(buf, last.own(offset)?)
    }
}

impl<'a, F: Files> JournalFile for StoreFile<'a, F>
where
    F::File: JournalFile,
{
    fn lock_alone(&self) -> Result<(), OpenError> {
        match &self.lock {
            Some(lock) => lock.lock_alone(),
            None => Ok(()),
        }
    }

    // The next segment begins where the last one has as many commits as it may have. Where it cannot be made, that is
    // told, and it is tried again so many commits later.
    fn rest(&mut self, count: u64) {
        if self.rule.most == u64::MAX || count.saturating_sub(self.begun) < self.rule.most {
            return;
        }
        let after = self.rule.after.saturating_add(count);
        let rule = &self.rule;
        let (files, alloc, folder) = (rule.files, rule.alloc, rule.folder);
        let mut steps = StoreSteps::turn(files, alloc, folder, self.last_number, after);
        if self.go_on(&mut steps, after).is_err() {
            self.note_unmade();
        }
        self.begun = count;
    }
}
