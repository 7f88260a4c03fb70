//! A segment whose file is open.

use crate::fault::StoreFault;
use crate::file_name::segment_path;
use crate::segment_head::{MOST_HEAD, SegmentHead, most_before_groups};
use journal::CLOSED;
use journal_file::JournalFile;
use std::alloc::Global;
use std::fs::{self, OpenFile, OpenOptions};
use std::io::{self, ErrorKind};
use std::os::unix::fs::FileExt;
use std::rt::Files;

/// A segment whose file is open: how long its own head is, and how many bytes it has.
#[derive(Drop)]
pub struct OpenSegment<O: Drop> {
    pub file: O,
    pub head: u64,
    pub size: u64,
    /// How long the segment before it is, as its head tells.
    pub before: u64,
    /// Whether a group counts in it: the gate behind its head is open, and that is on the disk.
    pub has_groups: bool,
}

impl<O: Drop> OpenSegment<O> {
    /// How many bytes of groups it has, where it is closed: a closed gate stands behind them.
    pub(crate) fn closed_groups(&self) -> u64 {
        self.size.saturating_sub(self.head).saturating_sub(1)
    }
}

/// What stands in a file under a segment's name.
#[derive(Drop)]
enum Looked<O: Drop> {
    Segment(OpenSegment<O>),
    /// A turn that was cut off has left it: it has no whole head, and no group fits into it.
    CutOff,
    /// It is no segment of this number of this store.
    Other,
}

// The first bytes of a file, as many as a head may have, and a gate.
fn first_bytes<O: FileExt>(alloc: Global, file: &O) -> io::Result<Vec<u8>> {
    let mut bytes = vec![in alloc; 0; MOST_HEAD]?;
    let mut filled = 0usize;
    // Each read that does not end it gives a byte at least.
    for _ in 0..MOST_HEAD {
        if filled >= bytes.len() {
            break;
        }
        let count = file.read_at(&mut bytes[filled..], filled as u64)?;
        if count == 0 {
            break;
        }
        filled += count;
    }
    bytes.truncate(filled);
    Ok(bytes)
}

// What a file that was opened is, by its first bytes, where it has so many.
fn judge<O: Drop>(
    alloc: Global,
    file: O,
    bytes: &[u8],
    size: u64,
    number: u64,
    of: &[u8],
) -> io::Result<Looked<O>> {
    let Some((head, length)) = SegmentHead::read(alloc, bytes)? else {
        if size <= most_before_groups(alloc, number, of)? {
            return Ok(Looked::CutOff);
        }
        return Ok(Looked::Other);
    };
    if head.after != number || head.of != of {
        return Ok(Looked::Other);
    }
    let before = head.before;
    // The gate behind the head is open, as the head's own is.
    let has_groups = bytes.get(length) == bytes.first();
    Ok(Looked::Segment(OpenSegment {
        file,
        head: length as u64,
        size,
        before,
        has_groups,
    }))
}

// What a file that was opened is. It is synced once its first bytes are read, so that a group that counts by them is on
// the disk.
fn look<O: OpenFile + JournalFile + Drop>(
    alloc: Global,
    file: O,
    number: u64,
    of: &[u8],
) -> io::Result<Looked<O>> {
    let bytes = first_bytes(alloc, &file)?;
    file.sync_all()?;
    let size = file.metadata()?.len();
    judge(alloc, file, &bytes, size, number, of)
}

// The same, where a file is synced only if it has commits: for looks that come each few milliseconds.
fn look_often<O: OpenFile + JournalFile + Drop>(
    alloc: Global,
    file: O,
    number: u64,
    of: &[u8],
) -> io::Result<Looked<O>> {
    // Asked for before the bytes are read: of a file that is being made these are no fewer then, so it is not taken for
    // one that has more than a head and is none.
    let size = file.metadata()?.len();
    let bytes = first_bytes(alloc, &file)?;
    let looked = judge(alloc, file, &bytes, size, number, of)?;
    if let Looked::Segment(segment) = &looked {
        if segment.has_groups {
            segment.file.sync_all()?;
        }
    }
    Ok(looked)
}

/// Opens the segment of this number of a store, to be written where that is asked for; none where a turn was cut off as
/// it made the file.
pub(crate) fn open_any<F: Files>(
    files: &F,
    alloc: Global,
    folder: &str,
    number: u64,
    of: &[u8],
    is_written: bool,
) -> Result<Option<OpenSegment<F::File>>, StoreFault>
where
    F::File: JournalFile,
{
    let path = segment_path(alloc, folder, number)?;
    let opened = OpenOptions::new()
        .read(true)
        .write(is_written)
        .open(files, path.as_str());
    let file = match opened {
        Ok(file) => file,
        Err(error) => return Err(StoreFault::of_path(path, error)),
    };
    match look(alloc, file, number, of) {
        Ok(Looked::Segment(segment)) => Ok(Some(segment)),
        Ok(Looked::CutOff) => Ok(None),
        Ok(Looked::Other) => Err(StoreFault::Damaged(path)),
        Err(error) => Err(StoreFault::of_path(path, error)),
    }
}

/// Opens a segment likewise that is whole: one of which a start makes commits again.
pub(crate) fn open_segment<F: Files>(
    files: &F,
    alloc: Global,
    folder: &str,
    number: u64,
    of: &[u8],
    is_written: bool,
) -> Result<OpenSegment<F::File>, StoreFault>
where
    F::File: JournalFile,
{
    match open_any(files, alloc, folder, number, of, is_written)? {
        Some(segment) => Ok(segment),
        None => Err(StoreFault::Damaged(segment_path(alloc, folder, number)?)),
    }
}

/// Opens a segment that has commits, to be read; none where it has none yet, or a checkpoint has taken it away.
pub(crate) fn open_later<F: Files>(
    files: &F,
    alloc: Global,
    folder: &str,
    number: u64,
    of: &[u8],
) -> Result<Option<OpenSegment<F::File>>, StoreFault>
where
    F::File: JournalFile,
{
    let path = segment_path(alloc, folder, number)?;
    let file = match fs::open(files, path.as_str()) {
        Ok(file) => file,
        Err(error) if error.kind() == ErrorKind::NotFound => return Ok(None),
        Err(error) => return Err(StoreFault::of_path(path, error)),
    };
    match look_often(alloc, file, number, of) {
        Ok(Looked::Segment(segment)) if segment.has_groups => Ok(Some(segment)),
        Ok(Looked::Other) => Err(StoreFault::Damaged(path)),
        Ok(_) => Ok(None),
        Err(error) => Err(StoreFault::of_path(path, error)),
    }
}

/// Makes a segment that has no commits, and syncs it. There is no file of that name yet.
pub(crate) fn made_segment<F: Files>(
    files: &F,
    alloc: Global,
    folder: &str,
    head: &SegmentHead<'_>,
) -> io::Result<OpenSegment<F::File>>
where
    F::File: JournalFile,
{
    let path = segment_path(alloc, folder, head.after)?;
    let mut bytes = head.block(alloc)?;
    let length = bytes.len() as u64;
    bytes.push(CLOSED)?;
    let file = OpenOptions::new()
        .read(true)
        .write(true)
        .create_new(true)
        .open(files, path.as_str())?;
    file.write_all_at(&bytes, 0)?;
    file.sync_all()?;
    Ok(OpenSegment {
        file,
        head: length,
        size: bytes.len() as u64,
        before: head.before,
        has_groups: false,
    })
}
