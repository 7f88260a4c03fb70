//! A segment in its place in the one file.

ghost use Rattle.std.specs.Prelude.{◌≤◌, length};

use crate::segment::OpenSegment;
use std::io::{self, ErrorKind};

/// A segment that is open: how long its own head is, and from where on its groups stand in the one file.
#[derive(Drop)]
pub(crate) struct PlacedSegment<O: Drop> {
    pub(crate) file: O,
    pub(crate) head: u64,
    pub(crate) begin: u64,
}

/// Where a place of the one file is in a segment, whose groups stand there behind `begin` and here behind a head.
pub(crate) fn own_place(head: u64, begin: u64, place: u64) -> Option<u64> {
    head.checked_add(place.checked_sub(begin)?)
}

/// Reads bytes from a place on of the head that the one file begins with.
pub(crate) fn read_head(head: &[u8], buf: &mut [u8], place: usize) -> usize
    ensures { result ≤ length buf.new }
{
    let rest = head.get(place..).unwrap_or(&[]);
    let count = rest.len().min(buf.len());
    buf[..count].copy_from_slice(&rest[..count]);
    count
}

/// A call that a store's file does not take.
pub(crate) fn refused() -> io::Error {
    io::Error::from(ErrorKind::InvalidInput)
}

impl<O: Drop> PlacedSegment<O> {
    /// A segment whose groups stand from this place on.
    pub(crate) fn new(segment: OpenSegment<O>, begin: u64) -> PlacedSegment<O> {
        let OpenSegment {
            file,
            head,
            size: _,
            before: _,
            has_groups: _,
        } = segment;
        PlacedSegment { file, head, begin }
    }

    /// Where a place is in it. What is before it is in another one.
    pub(crate) fn own(&self, place: u64) -> io::Result<u64> {
        match own_place(self.head, self.begin, place) {
            Some(own) => Ok(own),
            None => Err(refused()),
        }
    }
}
