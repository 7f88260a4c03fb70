//! How long the bar of a sum is, and its text.

ghost use Rattle.std.specs.Prelude.{◌≡◌, ◌++◌, OnOk};
ghost use Rattle.ssb_formats.specs.BarsText.{bar_length, bar_text, greatest_of, mark_of, room_beside, scale_of, size_of};

use crate::alignment::{Alignment, push_times};
use ssb_answers::ResultRow;
use std::alloc::AllocError;

/// How long bars are.
#[derive(Clone, Copy)]
pub(crate) struct Scale {
    /// The columns of a terminal that the greatest sum's bar takes.
    pub room: usize,
    /// How great that sum is, whatever its sign.
    pub greatest: u64,
}

// What columns, and two spaces behind each, leave of a width.
pub(crate) fn room_beside(width: usize, alignments: &[Alignment]) -> usize
    ensures { result ≡ room_beside width alignments.now }
{
    let mut room = width;
    for alignment in alignments {
        room = room.saturating_sub(alignment.width).saturating_sub(2);
    }
    room
}

// How great a sum is.
pub(crate) fn size_of(sum: Option<i64>) -> u64
    ensures { result ≡ size_of sum }
{
    match sum {
        Some(sum) => sum.unsigned_abs(),
        None => 0,
    }
}

// How great the greatest sum is.
pub(crate) fn greatest_of(rows: &[ResultRow]) -> u64
    ensures { result ≡ greatest_of rows.now }
{
    let mut greatest = 0;
    for row in rows {
        greatest = greatest.max(size_of(row.sum));
    }
    greatest
}

/// The scale of the bars of rows, beside columns, in a width.
pub(crate) fn scale_of(width: usize, alignments: &[Alignment], rows: &[ResultRow]) -> Scale
    ensures { result ≡ scale_of width alignments.now rows.now }
{
    Scale {
        room: room_beside(width, alignments),
        greatest: greatest_of(rows),
    }
}

// The length of the bar of a sum.
pub(crate) fn bar_length(scale: Scale, size: u64) -> usize
    ensures { result ≡ bar_length scale size }
{
    if scale.greatest == 0 {
        return 0;
    }
    let room = scale.room as u128;
    let length = size as u128 * room / scale.greatest as u128;
    length.min(room) as usize
}

// What the bar of a sum is drawn with.
pub(crate) fn mark_of(sum: Option<i64>) -> u8
    ensures { result ≡ mark_of sum }
{
    match sum {
        Some(sum) if sum < 0 => b'-',
        _ => b'#',
    }
}

/// Adds the bar of a sum, behind two spaces; nothing where it has no length.
pub(crate) fn push_bar(text: &mut Vec<u8>, scale: Scale, sum: Option<i64>) -> Result<(), AllocError>
    ensures { OnOk result (text.new.items ≡ text.old.items ++ bar_text scale sum) }
{
    let length = bar_length(scale, size_of(sum));
    if length == 0 {
        return Ok(());
    }
    text.extend_from_slice(b"  ")?;
    push_times(text, length, mark_of(sum))
}
