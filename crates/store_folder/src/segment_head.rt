//! The head of a segment: behind how many commits of which store it begins, and how long the segment before it is.

ghost use Rattle.std.specs.Prelude.{◌≡◌, ◌++◌, ℕ, List, length, IfOk, IfSome, MatchOption, OnOk};
ghost use Rattle.ssb_text.specs.TextLines.{HasNoLineEnd};
ghost use Rattle.store_folder.specs.Texts.{head_block, head_text, line, BeginsWith, IsHead};

use itoa::Buffer;
use journal::open_block;
use memchr::memchr;
use ssb_journal::{CHECKSUM_LINE, seal};
use ssb_schema::number;
use std::alloc::{AllocError, Global};

// Its first line.
const TITLE: &[u8] = b"ssb_live journal 3\n";

// What stands between a word and a value.
const BAR: &[u8] = b"|";

// The bytes of a gate, the length of a group and the checksum of its text.
const BEFORE_TEXT: usize = 18 + CHECKSUM_LINE;

/// How many bytes are read of a segment to find its head.
pub(crate) const MOST_HEAD: usize = 512;

/// The first text of a segment.
#[derive(Clone, Copy, Debug, PartialEq, Eq)]
pub struct SegmentHead<'a> {
    /// How many commits of the store come before it.
    pub after: u64,
    /// Which store it is of: the digits of the checksum of the head of a journal over its first tables.
    pub of: &'a [u8],
    /// How many bytes the segment before it has; none where it is the first.
    pub before: u64,
}

/// How many bytes a segment of this number has at most before its first group: those of the longest head, and a closed
/// gate. With a group it has more, since no head is twenty bytes shorter than another of that number.
pub(crate) fn most_before_groups(alloc: Global, number: u64, of: &[u8]) -> Result<u64, AllocError> {
    let longest = SegmentHead {
        after: number,
        of,
        before: u64::MAX,
    };
    let block = longest.block(alloc)?;
    Ok((block.len() as u64).saturating_add(1))
}

/// Adds a line: a word, a bar and a value.
pub(crate) fn push_line(text: &mut Vec<u8>, word: &[u8], value: &[u8]) -> Result<(), AllocError>
    ensures { OnOk result (text.new.items ≡ text.old.items ++ line word.now value.now) }
{
    text.extend_from_slice(word)?;
    text.push(b'|')?;
    text.extend_from_slice(value)?;
    text.push(b'\n')?;
    Ok(())
}

/// The value behind a word and a bar, which a text begins with, and what stands behind that line.
pub(crate) fn line_behind<'a>(text: &'a [u8], word: &[u8]) -> Option<(&'a [u8], &'a [u8])>
    ensures { (value rest : List ℕ) → HasNoLineEnd value → text.now ≡ line word.now value ++ rest
        → MatchOption result ⊥ (λ parts. (parts.0.now ≡ value) × (parts.1.now ≡ rest)) }
{
    let behind = text.strip_prefix(word)?;
    let told = behind.strip_prefix(BAR)?;
    let end = memchr(b'\n', told)?;
    Some((&told[..end], &told[end + 1..]))
}

impl<'a> SegmentHead<'a> {
    /// It as the first group of a file, behind an open gate.
    pub fn block(&self, alloc: Global) -> Result<Vec<u8>, AllocError>
        ensures { IfOk result (λ block. block.items ≡ head_block self.now.after self.now.of.now self.now.before) }
    {
        let mut text = Vec::from_slice(alloc, TITLE)?;
        push_line(
            &mut text,
            b"after",
            Buffer::new().format(self.after).as_bytes(),
        )?;
        push_line(&mut text, b"of", self.of)?;
        push_line(
            &mut text,
            b"before",
            Buffer::new().format(self.before).as_bytes(),
        )?;
        open_block(alloc, &seal(alloc, &text)?)
    }

    // The head that a text begins with.
    fn of_text(text: &'a [u8]) -> Option<SegmentHead<'a>>
        ensures { (after before : ℕ) (store rest : List ℕ) → IsHead after store before
            → text.now ≡ head_text after store before ++ rest → MatchOption result ⊥
            (λ head. (head.after ≡ after) × (head.of.now ≡ store) × (head.before ≡ before)) }
    {
        let text = text.strip_prefix(TITLE)?;
        let (after, text) = line_behind(text, b"after")?;
        let (of, text) = line_behind(text, b"of")?;
        let (before, _) = line_behind(text, b"before")?;
        Some(SegmentHead {
            after: number(after)?,
            of,
            before: number(before)?,
        })
    }

    /// The head that the first bytes of a file are, and how many bytes it has; none where they are no head.
    pub fn read(
        alloc: Global,
        bytes: &'a [u8],
    ) -> Result<Option<(SegmentHead<'a>, usize)>, AllocError>
        ensures found { IfOk result (λ found. IfSome found (λ head.
            BeginsWith bytes.now (head_block head.0.after head.0.of.now head.0.before)
            × (head.1 ≡ length (head_block head.0.after head.0.of.now head.0.before)))) }
        ensures read_back { (after before : ℕ) (store rest : List ℕ) → IsHead after store before
            → bytes.now ≡ head_block after store before ++ rest → IfOk result (λ found. MatchOption found ⊥
            (λ head. (head.0.after ≡ after) × (head.0.of.now ≡ store) × (head.0.before ≡ before))) }
    {
        if bytes.len() < BEFORE_TEXT {
            return Ok(None);
        }
        let text = &bytes[BEFORE_TEXT..];
        let Some(head) = SegmentHead::of_text(text) else {
            return Ok(None);
        };
        let block = head.block(alloc)?;
        if bytes.starts_with(&block) {
            Ok(Some((head, block.len())))
        } else {
            Ok(None)
        }
    }
}
