//! What `sizes` tells of the tables of a store.

ghost use Rattle.std.specs.Prelude.{◌≡◌, ◌<◌, ◌^◌, ℕ, List, IfOk, IfSome, MatchOption};
ghost use Rattle.ssb_journal.specs.Seals.{sealed};
ghost use Rattle.ssb_text.specs.TextLines.{HasNoLineEnd};
ghost use Rattle.store_folder.specs.Texts.{tables_text};

use crate::segment_head::{line_behind, push_line};
use itoa::Buffer;
use ssb_journal::{CHECKSUM_LINE, HeadForm, TableMark, head_of, seal};
use ssb_schema::number;
use std::alloc::{AllocError, Global};

// Its first line.
const TITLE: &[u8] = b"ssb_live tables 1\n";

// The first line of the head of a journal over tables.
const JOURNAL_TITLE: &[u8] = b"ssb_live journal 2\n";

/// What `sizes` tells of tables: after how many commits of the store they are, of which store they are, and by what a
/// journal's head knows them.
#[derive(Drop)]
pub struct Sizes {
    pub after: u64,
    /// The digits of the checksum of the head of a journal over the store's first tables.
    pub of: Vec<u8>,
    /// The lines of a journal's head over these tables.
    pub lines: Vec<u8>,
}

impl Sizes {
    /// Those of tables after so many commits of this store, by their marks.
    pub fn new(
        alloc: Global,
        after: u64,
        of: Vec<u8>,
        marks: &[TableMark],
    ) -> Result<Sizes, AllocError>
        ensures { IfOk result (λ sizes. sizes.after ≡ after) }
    {
        let head = head_of(alloc, HeadForm::Checksums, marks)?;
        let lines = head.get(JOURNAL_TITLE.len()..).unwrap_or(&[]);
        Ok(Sizes {
            after,
            of,
            lines: lines.to_vec(alloc)?,
        })
    }

    /// The text of the file: the line of its checksum stands before it.
    pub fn text(&self, alloc: Global) -> Result<Vec<u8>, AllocError>
        ensures { IfOk result (λ text.
            text.items ≡ sealed (tables_text self.now.after self.now.of.items self.now.lines.items)) }
    {
        let mut text = Vec::from_slice(alloc, TITLE)?;
        push_line(
            &mut text,
            b"after",
            Buffer::new().format(self.after).as_bytes(),
        )?;
        push_line(&mut text, b"of", &self.of)?;
        text.extend_from_slice(&self.lines)?;
        seal(alloc, &text)
    }

    // What a text without its checksum tells.
    fn of_text(alloc: Global, text: &[u8]) -> Result<Option<Sizes>, AllocError>
        ensures { (after : ℕ) (store lines : List ℕ) → after < 2 ^ 64 → HasNoLineEnd store
            → text.now ≡ tables_text after store lines → IfOk result (λ found. MatchOption found ⊥
            (λ sizes. (sizes.after ≡ after) × (sizes.of.items ≡ store) × (sizes.lines.items ≡ lines))) }
    {
        let Some(text) = text.strip_prefix(TITLE) else {
            return Ok(None);
        };
        let Some((after, text)) = line_behind(text, b"after") else {
            return Ok(None);
        };
        let Some((of, lines)) = line_behind(text, b"of") else {
            return Ok(None);
        };
        let Some(after) = number(after) else {
            return Ok(None);
        };
        Ok(Some(Sizes {
            after,
            of: of.to_vec(alloc)?,
            lines: lines.to_vec(alloc)?,
        }))
    }

    /// What the bytes of a file tell, where they are as they were written.
    pub fn read(alloc: Global, bytes: &[u8]) -> Result<Option<Sizes>, AllocError>
        ensures found { IfOk result (λ found. IfSome found (λ sizes.
            bytes.now ≡ sealed (tables_text sizes.after sizes.of.items sizes.lines.items))) }
        ensures read_back { (after : ℕ) (store lines : List ℕ) → after < 2 ^ 64 → HasNoLineEnd store
            → bytes.now ≡ sealed (tables_text after store lines) → IfOk result (λ found. MatchOption found ⊥
            (λ sizes. (sizes.after ≡ after) × (sizes.of.items ≡ store) × (sizes.lines.items ≡ lines))) }
    {
        if bytes.len() < CHECKSUM_LINE {
            return Ok(None);
        }
        let Some(sizes) = Sizes::of_text(alloc, &bytes[CHECKSUM_LINE..])? else {
            return Ok(None);
        };
        if sizes.text(alloc)?.as_slice() == bytes {
            Ok(Some(sizes))
        } else {
            Ok(None)
        }
    }

    /// The head of a journal over these tables.
    pub(crate) fn journal_head(&self, alloc: Global) -> Result<Vec<u8>, AllocError> {
        let mut head = Vec::from_slice(alloc, JOURNAL_TITLE)?;
        head.extend_from_slice(&self.lines)?;
        seal(alloc, &head)
    }
}
