//! A statement of SQL that is typed, on one line or several.

use crate::fields::{are_alike, trimmed};
use std::alloc::{AllocError, Global};

// What the bytes that come next stand in.
#[derive(Clone, Copy)]
enum Within {
    Statement,
    // A text between quotes.
    Text,
    // A comment that ends with its mark.
    Comment,
}

/// The word that a statement begins with.
const SELECT: &[u8] = b"select";

/// Whether a line begins a statement: with the word SELECT, in any case.
pub(crate) fn begins_statement(line: &[u8]) -> bool {
    let text = trimmed(line);
    let Some((word, behind)) = text.split_at_checked(SELECT.len()) else {
        return false;
    };
    are_alike(SELECT, word)
        && !matches!(behind.first(), Some(byte) if byte.is_ascii_alphanumeric() || *byte == b'_')
}

/// The lines of a statement so far, as one line: a blank stands for each byte of a comment, and for an end of line.
#[derive(Drop)]
pub(crate) struct TypedStatement {
    record: Vec<u8>,
    within: Within,
}

impl TypedStatement {
    /// Of no line.
    pub(crate) fn new(alloc: Global) -> Result<TypedStatement, AllocError> {
        let mut record = Vec::new(alloc);
        record.extend_from_slice(b"sql|")?;
        Ok(TypedStatement {
            record,
            within: Within::Statement,
        })
    }

    // Adds so many blanks.
    fn add_blanks(&mut self, count: usize) -> Result<(), AllocError> {
        for _ in 0..count {
            self.record.push(b' ')?;
        }
        Ok(())
    }

    // Adds what stands first in the rest of a line, and gives how many bytes that is.
    fn add_first(&mut self, rest: &[u8]) -> Result<usize, AllocError> {
        match (self.within, rest) {
            (Within::Statement, [b'-', b'-', ..]) => {
                self.add_blanks(rest.len())?;
                return Ok(rest.len());
            }
            (Within::Statement, [b'/', b'*', ..]) => {
                self.within = Within::Comment;
                self.add_blanks(2)?;
                return Ok(2);
            }
            (Within::Comment, [b'*', b'/', ..]) => {
                self.within = Within::Statement;
                self.add_blanks(2)?;
                return Ok(2);
            }
            (Within::Statement, [b'\'', ..]) => self.within = Within::Text,
            (Within::Text, [b'\'', ..]) => self.within = Within::Statement,
            _ => {}
        }
        match (self.within, rest) {
            (Within::Comment, _) | (_, [b'\n' | b'\r', ..]) => self.add_blanks(1)?,
            (_, [byte, ..]) => self.record.push(*byte)?,
            (_, []) => {}
        }
        Ok(1)
    }

    /// Adds a line.
    pub(crate) fn add(&mut self, line: &[u8]) -> Result<(), AllocError> {
        let mut at = 0usize;
        for _ in 0..line.len() {
            let Some(rest) = line.get(at..) else {
                break;
            };
            if rest.is_empty() {
                break;
            }
            at = at.saturating_add(self.add_first(rest)?);
        }
        Ok(())
    }

    /// Whether its last line ends with the mark that ends a statement.
    pub(crate) fn has_ended(&self) -> bool {
        matches!(self.within, Within::Statement) && trimmed(self.record.as_slice()).ends_with(b";")
    }

    /// The record that asks it.
    pub(crate) fn into_record(self) -> Result<Vec<u8>, AllocError> {
        let TypedStatement { mut record, .. } = self;
        record.push(b'\n')?;
        Ok(record)
    }
}
