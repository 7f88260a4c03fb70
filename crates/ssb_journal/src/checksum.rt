//! A text behind the line of its checksum. The checksum is MD5: it guards against accidents, not against enemies.
ghost use Rattle.std.specs.Prelude.{◌≡◌, IfOk, MatchOption, length};
ghost use Rattle.ssb_journal.specs.Seals.{checksum_line, sealed, IsNotSealed};

use md5::{Digest, Md5};
use std::alloc::{AllocError, Global};

/// How many bytes the line of a checksum has: 32 digits and the end of the line.
pub const CHECKSUM_LINE: usize = 33;

// How many digits a checksum has.
const DIGITS: usize = 32;

// The line of a text's checksum.
fn checksum_line(text: &[u8]) -> [u8; CHECKSUM_LINE]
    ensures { result ≡ checksum_line text.now }
{
    let digest = Md5::digest(text);
    let mut line = [b'\n'; CHECKSUM_LINE];
    match hex::encode_to_slice(digest.as_slice(), &mut line[..DIGITS]) {
        Ok(()) => line,
        // A checksum has so many digits.
        Err(_) => unreachable!(),
    }
}

/// A text behind the line of its checksum.
pub fn seal(alloc: Global, text: &[u8]) -> Result<Vec<u8>, AllocError>
    ensures { IfOk result (λ group. group.items ≡ sealed text.now) }
{
    let line = checksum_line(text);
    let mut group = Vec::with_capacity(alloc, text.len().saturating_add(CHECKSUM_LINE))?;
    group.extend_from_slice(&line)?;
    group.extend_from_slice(text)?;
    Ok(group)
}

/// A copy of the text of a group, where the line of its checksum stands before it.
pub(crate) fn unseal(alloc: Global, group: &[u8]) -> Result<Option<Vec<u8>>, AllocError>
    ensures { IfOk result (λ found. MatchOption found (IsNotSealed group.now)
        (λ text. group.now ≡ sealed text.items)) }
{
    if group.len() < CHECKSUM_LINE {
        return Ok(None);
    }
    let text = &group[CHECKSUM_LINE..];
    let line = checksum_line(text);
    if group.starts_with(&line) {
        return Ok(Some(text.to_vec(alloc)?));
    }
    Ok(None)
}
