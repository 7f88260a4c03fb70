//! The group of a head, and what a crash may leave while it is made.
ghost use Rattle.std.specs.Prelude.{◌≡◌, true, false, IfOk};
ghost use Rattle.ssb_journal.specs.Heads.{head_text};
ghost use Rattle.ssb_journal.specs.Seals.{sealed};
ghost use Rattle.ssb_journal.specs.Texts.{IsBeginning, IsBeginningOf};

use crate::checksum::seal;
use crate::head::{HeadForm, TableMark, head_of};
use journal::{CLOSED, behind_gate};
use std::alloc::{AllocError, Global};

/// The group of a head of this form.
pub(crate) fn head_group(
    alloc: Global,
    form: HeadForm,
    marks: &[TableMark],
) -> Result<Vec<u8>, AllocError>
    ensures { IfOk result (λ group. group.items ≡ sealed (head_text form marks.now)) }
{
    seal(alloc, &head_of(alloc, form, marks)?)
}

// Whether bytes are what a crash may leave of a journal that is being made with a head of this form.
fn is_beginning_of(
    alloc: Global,
    form: HeadForm,
    marks: &[TableMark],
    bytes: &[u8],
) -> Result<bool, AllocError>
    ensures yes { IfOk result (λ is. is ≡ true → IsBeginningOf form marks.now bytes.now) }
    ensures no { IfOk result (λ is. is ≡ false → IsBeginningOf form marks.now bytes.now → ⊥) }
{
    if bytes.len() <= 1 {
        return Ok(true);
    }
    let first = behind_gate(alloc, &head_group(alloc, form, marks)?)?;
    let rest = &bytes[1..];
    Ok(first.starts_with(rest) || (bytes[0] == CLOSED && rest.len() <= first.len()))
}

/// Whether bytes are what a crash may leave of a journal that is being made, with a head of this or of an older form.
pub(crate) fn is_beginning(
    alloc: Global,
    marks: &[TableMark],
    bytes: &[u8],
) -> Result<bool, AllocError>
    ensures yes { IfOk result (λ is. is ≡ true → IsBeginning marks.now bytes.now) }
    ensures no { IfOk result (λ is. is ≡ false → IsBeginning marks.now bytes.now → ⊥) }
{
    if is_beginning_of(alloc, HeadForm::Checksums, marks, bytes)? {
        return Ok(true);
    }
    is_beginning_of(alloc, HeadForm::Sizes, marks, bytes)
}
