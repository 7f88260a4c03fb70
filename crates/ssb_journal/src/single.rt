//! What one group of a journal is by itself, where the tables are not known.
ghost use Rattle.std.specs.Prelude.{◌≡◌, ◌⊎◌, IfOk, IfErr};
ghost use Rattle.ssb_journal.specs.Kept.{IsGroupOf};
ghost use Rattle.ssb_journal.specs.Single.{IsHeadGroup, IsNoGroup, IsNoHead};

use crate::checksum::unseal;
use crate::commits::batch_of;
use crate::fault::JournalFault;
use crate::head::{HeadForm, title_fault};
use row_store::Commit;
use std::alloc::Global;

/// The form of a head, which is the first group of a journal. Over which tables it is, is not looked at.
pub fn form_of_head(alloc: Global, group: &[u8]) -> Result<HeadForm, JournalFault>
    ensures head { IfOk result (λ form. IsHeadGroup form group.now) }
    ensures fault { IfErr result (λ fault. (fault ≡ JournalFault.OutOfMemory) ⊎ IsNoHead group.now fault) }
{
    let Some(text) = unseal(alloc, group)? else {
        return Err(JournalFault::Damaged(0));
    };
    match HeadForm::of(&text) {
        Some(form) => Ok(form),
        None => Err(title_fault(&text)),
    }
}

/// The commits of a group of a journal, which has this number there.
pub fn commits_of_group(
    alloc: Global,
    number: u64,
    group: &[u8],
) -> Result<Vec<Commit>, JournalFault>
    ensures commits { IfOk result (λ commits. IsGroupOf commits.items group.now) }
    ensures fault { IfErr result (λ fault. (fault ≡ JournalFault.OutOfMemory)
        ⊎ ((fault ≡ JournalFault.Damaged number) × IsNoGroup group.now)) }
{
    let Some(text) = unseal(alloc, group)? else {
        return Err(JournalFault::Damaged(number));
    };
    match batch_of(alloc, &text)? {
        Some(commits) => Ok(commits),
        None => Err(JournalFault::Damaged(number)),
    }
}
