//! A journal's file that was read to its end, and then is begun.
ghost use Rattle.std.specs.Prelude.{◌≡◌, ◌<◌, ◌^◌, [], length, true, false, IfOk, IfErr};
ghost use Rattle.journal.specs.Disk.{LeavesOnly};
ghost use Rattle.journal.specs.Groups.{recovered, behind, AreTorn};
ghost use Rattle.ssb_journal.specs.Heads.{new_head};
ghost use Rattle.ssb_journal.specs.Seals.{sealed};
ghost use Rattle.ssb_journal.specs.Texts.{IsBeginning, IsJournalOf, IsNewJournal};
ghost use Rattle.ssb_journal.specs.Kept.{IsAsItWasOrNew};

use crate::fault::JournalFault;
use crate::head::{HeadForm, TableMark};
use crate::kept::KeptCommits;
use crate::texts::head_group;
use journal::{Disk, DiskError, Found, Journal, KeepsTorn, MAX_GROUP};
use std::alloc::Global;
use thiserror::Error;

/// Why a journal's file was not opened: its disk failed, or it is no journal over these tables.
#[derive(Clone, Copy, Debug, PartialEq, Eq, Error)]
pub enum JournalOpenFault {
    #[error(transparent)]
    Disk(DiskError),
    #[error(transparent)]
    Journal(JournalFault),
}

/// A journal's file that was read and is unchanged.
#[derive(Drop)]
pub struct OpenedJournal<D: Disk> {
    pub found: Found<D>,
    pub kept: KeptCommits,
    /// What a crash has torn: it is cut off when the journal is begun, and has to be kept before.
    pub torn: Vec<u8>,
}

/// Cuts off what a crash has torn, and writes the head of a new journal: then commits can be appended. It takes
/// evidence that what it cuts off is kept. An `Err` hands the disk back.
pub fn begin<D: Disk, T: KeepsTorn>(
    alloc: Global,
    marks: &[TableMark],
    found: Found<D>,
    is_new: bool,
    kept: &T::Kept,
) -> Result<Journal<D>, (DiskError, D)>
    requires new { is_new ≡ true → recovered (D.seen found) ≡ [] }
    requires kept { AreTorn (D.seen found) (T.bytes kept.now) }
    ensures same { is_new ≡ false → IfOk result (λ journal. recovered (D.seen journal) ≡ recovered (D.seen found)) }
    ensures made { is_new ≡ true → IfOk result (λ journal. IsJournalOf marks.now [] (D.seen journal)) }
    // The groups that were there stay promised.
    ensures promised_err { IfErr result (λ e. D.promised e.1 ≡ recovered (D.seen found)) }
    // A crash at any moment leaves the groups as they were, or a new journal.
    ensures any_moment { IfOk result (λ journal. LeavesOnly D.moment D.left_since found journal
        (IsAsItWasOrNew marks.now (recovered (D.seen found)))) }
    ensures any_moment_err { IfErr result (λ e. LeavesOnly D.moment D.left_since found e.1
        (IsAsItWasOrNew marks.now (recovered (D.seen found)))) }
    // While a new journal is made it leaves a file that is opened (`laws::new_journal_is_opened`).
    ensures new_journal { is_new ≡ true → IsBeginning marks.now (behind (D.seen found))
        → IfOk result (λ journal. LeavesOnly D.moment D.left_since found journal (IsNewJournal marks.now)) }
    ensures new_journal_err { is_new ≡ true → IsBeginning marks.now (behind (D.seen found))
        → IfErr result (λ e. LeavesOnly D.moment D.left_since found e.1 (IsNewJournal marks.now)) }
    // It does not give up by itself.
    ensures failed { IfErr result (λ e. e.0 ≡ DiskError.Failed → D.faults found < D.faults e.1) }
    ensures full { IfErr result (λ e. e.0 ≡ DiskError.Full
        → (is_new ≡ true) × (2 ^ 49 < length (sealed (new_head marks.now)))) }
{
    let journal = found.mend::<T>(kept)?;
    if !is_new {
        return Ok(journal);
    }
    match head_group(alloc, HeadForm::Checksums, marks) {
        Ok(group) if group.len() <= MAX_GROUP => journal.append(alloc, &group, 0),
        Ok(_) => Err((DiskError::Full, journal.into_disk())),
        Err(_) => Err((DiskError::OutOfMemory, journal.into_disk())),
    }
}
