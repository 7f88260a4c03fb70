//! Commits, appended to a journal.
ghost use Rattle.std.specs.Prelude.{◌≡◌, ◌⊎◌, ◌<◌, ◌≤◌, ◌^◌, ◌++◌, List, length, IfOk, IfErr};
ghost use Rattle.std.specs.List.{AllByRecursion};
ghost use Rattle.journal.specs.Disk.{LeavesOnly};
ghost use Rattle.journal.specs.Groups.{recovered};
ghost use Rattle.row_store.specs.History.{CommitRecord};
ghost use Rattle.ssb_journal.specs.Seals.{sealed};
ghost use Rattle.ssb_journal.specs.declared.head.TableMark.{TableMark};
ghost use Rattle.ssb_trace.specs.Allowed.{IsClient};
ghost use Rattle.ssb_trace.specs.TraceText.{trace_text};
ghost use Rattle.ssb_journal.specs.Kept.{trace_of, HasNoRoom, IsGroupOf, KeepsCommits, KeepsWithOrWithout};

use crate::checksum::seal;
use crate::commits::text_of;
use journal::{Disk, DiskError, Journal, MAX_GROUP};
use row_store::Commit;
use std::alloc::Global;

// Commits as a group: their text behind the line of its checksum.
fn group_of(alloc: Global, commits: Vec<Commit>) -> Result<Vec<u8>, DiskError>
    requires { AllByRecursion (λ commit. IsClient commit.client) commits.items }
    ensures group { IfOk result (λ group. IsGroupOf commits.items group.items) }
    ensures short { IfOk result (λ group. length group.items ≤ 2 ^ 49) }
    ensures failed { IfErr result (λ e. e ≡ DiskError.Failed → ⊥) }
    ensures full { IfErr result (λ e. e ≡ DiskError.Full
        → 2 ^ 49 < length (sealed (trace_text (trace_of commits.items)))) }
{
    let group = seal(alloc, &text_of(alloc, commits)?)?;
    if group.len() > MAX_GROUP {
        return Err(DiskError::Full);
    }
    Ok(group)
}

/// Appends commits as one group, with which the journal keeps so many. With the journal that comes back they are
/// acknowledged: they are on the disk and promised, and from then on each crash leaves a file that keeps them. At
/// `Err`, which hands the disk back, open the file again.
pub fn append_commits<D: Disk>(
    alloc: Global,
    journal: Journal<D>,
    commits: Vec<Commit>,
    count: u64,
) -> Result<Journal<D>, (DiskError, D)>
    requires { AllByRecursion (λ commit. IsClient commit.client) commits.items }
    ensures acknowledged { IfOk result (λ after. (marks : List TableMark) (before : List CommitRecord)
        → KeepsCommits marks before (D.seen journal) → KeepsCommits marks (before ++ commits.items) (D.seen after)) }
    ensures promised_err { IfErr result (λ e. D.promised e.1 ≡ recovered (D.seen journal)) }
    // A crash at any moment of the call leaves the commits from before it, with the new ones all or without them.
    ensures any_moment { IfOk result (λ after. (marks : List TableMark) (before : List CommitRecord)
        → KeepsCommits marks before (D.seen journal)
        → LeavesOnly D.moment D.left_since journal after (KeepsWithOrWithout marks before commits.items)) }
    ensures any_moment_err { IfErr result (λ e. (marks : List TableMark) (before : List CommitRecord)
        → KeepsCommits marks before (D.seen journal)
        → LeavesOnly D.moment D.left_since journal e.1 (KeepsWithOrWithout marks before commits.items)) }
    // It does not give up by itself.
    ensures failed { IfErr result (λ e. e.0 ≡ DiskError.Failed → D.faults journal < D.faults e.1) }
    ensures full { IfErr result (λ e. e.0 ≡ DiskError.Full → HasNoRoom (D.seen journal) commits.items) }
{
    match group_of(alloc, commits) {
        Ok(group) => journal.append(alloc, &group, count),
        Err(error) => Err((error, journal.into_disk())),
    }
}
