//! Journals that have two faults: the first in the file is told.

use crate::UnreadTearing;
use crate::tests::runs::{marks, mended};
use journal::MAX_GROUP;
use ssb_journal::{JournalFault, JournalOpenFault, open, seal};
use std::alloc::Global;
use std::test::Fail;
use std::thread::Threads;

// A text that spells no commits.
const NO_COMMITS: &[u8] = b"nothing\n";

// The text of one commit.
const COMMIT: &[u8] = b"commit|1\nwithdraw|9\nend\n";

// How many commits are handed on of a journal that has these groups behind its head, and what is told then: the groups
// are read together.
fn fault_of(
    rt: &(impl Threads + Sync),
    alloc: Global,
    groups: &[Vec<u8>],
) -> Result<(usize, JournalFault), Fail> {
    let mut journal = mended(rt, alloc, b"")?;
    for group in groups {
        if group.len() > MAX_GROUP {
            return Err(Fail::from("too long"));
        }
        journal = match journal.append(alloc, group, 0) {
            Ok(journal) => journal,
            Err((error, _)) => return Err(Fail::from(error)),
        };
    }
    let disk = journal.into_disk();
    let bytes = disk.crashed(disk.calls(), 0)?;
    let marks = marks();
    let Ok(mut reader) = open(alloc, &marks, UnreadTearing::new(alloc, &bytes, None)?) else {
        return Err(Fail::from("not opened"));
    };
    let mut commits = 0usize;
    for _ in groups {
        let (next, found) = match reader.next(rt, alloc) {
            Ok(read) => read,
            Err((JournalOpenFault::Journal(fault), _)) => return Ok((commits, fault)),
            Err(_) => return Err(Fail::from("not read")),
        };
        reader = next;
        let Some(more) = found else {
            return Err(Fail::from("no fault"));
        };
        commits = commits.saturating_add(more.len());
    }
    Err(Fail::from("no fault"))
}

// A text of no commits comes before a damaged group, and behind it. What comes before both is handed on.
#[test]
fn of_two_faults_the_first_is_told(rt: HostRuntime) -> Result<(), Fail> {
    let alloc = rt.alloc();
    let sound = seal(alloc, COMMIT)?;
    let no_commits = seal(alloc, NO_COMMITS)?;
    let damaged = Vec::from_slice(alloc, NO_COMMITS)?;
    let mut groups = vec![in alloc; sound, no_commits, damaged]?;
    assert_eq!(rt;
        fault_of(&rt, alloc, &groups)?,
        (1, JournalFault::Damaged(2))
    );
    groups.swap(1, 2);
    assert_eq!(rt;
        fault_of(&rt, alloc, &groups)?,
        (1, JournalFault::Damaged(2))
    );
    groups.swap(0, 2);
    assert_eq!(rt;
        fault_of(&rt, alloc, &groups)?,
        (0, JournalFault::Damaged(1))
    );
    Ok(())
}
