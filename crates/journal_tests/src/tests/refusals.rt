//! Runs in which the disk refuses one call.

use crate::TearingDisk;
use crate::tests::own_log::A_LOOK;
use crate::tests::runs::{A_GROUP, CALLS, COMMITS, NEW, disk_left, kept_in, new_log, refreshes};
use journal::DiskError;
use ssb_journal::{JournalFailed, SharedJournal};
use ssb_schema::Refresh;
use std::alloc::Global;
use std::sync::{Arc, Wait};
use std::test::Fail;
use std::thread::Threads;

// How many commits are told, where each is asked for, whatever came of those before; and the disk that is handed back.
fn run_refused(
    rt: &(impl Wait + Threads + Sync),
    alloc: Global,
    refreshes: &[Arc<Refresh>],
    refused: usize,
) -> Result<(usize, TearingDisk), Fail> {
    let shared = SharedJournal::new(new_log(rt, alloc, refreshes, Some(refused))?);
    let mut told = 0;
    for number in 1..=COMMITS {
        match shared.reach(rt, alloc, number as u64) {
            Ok(_) => told = number,
            Err(
                JournalFailed {
                    cause: Some(DiskError::Failed),
                },
            ) => {},
            Err(_) => return Err(Fail::from("another cause")),
        }
    }
    Ok((told, disk_left(rt, shared)))
}

#[test]
fn after_a_refused_call_nothing_is_told(rt: HostRuntime) -> Result<(), Fail> {
    let alloc = rt.alloc();
    let refreshes = refreshes(alloc)?;
    for refused in NEW..CALLS {
        let before = A_LOOK * ((refused - NEW) / A_GROUP);
        let (told, _) = run_refused(&rt, alloc, &refreshes, refused)?;
        assert_eq!(rt; told, before, "{refused}");
    }
    Ok(())
}

// The third and the fourth call of a group may have opened its gate, though they were refused.
#[test]
fn what_was_told_before_a_refused_call_comes_back(rt: HostRuntime) -> Result<(), Fail> {
    let alloc = rt.alloc();
    let refreshes = refreshes(alloc)?;
    for refused in NEW..CALLS {
        let calls = refused - NEW;
        let told = A_LOOK * (calls / A_GROUP);
        let most = A_LOOK * ((calls + 2) / A_GROUP);
        let (_, disk) = run_refused(&rt, alloc, &refreshes, refused)?;
        let kept = kept_in(&rt, alloc, &disk.crashed(disk.calls(), refused as u64)?)?;
        assert!(rt; kept == told || kept == most, "{refused} {kept}");
    }
    Ok(())
}
