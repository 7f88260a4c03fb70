//! Crashes at every call of a run, and of what brings its journal back.

use crate::TearingDisk;
use crate::tests::own_log::A_LOOK;
use crate::tests::runs::{
    A_GROUP, CALLS, COMMITS, NEW, disk_left, gone_on, kept_in, mended, new_log, refreshes,
};
use ssb_journal::SharedJournal;
use std::alloc::Global;
use std::sync::Wait;
use std::test::Fail;
use std::thread::Threads;

const SEEDS: u64 = 2;

const MANY_SEEDS: u64 = 100;

const LIVES: usize = 60;

// The disk after each commit of the run was told, one after another.
fn disk_of_run(rt: &(impl Wait + Threads + Sync), alloc: Global) -> Result<TearingDisk, Fail> {
    let refreshes = refreshes(alloc)?;
    let shared = SharedJournal::new(new_log(rt, alloc, &refreshes, None)?);
    for number in 1..=COMMITS {
        shared.reach(rt, alloc, number as u64)?;
    }
    Ok(disk_left(rt, shared))
}

// A group counts once the third of its calls has begun, which opens its gate, or is as if it had not; it is told behind
// the fourth.
#[test]
fn what_was_told_comes_back(rt: HostRuntime) -> Result<(), Fail> {
    let alloc = rt.alloc();
    let disk = disk_of_run(&rt, alloc)?;
    assert_eq!(rt; disk.calls(), CALLS);
    for begun in NEW..=CALLS {
        let calls = begun - NEW;
        let told = A_LOOK * (calls / A_GROUP);
        let most = A_LOOK * ((calls + 1) / A_GROUP);
        for seed in 0..SEEDS {
            let kept = kept_in(&rt, alloc, &disk.crashed(begun, seed)?)?;
            assert!(rt; kept == told || kept == most, "{begun} {seed} {kept}");
        }
    }
    Ok(())
}

#[test]
fn a_journal_that_is_being_made_is_opened_and_empty(rt: HostRuntime) -> Result<(), Fail> {
    let alloc = rt.alloc();
    let disk = disk_of_run(&rt, alloc)?;
    for begun in 0..NEW {
        for seed in 0..MANY_SEEDS {
            let kept = kept_in(&rt, alloc, &disk.crashed(begun, seed)?)?;
            assert_eq!(rt; kept, 0, "{begun} {seed}");
        }
    }
    Ok(())
}

#[test]
fn a_mend_may_crash_too(rt: HostRuntime) -> Result<(), Fail> {
    let alloc = rt.alloc();
    let disk = disk_of_run(&rt, alloc)?;
    // The step is odd, so that each of a group's calls is met.
    for begun in (0..=CALLS).step_by(5) {
        let file = disk.crashed(begun, 0)?;
        let kept = kept_in(&rt, alloc, &file)?;
        let mended = mended(&rt, alloc, &file)?.into_disk();
        for again in 0..=mended.calls() {
            let left = kept_in(&rt, alloc, &mended.crashed(again, 1)?)?;
            assert_eq!(rt; left, kept, "{begun} {again}");
        }
    }
    Ok(())
}

// Each life opens what the crash of the one before has left, appends a group, and is crashed at some call of that.
#[test]
fn a_journal_outlives_crash_after_crash(rt: HostRuntime) -> Result<(), Fail> {
    let alloc = rt.alloc();
    let refreshes = refreshes(alloc)?;
    let mut file = Vec::new(alloc);
    let mut kept = 0;
    for life in 0..LIVES {
        let next = A_LOOK.saturating_add(kept);
        let Some(more) = refreshes.get(kept..next) else {
            return Err(Fail::from("more than the log has"));
        };
        let disk = gone_on(&rt, alloc, &file, more)?;
        let begun = life % disk.calls().saturating_add(1);
        file = disk.crashed(begun, life as u64)?;
        let left = kept_in(&rt, alloc, &file)?;
        let is_told = begun == disk.calls();
        let is_opened = is_told || begun + 1 == disk.calls();
        assert!(rt;
            (left == kept && !is_told) || (left == next && is_opened),
            "{life} {left}"
        );
        kept = left;
    }
    Ok(())
}
