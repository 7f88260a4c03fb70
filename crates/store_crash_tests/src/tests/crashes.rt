//! Crashes at every call of a run, and of what goes on with what they leave.

use crate::TearingFiles;
use crate::tests::found::found_commits;
use crate::tests::runs::{Run, go_on};
use std::io::Eprint;
use std::random::RandomSource;
use std::test::Fail;
use std::thread::Threads;

// How many crashes come at each call, drawn by a seed of its own each.
const CRASHES: usize = 3;

const LIVES: usize = 40;

// From one crash to the next, it comes so many calls later.
const STEP: usize = 7;

// A failure is told with the crash that has led to it.
fn told_with<T>(
    rt: &impl Eprint,
    begun: usize,
    seed: usize,
    judged: Result<T, Fail>,
) -> Result<T, Fail> {
    if judged.is_err() {
        let _ = eprintln!(rt; "crashed at call {begun}, by the seed {seed}");
    }
    judged
}

// What a crash leaves, and how many commits are found in it: all that were told, and none that were not appended. None
// where the store was not made yet.
fn left_of<R>(
    rt: &R,
    run: &Run,
    begun: usize,
    seed: usize,
) -> Result<Option<(TearingFiles, u64)>, Fail>
where
    R: Threads + Sync + AllocGlobal + RandomSource,
{
    let left = run.files.crashed(begun, seed as u64)?;
    match found_commits(rt, &left)? {
        Some(commits) if commits < run.told(begun) || commits > run.begun(begun) => {
            Err(Fail::new(format_args!("{commits} commits")))
        }
        Some(commits) => Ok(Some((left, commits))),
        None if begun < run.made => Ok(None),
        None => Err(Fail::new("no store")),
    }
}

// The same; where that is asked for, all goes on with it.
fn check_crash<R>(rt: &R, run: &Run, begun: usize, seed: usize, goes_on: bool) -> Result<(), Fail>
where
    R: Threads + Sync + AllocGlobal + RandomSource,
{
    match left_of(rt, run, begun, seed)? {
        Some((left, commits)) if goes_on => {
            go_on(rt, left, commits)?;
            Ok(())
        }
        _ => Ok(()),
    }
}

#[test]
fn what_was_told_is_found(rt: HostRuntime) -> Result<(), Fail> {
    let run = Run::whole(&rt)?;
    let calls = run.files.calls()?;
    for begun in 0..=calls {
        let first = begun.saturating_mul(CRASHES);
        for seed in first..first.saturating_add(CRASHES) {
            let judged = check_crash(&rt, &run, begun, seed, seed == first);
            told_with(&rt, begun, seed, judged)?;
        }
    }
    Ok(())
}

// A program is killed at a call, all goes on, and then a crash comes.
fn check_kill<R>(rt: &R, run: &Run, begun: usize) -> Result<(), Fail>
where
    R: Threads + Sync + AllocGlobal + RandomSource + Eprint,
{
    let later = go_on(rt, run.files.killed(begun)?, run.told(begun))?;
    let calls = later.files.calls()?.saturating_sub(begun);
    let first = begun.saturating_mul(CRASHES);
    for seed in first..first.saturating_add(CRASHES) {
        let call = begun.saturating_add(seed.saturating_mul(STEP) % calls.saturating_add(1));
        told_with(rt, call, seed, left_of(rt, &later, call, seed))?;
    }
    Ok(())
}

#[test]
fn a_kill_may_come_before_the_crash(rt: HostRuntime) -> Result<(), Fail> {
    let run = Run::whole(&rt)?;
    for begun in run.made..=run.files.calls()? {
        told_with(&rt, begun, 0, check_kill(&rt, &run, begun))?;
    }
    Ok(())
}

// Each life goes on with what the crash of the one before has left, and is crashed at some call of that.
#[test]
fn a_store_outlives_crash_after_crash(rt: HostRuntime) -> Result<(), Fail> {
    let run = Run::whole(&rt)?;
    let calls = run.files.calls()?;
    let mut left = left_of(&rt, &run, calls, 0)?;
    for life in 0..LIVES {
        let Some((files, commits)) = left else {
            return Err(Fail::new("no store"));
        };
        let run = go_on(&rt, files, commits)?;
        let begun = life.saturating_mul(STEP) % run.files.calls()?.saturating_add(1);
        left = told_with(&rt, begun, life, left_of(&rt, &run, begun, life))?;
    }
    Ok(())
}
