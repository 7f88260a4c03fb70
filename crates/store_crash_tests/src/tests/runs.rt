//! Runs of a store, from its making on.

use crate::TearingFiles;
use crate::tests::found::{failure, fold, found_commits};
use crate::tests::log::A_GROUP;
use crate::tests::serving::{STORE, Serving};
use small_data::tables;
use ssb_files::{TableBytes, count_tables};
use ssb_text::TableFiles;
use std::alloc::Global;
use std::hash::RandomState;
use std::random::RandomSource;
use std::test::Fail;
use std::thread::Threads;
use store_command::run_store;
use store_folder::{SegmentTurns, find_store};

// So many groups make a turn, and begin the next segment.
const GROUPS: usize = 3;

// How many calls there were as the append of a group began, and as it might be told.
#[derive(Clone, Copy, Debug)]
struct ToldGroup {
    begun: usize,
    told: usize,
}

/// What is done with files, and when each group of the log might be told.
#[derive(Drop)]
pub(crate) struct Run {
    pub(crate) files: TearingFiles,
    /// How many calls there were as the store was made.
    pub(crate) made: usize,
    // How many commits there were before.
    before: u64,
    groups: Vec<ToldGroup>,
}

// Makes the store of the small data set.
fn make<R>(rt: &R, files: &TearingFiles) -> Result<(), Fail>
where
    R: Threads + Sync + AllocGlobal + RandomSource,
{
    let bytes = TableBytes::new();
    let tables = TableFiles::benchmark(count_tables(&bytes, tables()));
    let mut err = Vec::new(rt.alloc());
    let hashing = RandomState::new(rt)?;
    match run_store(rt, hashing, files, tables, &bytes, STORE, &mut err) {
        0 => Ok(()),
        _ => Err(failure(err)),
    }
}

impl Run {
    /// With files on which no call was made by it, and that have so many commits that were told.
    pub(crate) fn new(alloc: Global, files: TearingFiles, before: u64) -> Run {
        Run {
            files,
            made: 0,
            before,
            groups: Vec::new(alloc),
        }
    }

    /// A store that is made, and served twice, with checkpoints beside and between.
    pub(crate) fn whole<R>(rt: &R) -> Result<Run, Fail>
    where
        R: Threads + Sync + AllocGlobal + RandomSource,
    {
        let alloc = rt.alloc();
        let mut run = Run::new(alloc, TearingFiles::new(alloc)?, 0);
        make(rt, &run.files)?;
        run.made = run.files.calls()?;
        run.serve(rt, &[4, 3])?;
        run.serve(rt, &[3])?;
        Ok(run)
    }

    /// Serves the store: so many groups, with a checkpoint behind each number of them.
    pub(crate) fn serve<R>(&mut self, rt: &R, numbers: &[usize]) -> Result<(), Fail>
    where
        R: Threads + Sync + AllocGlobal + RandomSource,
    {
        let known = self.told(usize::MAX);
        let files = &self.files;
        let found = find_store(files, rt.alloc(), STORE, None)?;
        let turns = SegmentTurns::new();
        let mut serving = Serving::begin(rt, files, &found, &turns)?;
        // One that was killed may have left a group that was not told.
        if serving.commits() > known {
            let told = files.calls()?;
            self.groups.push(ToldGroup { begun: 0, told })?;
        }
        for number in numbers {
            for _ in 0..*number {
                let begun = files.calls()?;
                serving = serving.append(rt.alloc())?;
                let told = files.calls()?;
                self.groups.push(ToldGroup { begun, told })?;
            }
            fold(rt, files)?;
        }
        if let Some(last) = turns.goes_on() {
            return Err(Fail::new(format_args!("no segment behind {last}")));
        }
        Ok(())
    }

    /// How many commits might be told once so many calls had begun.
    pub(crate) fn told(&self, begun: usize) -> u64 {
        let groups = self.groups.iter().filter(|group| group.told <= begun);
        self.before
            .saturating_add(A_GROUP.saturating_mul(groups.count() as u64))
    }

    /// How many commits had been appended, or were being appended.
    pub(crate) fn begun(&self, begun: usize) -> u64 {
        let groups = self.groups.iter().filter(|group| group.begun < begun);
        self.before
            .saturating_add(A_GROUP.saturating_mul(groups.count() as u64))
    }
}

/// Goes on with a store, of which so many commits were told: with a checkpoint, a server that makes a turn, and a checkpoint again.
pub(crate) fn go_on<R>(rt: &R, files: TearingFiles, told: u64) -> Result<Run, Fail>
where
    R: Threads + Sync + AllocGlobal + RandomSource,
{
    fold(rt, &files)?;
    let mut run = Run::new(rt.alloc(), files, told);
    run.serve(rt, &[GROUPS])?;
    let wanted = run.told(usize::MAX);
    match found_commits(rt, &run.files)? {
        Some(commits) if commits == wanted => Ok(run),
        other => Err(Fail::new(format_args!("{other:?} in place of {wanted}"))),
    }
}
