//! What is found in a store, and a checkpoint of it.

use crate::TearingFiles;
use crate::tests::log::rows_after;
use crate::tests::serving::STORE;
use base_source::{BaseSource, SourcedBase};
use ssb_base::Base;
use ssb_text::write_rows;
use std::alloc::Global;
use std::hash::RandomState;
use std::random::RandomSource;
use std::test::Fail;
use std::thread::Threads;
use store_command::{CheckpointPlace, StoreSource, run_checkpoint};

// What a start tells where there is no store.
const NO_STORE: &[u8] = b"ssb_live: store: 87 NoStore\n";

/// What a command has told, as a failure.
pub(crate) fn failure(told: Vec<u8>) -> Fail {
    match String::from_utf8(told) {
        Ok(text) => Fail::new(text),
        Err(_) => Fail::new("it told what is no text"),
    }
}

// The lines are those after so many commits of the log.
fn check_lines(alloc: Global, base: &Base, after: u64) -> Result<(), Fail> {
    let mut rows = Vec::new(alloc);
    write_rows(&mut rows, base.lines())?;
    if rows.as_slice() == rows_after(alloc, after)?.as_bytes() {
        Ok(())
    } else {
        Err(failure(rows))
    }
}

/// How many commits are found: the lines after them are those after the first ones of the log. None where there is no
/// store.
pub(crate) fn found_commits<R>(rt: &R, files: &TearingFiles) -> Result<Option<u64>, Fail>
where
    R: Threads + Sync + AllocGlobal + RandomSource,
{
    let alloc = rt.alloc();
    let mut err = Vec::new(alloc);
    let source = StoreSource {
        files,
        folder: STORE,
        hashing: RandomState::new(rt)?,
        at: None,
    };
    match source.load(rt, &mut err) {
        Ok(SourcedBase { base, after }) => {
            check_lines(alloc, &base, after)?;
            Ok(Some(after))
        }
        Err(_) if err.as_slice() == NO_STORE => Ok(None),
        Err(_) => Err(failure(err)),
    }
}

/// Makes newer tables, where a segment is closed, and takes away what no start needs.
pub(crate) fn fold<R>(rt: &R, files: &TearingFiles) -> Result<(), Fail>
where
    R: Threads + Sync + AllocGlobal + RandomSource,
{
    let mut err = Vec::new(rt.alloc());
    let place = CheckpointPlace {
        files,
        folder: STORE,
        keep_from: None,
        tells: false,
    };
    match run_checkpoint(rt, RandomState::new(rt)?, &place, &mut err) {
        0 => Ok(()),
        _ => Err(failure(err)),
    }
}
