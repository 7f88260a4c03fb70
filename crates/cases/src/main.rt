//! Runs the cases: command lines of `ssb_live`, and what they must write.
//!
//! ```text
//! NAME.case ── parse_case ─▶ files, commands ── running ─▶ statuses and bytes ── find_difference ─▶ what differs first
//!                                                  │
//!                                                files in memory, in place of the system's (case_files)
//! ```
//!
//! A case is a text file for people who need no Rattle: the folder `data` has them, and the page of
//! [formats](../../../docs/FORMATS.md#cases) says how one is written. Every case of the folder that the program
//! runs in is run, in the order of names, or those that the words name:
//!
//! ```text
//! cases                    // 637 cases
//! cases absent.case        // absent.case: command 1, output, line 2: wanted "77\n", got the end
//!                          // 1 cases
//! ```
//!
//! A line tells of each case that differs or cannot be read, and the last line how many cases there were. The
//! status is 0 where none differs, and else 1. A case runs whole command lines by the function that `ssb_live`
//! itself calls, over files in memory; threads, waiting, random bytes and the clock are the system's. It is proved
//! that the program is safe, and by `case_files` that a command of which nothing differs wrote the bytes, and ended
//! with the status, that its case wants.
#![tactic(auto)]

mod running;

use anyhow::Result;
use case_files::parse_case;
use running::run_case;
use std::env::Env;
use std::process::ExitCode;
use std::random::RandomSource;
use std::rt::Files;
use std::sync::Wait;
use std::thread::Threads;
use std::time::Clock;
use std::{env, fs};

// The cases that the words name, or else those of the folder that the program runs in, in the order of names.
fn case_paths<R>(rt: &R) -> Result<Vec<String>>
where
    R: Files + Env + AllocGlobal + Clone + Drop,
{
    let mut paths = Vec::new(rt.alloc());
    for path in env::args(rt)?.skip(1) {
        paths.push(path)?;
    }
    if !paths.is_empty() {
        return Ok(paths);
    }
    for entry in fs::read_dir(rt, ".")? {
        let entry = entry?;
        let name = entry.file_name();
        if name.ends_with(".case") {
            paths.push(String::from_str(rt.alloc(), name)?)?;
        }
    }
    paths.sort()?;
    Ok(paths)
}

// What differs first from what a case wants.
fn examine<R>(rt: &R, path: &str) -> Result<Option<String>>
where
    R: Files + Clock + RandomSource + Threads + Sync + Wait + AllocGlobal,
{
    let text = fs::read_to_string(rt, path)?;
    let case = parse_case(rt.alloc(), text.as_str())?;
    Ok(run_case(rt, &case)?)
}

fn main(rt: HostRuntime) -> Result<ExitCode> {
    let paths = case_paths(&rt)?;
    let mut status = ExitCode::SUCCESS;
    for path in &paths {
        match examine(&rt, path.as_str()) {
            Ok(None) => continue,
            Ok(Some(difference)) => println!(rt; "{path}: {difference}")?,
            Err(error) => println!(rt; "{path}: {error:#}")?,
        }
        status = ExitCode::FAILURE;
    }
    println!(rt; "{} cases", paths.len())?;
    Ok(status)
}
