//! The program `ssb_live`: a warehouse of the Star Schema Benchmark on the command line.
//!
//! Without words it serves the script on standard input over the small built-in data set, as the one client of the live
//! server, and prints the report; or, at a terminal, a live session. `ssb_live query --data DIR NAME [CONSTANT..]`
//! loads five table files and prints the report of one question, `ssb_live query --data DIR --all` those of the
//! thirteen queries, answered in one pass. `ssb_live run --data DIR SCRIPT..` serves scripts at once, a client of the
//! live server each, and `ssb_live audit --data DIR TRACE` checks the trace that such a run left. `ssb_live serve
//! --data DIR` serves clients as their requests come, over standard input and output or named pipes. `ssb_live export
//! --data DIR --journal FILE --to FOLDER` writes the tables as they are after a journal's commits, and `ssb_live changes
//! --data DIR --journal FILE` what each of them changed. `ssb_live ship --journal FILE` writes the journal's groups as
//! they come. `ssb_live store --data DIR --store FOLDER` makes a store, which `serve` goes on with, and `ssb_live
//! checkpoint --store FOLDER` makes newer tables of it. The work is done by the libraries `run_command`,
//! `query_command`, `audit_command`, `serve_command`, `export_command`, `changes_command` and `ship_command`, whose
//! contracts name the bytes that they write, and by `store_command`; the library `command_line` finds what the words
//! ask, and this file ends with a status.
#![tactic(auto)]

use command_line::{Streams, columns, run_command_line, words};
use ssb_files::Fault;
use std::io::{BufWriter, IsTerminal};
use std::process::ExitCode;

fn main(rt: HostRuntime) -> ExitCode {
    let errors = rt.stderr();
    let mut err = rt.stderr();
    let Ok(output) = BufWriter::new(rt.alloc(), rt.stdout()) else {
        return ExitCode::from(Fault::OutOfMemory.tell(&mut err));
    };
    let columns = match columns(&rt) {
        Ok(columns) => columns,
        Err(fault) => return ExitCode::from(fault.tell(&mut err)),
    };
    let input = rt.stdin();
    let streams = Streams {
        input,
        is_typed: input.is_terminal(),
        output,
        errors: &errors,
        shows_progress: errors.is_terminal(),
        columns: columns.as_deref(),
    };
    ExitCode::from(match words(&rt) {
        Ok(words) => run_command_line(&rt, &rt, words.as_slice(), streams),
        Err(fault) => fault.tell(&mut err),
    })
}
