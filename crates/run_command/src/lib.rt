//! The word `run`, and the program without words: scripts served by the live server, and what that prints.
//!
//! ```text
//! tables, scripts ── load, read_scripts ─▶ base, scripts ── serve_scripts ─▶ reports ── standard output
//!                                                                       └─▶ trace ──── FILE
//! standard input ── one script over the small data set ── the same ─▶ its report
//! ```
//!
//! A script is a speaker of its client, which leaves its report and what it was told. The contract of `serve_scripts`
//! (`specs/Run.antt`): each script, in order, was served whole, as `stream_sessions` serves requests, by a client of its
//! own from a new token on; every commit of the log is one that some client made, and the log is legal; so the trace is
//! legal, and an audit finds nothing against it. That a thread gets on is claimed by no proof.
//!
//! The contract of [`run_scripts`] (`specs/Served.antt`; a base that a source holds: `base_source/specs/Over`): with
//! status 0 it has printed the reports of one run of the live server over the base that the tables hold, script by
//! script, and the number of commits, and kept that run's trace, which is legal; else nothing, or parts of these from
//! their beginnings. Where the tables are those after some commits of a history, the run has a history of its own over
//! them: it counts its own commits, from 0. Which questions stand changes nothing of it. How fast the run was is told on
//! standard error, in no contract.
//!
//! That of [`demo`] (`specs/Demo.antt`): with status 0 it has written the report of the script, as the one-thread
//! warehouse gives it over the small data set from no commit on, and nothing on standard error; else nothing, or a part
//! of that report from its beginning.
//!
//! [`open_trace`] opens the trace's file. The contract of what empties it (`specs/TraceFiles.antt`): it began as a trace
//! does, or had no bytes; any other is left as it is. Each trace begins so. That the head that was read is the file's,
//! and that the file stays locked, is in no contract.
//!
//! ```text
//! let settings = RunSettings { hashing, dispatchers: 2, standing, times: false };
//! let input = RunInput { tables, sources };
//! let status = run_scripts(rt, settings, input, &mut out, &mut Some(trace), &mut err);
//! ```
#![tactic(auto)]

mod fault;
mod histogram;
mod latency;
pub mod laws;
mod printing;
mod run;
mod scripts;
mod small_run;
mod speaker;
mod times;
mod trace_file;

pub use scripts::{MOST_SCRIPTS, RunInput, RunSettings, run_scripts};
pub use small_run::demo;
pub use trace_file::open_trace;
