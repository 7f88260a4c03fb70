//! The word `audit`: whether the trace of a run is legal over a base.
//!
//! ```text
//! tables ────── load ───────▶ base ──┐
//! trace file ── read_trace ─▶ trace ─┴─ audit ─▶ ok C A, or what speaks against the trace
//! ```
//!
//! The contract of [`run_audit`] (`specs/Audited.antt`; a base that a source holds: `base_source/specs/Over`): with
//! status 0 the trace that the bytes spell is legal over the base that the tables hold, and what was written is its
//! line; 1 tells of refused tables or a refused trace alone, 3 that something speaks against the trace. Where the tables
//! are those after some commits of a history, the trace is of a run over them: it counts its own commits, from 0.
//!
//! ```text
//! let status = run_audit(rt, hashing, tables, trace, &mut out, &mut err);      // ok 1 3
//! ```
#![tactic(auto)]

mod audit;
mod fault;

pub use audit::run_audit;
