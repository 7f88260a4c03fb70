//! What a server has done so far, in numbers: as they are counted while it serves, and as two texts.
//!
//! ```text
//! clients, dispatchers ── count ─▶ LiveFigures ── now ─▶ Figures ─┬─ ServerStatus ─▶ commits 1204
//!                                                                 │                  live lines 59747 ..
//!                                                                 └─ Metrics ──────▶ # ssb_live figures
//!                                                                                    # HELP ssb_live_commits_total ..
//! ```
//!
//! The one contract, of the two texts: they are those that `specs/StatusText.antt` and `specs/MetricsText.antt` give
//! for the figures, byte by byte. A file may be written over where it is empty or begins as a text of metrics does, and
//! no other ([`may_be_replaced`]); so each such text may be (`laws`). What is counted, and when, is in no contract: it
//! changes nothing that a client is told.
//!
//! ```text
//! live.has_committed(receipt.number, lines);          // no clock, no lock
//! write!(screen, "{}", ServerStatus { figures: live.now(), .. })?;
//! ```
#![tactic(auto)]

mod figures;
pub mod laws;
mod live_figures;
mod metric;
mod metrics;
mod not_metrics;
mod refused;
mod refused_text;
mod resident;
mod server_status;

pub use figures::Figures;
pub use live_figures::LiveFigures;
pub use metric::Metric;
pub use metrics::{Metrics, SIGN_LENGTH, may_be_replaced};
pub use not_metrics::NotMetrics;
pub use refused::Refused;
pub use resident::resident_bytes;
pub use server_status::ServerStatus;
