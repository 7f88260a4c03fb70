//! What tests share: the small data set as a base, refreshes and requests as a script writes them.
//!
//! It promises nothing: what is done with it, the tests compare with answers that were worked out by hand.
//!
//! ```text
//! let base = small_base(rt, alloc, Limits::standard())?;
//! let refresh = refresh(alloc, "withdraw|1\nwithdraw|2\n")?;
//! ```
#![tactic(auto)]

mod records;
mod small;

pub use records::{adding, asking, refresh, requests};
pub use small::{small_base, standard_base};
