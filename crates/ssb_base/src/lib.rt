//! The base: the five loaded tables of the Star Schema Benchmark with their keys looked at, and how large a warehouse
//! may grow.
//!
//! The one contract: a [`Base`] has distinct primary keys and a dimension row for every key that one of its lines
//! names. [`Base::new`] makes it exactly where its definition finds no fault; else it tells the first fault and hands
//! the values back. The definition stands in `specs/Base`, the limits in `specs/Limits`.
//!
//! ```
//! let base = Base::new(alloc, Limits::standard(), parts)?;
//! let customer = base.customers().row(line.customer_key());
//! let nation = customer.map(|customer| &customer.fields().nation);
//! ```
#![tactic(auto)]

mod base;
mod bits;
mod dimension;
mod index;
mod limits;
mod places;

pub use base::{Base, BaseError, BaseParts};
pub use dimension::Dimension;
pub use limits::{Limits, MOST_COMMITS, MOST_DIMENSION_ROWS, MOST_LINES, STANDARD_COMMITS};
