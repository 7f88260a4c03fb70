//! A query as data.
use crate::cond::Test;
use ssb_schema::{Column, Items};

/// What is added up over the combinations of a group (Star Schema Benchmark, section 3).
#[derive(Clone, Copy, Debug, PartialEq, Eq)]
pub enum Measure {
    /// LO_EXTENDEDPRICE * LO_DISCOUNT
    PriceTimesDiscount,
    /// LO_REVENUE
    Revenue,
    /// LO_REVENUE - LO_SUPPLYCOST, which may be negative
    Profit,
    /// LO_QUANTITY
    Quantity,
    /// LO_EXTENDEDPRICE
    ExtendedPrice,
    /// LO_SUPPLYCOST
    SupplyCost,
    /// 1, so that the sum is the number of the lines.
    Lines,
}

/// Numbers from the first to the last, both included; none where `from` is greater than `to`.
#[derive(Clone, Copy, Debug, PartialEq, Eq)]
pub struct NumberRange {
    pub from: u64,
    pub to: u64,
}

/// What rows are ordered by: a group column, by its place from 0 in `Plan::groups`, ascending, or the
/// sum, from the greatest down.
#[derive(Clone, Copy, Debug, PartialEq, Eq)]
pub enum OrderKey {
    /// The group column at this place, ascending.
    Group(usize),
    /// The sum, descending.
    SumDescending,
}

/// A query as data: which combinations of a line with its four dimension rows count, what is added up
/// over them, and in which groups and order the sums stand.
#[derive(Debug, Drop)]
pub struct Plan {
    pub customers: Items<Test>,
    pub suppliers: Items<Test>,
    pub parts: Items<Test>,
    pub dates: Items<Test>,
    /// LO_QUANTITY lies in it; any quantity where there is none.
    pub quantity: Option<NumberRange>,
    /// LO_DISCOUNT lies in it; any discount where there is none.
    pub discount: Option<NumberRange>,
    pub measure: Measure,
    /// The printed columns but the sum.
    pub groups: Items<Column>,
    pub order: Items<OrderKey>,
}
