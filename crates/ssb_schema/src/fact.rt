//! What queries and columns read of a line.

/// The ten values of a line that queries and columns read: its order key, the keys of its customer, supplier, part and
/// order date, and its quantity, discount, price, revenue and cost.
#[derive(Clone, Copy, Debug, PartialEq, Eq)]
pub struct Fact {
    /// LO_ORDERKEY.
    pub order_key: u64,
    /// LO_CUSTKEY.
    pub customer: u64,
    /// LO_SUPPKEY.
    pub supplier: u64,
    /// LO_PARTKEY.
    pub part: u64,
    /// LO_ORDERDATE.
    pub date: u64,
    /// LO_QUANTITY.
    pub quantity: u8,
    /// LO_DISCOUNT.
    pub discount: u8,
    /// LO_EXTENDEDPRICE.
    pub price: u32,
    /// LO_REVENUE.
    pub revenue: u32,
    /// LO_SUPPLYCOST.
    pub cost: u32,
}
