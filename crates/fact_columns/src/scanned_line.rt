//! A line as queries read it.
ghost use Rattle.std.specs.Prelude.{◌≡◌, ◌==◌, not};
ghost use Rattle.fact_columns.specs.Places.{quantity_in};

/// What the columns that queries read have of a live line: its rows by their classes, and its numbers.
#[derive(Clone, Copy, Debug, PartialEq, Eq)]
pub struct ScannedLine {
    pub customer: u32,
    pub supplier: u32,
    pub part: u32,
    pub date: u32,
    /// LO_QUANTITY and LO_DISCOUNT, joined by [`crate::terms`].
    pub terms: u16,
    /// LO_EXTENDEDPRICE.
    pub price: u32,
    /// LO_REVENUE.
    pub revenue: u32,
    /// LO_SUPPLYCOST.
    pub cost: u32,
}

impl ScannedLine {
    /// Whether the place that it was read at holds a live line.
    #[inline(always)]
    pub fn is_live(&self) -> bool
        ensures { result ≡ not (quantity_in self.now.terms == 0) }
    {
        self.terms / 16 != 0
    }
}
