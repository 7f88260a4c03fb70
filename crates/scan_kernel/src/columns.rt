//! The fact table and the groups as the scan reads them.
ghost use Rattle.std.specs.Prelude.{◌≡◌, length};
ghost use Rattle.scan_kernel.specs.Zones.{AreZonesOf};

use crate::zones::Zones;
use ssb_questions::Measure;

/// The columns of the fact table that queries read, side by side: what stands at one index of each is of one place.
#[derive(Clone, Copy)]
pub struct LineColumns<'a> {
    /// The row of the line's customer, as the masks count them; likewise the next three.
    pub customer: &'a [u32],
    pub supplier: &'a [u32],
    pub part: &'a [u32],
    pub date: &'a [u32],
    /// LO_QUANTITY times 16, and LO_DISCOUNT; below 16 where no line stands at the place.
    pub terms: &'a [u16],
    /// LO_EXTENDEDPRICE.
    pub price: &'a [u32],
    /// LO_REVENUE.
    pub revenue: &'a [u32],
    /// LO_SUPPLYCOST.
    pub cost: &'a [u32],
    /// Which customers lines name, chunk by chunk; likewise the next three.
    pub customer_zones: Zones<'a>,
    pub supplier_zones: Zones<'a>,
    pub part_zones: Zones<'a>,
    pub date_zones: Zones<'a>,
    pub ghost suppliers: { length supplier.now ≡ length customer.now },
    pub ghost parts: { length part.now ≡ length customer.now },
    pub ghost dates: { length date.now ≡ length customer.now },
    pub ghost all_terms: { length terms.now ≡ length customer.now },
    pub ghost prices: { length price.now ≡ length customer.now },
    pub ghost revenues: { length revenue.now ≡ length customer.now },
    pub ghost costs: { length cost.now ≡ length customer.now },
    pub ghost zoned_customers: { AreZonesOf customer_zones.codes.now customer_zones.sets.now customer.now },
    pub ghost zoned_suppliers: { AreZonesOf supplier_zones.codes.now supplier_zones.sets.now supplier.now },
    pub ghost zoned_parts: { AreZonesOf part_zones.codes.now part_zones.sets.now part.now },
    pub ghost zoned_dates: { AreZonesOf date_zones.codes.now date_zones.sets.now date.now },
}

/// A column that lines are grouped by.
#[derive(Clone, Copy)]
pub struct GroupColumn<'a> {
    /// Where the line's row of the dimension stands, by place.
    pub positions: &'a [u32],
    /// The code of the row's value in the column, by position.
    pub codes: &'a [u32],
    /// What a code adds to the number of the line's group.
    pub parts: &'a [u32],
}

/// What a question adds up, and in which groups.
#[derive(Drop)]
pub struct Grouping<'a> {
    pub measure: Measure,
    pub columns: Vec<GroupColumn<'a>>,
    /// How many groups there are; each has a number below it.
    pub size: usize,
}
