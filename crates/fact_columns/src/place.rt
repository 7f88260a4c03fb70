//! What one place of the columns holds.
ghost use Rattle.std.specs.Prelude.{◌≡◌, ◌<◌};
ghost use Rattle.fact_columns.specs.Places.{terms_of, quantity_in, discount_in, is_live};
ghost use Rattle.fact_columns.specs.Watching.{scanned_line};

use crate::scanned_line::ScannedLine;

/// A line as the columns have it: its rows by position, counted from 0 in the lists of the dimensions.
#[derive(Clone, Copy, Debug, PartialEq, Eq)]
pub struct Place {
    /// LO_ORDERKEY.
    pub order: u64,
    pub customer: u32,
    pub supplier: u32,
    pub part: u32,
    pub date: u32,
    /// LO_QUANTITY and LO_DISCOUNT, joined by [`terms`]; the place is free where the quantity is 0.
    pub terms: u16,
    /// LO_EXTENDEDPRICE.
    pub price: u32,
    /// LO_REVENUE.
    pub revenue: u32,
    /// LO_SUPPLYCOST.
    pub cost: u32,
    /// Of each row its class, which a scan reads in place of its position: equal where no query tells rows apart.
    pub customer_class: u32,
    pub supplier_class: u32,
    pub part_class: u32,
    pub date_class: u32,
}

/// Quantity and discount in one code, `quantity * 16 + discount`, which spares the scan a look-up.
pub fn terms(quantity: u8, discount: u8) -> u16
    requires { discount < 16 }
    ensures code { result ≡ terms_of quantity discount }
    ensures quantity { quantity_in result ≡ quantity }
    ensures discount { discount_in result ≡ discount }
{
    u16::from(quantity) * 16 + u16::from(discount)
}

impl Place {
    /// Whether it holds a live line.
    pub fn is_live(&self) -> bool
        ensures { result ≡ is_live self.now }
    {
        self.terms / 16 != 0
    }

    /// LO_QUANTITY; 0 where the place is free.
    pub fn quantity(&self) -> u16
        ensures { result ≡ quantity_in self.now.terms }
    {
        self.terms / 16
    }

    /// LO_DISCOUNT.
    pub fn discount(&self) -> u8
        ensures { result ≡ discount_in self.now.terms }
    {
        (self.terms % 16) as u8
    }

    /// The line as queries read it.
    #[inline(always)]
    pub fn scanned_line(&self) -> ScannedLine
        ensures { result ≡ scanned_line self.now }
    {
        ScannedLine {
            customer: self.customer_class,
            supplier: self.supplier_class,
            part: self.part_class,
            date: self.date_class,
            terms: self.terms,
            price: self.price,
            revenue: self.revenue,
            cost: self.cost,
        }
    }
}
