//! Which questions of a batch take a row, as a bit for each question.
use ssb_schema::Items;

/// The most questions of a batch, and of a pass over the columns: a mask has a bit for each.
pub const QUESTIONS_A_PASS: usize = 16;

/// The masks of a batch: bit k says whether question k takes the row at that
/// position. A dimension that no question tests has none.
#[derive(Drop)]
pub struct Masks {
    pub customers: Option<Items<u16>>,
    pub suppliers: Option<Items<u16>>,
    pub parts: Option<Items<u16>>,
    pub dates: Option<Items<u16>>,
    /// By LO_QUANTITY times 16, and LO_DISCOUNT.
    pub terms: Items<u16>,
}
