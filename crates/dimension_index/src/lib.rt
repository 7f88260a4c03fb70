//! The dimensions of the warehouse made ready for the scan: rows by position, columns in codes, bitmaps of tests.
//!
//! The columnar replica keeps a line's customer, supplier, part and date as positions in the lists of the
//! dimensions, and `DimIndex::position` finds the position of a key. Each column that queries test or group by stands
//! as one list of codes by position, which all queries share: equal values have equal codes, which count from 0 in the
//! order of first sight.
//!
//! ```text
//!   city by position:   LIMA  OSLO  LIMA  ROME        dictionary:  0 LIMA   1 OSLO   2 ROME
//!              codes:      0     1     0     2
//! ```
//!
//! Rows that no query can tell apart are of one class, which is the position of the first of them: they are equal in
//! every column that queries read. A scan by class needs only the rows up to the last that begins a class, and
//! `DimIndex::first_rows` is an index of those.
//!
//! ```text
//!   rows by position:   LIMA  OSLO  LIMA  ROME  OSLO
//!            classes:      0     1     0     3     1   first rows:  LIMA  OSLO  LIMA  ROME
//! ```
//!
//! The contract: an index is seen as its base, and every answer is a function of it. `position` is where the key stands
//! (`specs/Keys.antt`), `codes_of` are the codes of the column's values (`specs/Values.antt`, `specs/Codes.antt`), and
//! `bitmap` tells of each row whether it passes, by the words that the meaning of queries uses (`specs/Bitmaps.antt`).
//! `class` and `first_rows` are those of `specs/Classes.antt`; the first rows are seen as a base of their own.
//!
//! ```text
//! let index = DimIndex::new(alloc, base)?;
//! let customer = index.position(Table::Customer, line.customer_key());
//! let cities = index.codes_of(C_CITY);     // cities[position] is the city's code
//! let class = index.class(Table::Customer, position);
//! let cities = index.first_rows().codes_of(C_CITY);     // cities[class] is the code of the same city
//! ```
#![tactic(auto)]

mod bitmap;
mod classes;
mod coded;
mod dictionary;
mod first_rows;
mod index;
mod kept;

pub use bitmap::Bitmap;
pub use coded::CodedColumn;
pub use dictionary::Dictionary;
pub use first_rows::{Extents, FirstRows};
pub use index::{DimIndex, index_of};
