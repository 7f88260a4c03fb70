//! What is written is read back, as a law over the definitions in `specs/`.
//!
//! It is the contract of a function that does nothing.
ghost use Rattle.ssb_formats.specs.CsvText.{CsvIsReadBack};

/// A reader of the kit, with its defaults, reads back what is written as CSV: the heads, and then each row, field by
/// field.
pub fn csv_is_read_back()
    ensures { CsvIsReadBack }
{}
