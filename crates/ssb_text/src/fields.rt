//! The fields of one record.

ghost use Rattle.std.specs.Prelude.{◌≡◌, [], get_or};
ghost use Rattle.csv.specs.Records.{fields_of};
ghost use Rattle.ssb_text.specs.Records as spec;
ghost use Rattle.ssb_text.specs.Spelling.{field};

use crate::spelling::trimmed;
use csv::ByteRecord;

/// The field at a place, counted from 0. Past the end there are no bytes.
pub fn field_at(fields: &ByteRecord, place: usize) -> &[u8]
    ensures { result.now ≡ get_or (fields_of fields.now) place [] }
{
    fields.get(place).unwrap_or(b"")
}

/// The field at a place, counted from 0, without the spaces at its end.
pub fn trimmed_at(fields: &ByteRecord, place: usize) -> &[u8]
    ensures { result.now ≡ field (fields_of fields.now) place }
{
    trimmed(field_at(fields, place))
}

/// Whether a record has so many fields, or one more that has no bytes.
pub fn has_columns(fields: &ByteRecord, count: usize) -> bool
    ensures { result ≡ spec.has_columns count (fields_of fields.now) }
{
    match fields.len().checked_sub(count) {
        Some(0) => true,
        Some(1) => field_at(fields, count).is_empty(),
        _ => false,
    }
}
