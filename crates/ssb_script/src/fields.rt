//! The fields of one record of a script.

ghost use Rattle.std.specs.Prelude.{◌≡◌, drop, map, IfOk};
ghost use Rattle.csv.specs.Records.{fields_of};
ghost use Rattle.ssb_script.specs.Lines as spec;

use crate::word::ScriptWord;
use csv::ByteRecord;
use ssb_text::{field_at, trimmed_at};
use std::alloc::{AllocError, Global};

/// The word of a record, if its first field is one.
#[tactic(auto, unfolding(crate::specs::Lines::word_of))]
pub(crate) fn word_of(fields: &ByteRecord) -> Option<ScriptWord>
    ensures { result ≡ spec.word_of (fields_of fields.now) }
{
    ScriptWord::spelled(trimmed_at(fields, 0))
}

/// The fields from a place on, counted from 0.
pub(crate) fn columns(
    alloc: Global,
    from: usize,
    fields: &ByteRecord,
) -> Result<Vec<&[u8]>, AllocError>
    ensures { IfOk result (λ columns. map (λ column. column.now) columns.items ≡ drop from (fields_of fields.now)) }
{
    let mut columns = Vec::new(alloc);
    for place in from..fields.len() {
        columns.push(field_at(fields, place))?;
    }
    Ok(columns)
}
