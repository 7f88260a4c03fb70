//! The `row` records of a trace.
ghost use Rattle.std.specs.Prelude.{◌≡◌, ◌<◌, ◌^◌, map, IfOk};
ghost use Rattle.csv.specs.Records.{fields_of};
ghost use Rattle.ssb_questions.specs.Clause as clause;
ghost use Rattle.ssb_trace.specs.Rows as spec;

use crate::sums::signed_of;
use csv::ByteRecord;
use ssb_answers::ResultRow;
use ssb_questions::clause::kind_in;
use ssb_questions::{ConstantKind, Query, Question, question};
use ssb_schema::{Column, Items};
use ssb_script::constants_from;
use ssb_text::{has_columns, trimmed_at};
use std::alloc::{AllocError, Global};

// What these columns hold, one by one.
fn kinds_in(alloc: Global, columns: &[Column]) -> Result<Items<ConstantKind>, AllocError>
    ensures { IfOk result (λ kinds. kinds ≡ map clause.kind_in columns.now) }
{
    let mut kinds = Vec::new(alloc);
    for column in columns {
        kinds.push(kind_in(*column))?;
    }
    Ok(Items::from_vec(kinds))
}

/// What each group column of a question holds, in printed order.
pub fn group_kinds(alloc: Global, asked: &Question) -> Result<Items<ConstantKind>, AllocError>
    ensures { IfOk result (λ kinds. kinds ≡ spec.group_kinds asked.now) }
{
    let plan = question::plan(alloc, asked)?;
    kinds_in(alloc, plan.groups.as_slice())
}

// The sum that bytes spell: NULL in the one row of a question without group columns, else a number.
fn sum_of(kinds: &[ConstantKind], bytes: &[u8]) -> Option<Option<i64>>
    ensures { result ≡ spec.sum_of kinds.now bytes.now }
{
    if bytes == b"NULL".as_slice() {
        if kinds.is_empty() {
            return Some(None);
        }
        return None;
    }
    signed_of(bytes).map(Some)
}

// The row whose sum stands at one place, and whose group columns from another on.
fn row_at(
    alloc: Global,
    kinds: &[ConstantKind],
    sum_place: usize,
    groups_place: usize,
    fields: &ByteRecord,
) -> Result<Option<ResultRow>, AllocError>
    requires { groups_place < 2 ^ 32 }
    ensures { IfOk result (λ row. row ≡ spec.row_at kinds.now sum_place groups_place (fields_of fields.now)) }
{
    let Some(sum) = sum_of(kinds, trimmed_at(fields, sum_place)) else {
        return Ok(None);
    };
    let Some(groups) = constants_from(alloc, groups_place, kinds, fields)? else {
        return Ok(None);
    };
    Ok(Some(ResultRow {
        groups: Items::from_vec(groups),
        sum,
    }))
}

/// The row of an answer that a record spells behind its word, for a query and what its group columns hold: the printed
/// columns, each a number of 32 bits or a text of any length, and the sum where a report has it.
pub fn row_of(
    alloc: Global,
    query: Query,
    kinds: &[ConstantKind],
    fields: &ByteRecord,
) -> Result<Option<ResultRow>, AllocError>
    ensures { IfOk result (λ row. row ≡ spec.row_with query kinds.now (fields_of fields.now)) }
{
    if !has_columns(fields, 2 + kinds.len()) {
        return Ok(None);
    }
    if query.sum_stands_first() {
        row_at(alloc, kinds, 1, 2, fields)
    } else {
        row_at(alloc, kinds, 1 + kinds.len(), 1, fields)
    }
}
