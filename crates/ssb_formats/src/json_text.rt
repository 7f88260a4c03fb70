//! An answer as a JSON object on a line.

ghost use Rattle.std.specs.Prelude.{◌≡◌, false, IfOk, OnOk, codes, map};
ghost use Rattle.serde_json.specs.Data.{put as with_member};
ghost use Rattle.serde_json.specs.View.{members_view, view};
ghost use Rattle.serde_json.specs.Written.{members_have_float};
ghost use Rattle.ssb_formats.specs.JsonText.{answer_members, cause_name, json_text, object_line, row_data};
ghost use Rattle.ssb_formats.specs.JsonText.{rows_members, served_members, sum_data, text_data, titled_json};
ghost use Rattle.ssb_formats.specs.JsonText.{unserved_members, value_data};

use crate::cells::{head_cells, with_sum};
use serde_json::{Map, Value as Json, put};
use ssb_answers::{Answer, ResultRow, Unserved};
use ssb_questions::{Query, Question, Value, question};
use ssb_schema::Text;
use std::alloc::{AllocError, Global};

pub(crate) fn value_json(alloc: Global, value: &Value) -> Result<Json, AllocError>
    ensures { IfOk result (λ json. view json ≡ value_data value.now) }
{
    match value {
        Value::Text(text) => Json::try_from_str(alloc, text.as_str()),
        Value::Number(number) => Ok(Json::from(*number)),
    }
}

pub(crate) fn sum_json(sum: Option<i64>) -> Json
    ensures { view result ≡ sum_data sum }
{
    match sum {
        Some(sum) => Json::from(sum),
        None => Json::Null,
    }
}

#[tactic(auto, using(crate::proofs::CellLaws::map_push))]
fn values_json(alloc: Global, values: &[Value]) -> Result<Vec<Json>, AllocError>
    ensures { IfOk result (λ list. map view list.items ≡ map value_data values.now) }
{
    let mut list = Vec::new(alloc);
    for value in values {
        list.push(value_json(alloc, value)?)?;
    }
    Ok(list)
}

#[tactic(auto, using(crate::proofs::CellLaws::map_push))]
pub(crate) fn texts_json(alloc: Global, texts: &[Text]) -> Result<Vec<Json>, AllocError>
    ensures { IfOk result (λ list. map view list.items ≡ map text_data texts.now) }
{
    let mut list = Vec::new(alloc);
    for text in texts {
        list.push(Json::try_from_str(alloc, text.as_str())?)?;
    }
    Ok(list)
}

fn row_json(alloc: Global, query: Query, row: &ResultRow) -> Result<Json, AllocError>
    ensures { IfOk result (λ json. view json ≡ row_data query row.now) }
{
    let groups = row.groups.as_slice();
    let values = values_json(alloc, groups)?;
    let sum = sum_json(row.sum);
    let list = with_sum(query, sum, values)?;
    let json = Json::from(list);
    Ok(json)
}

#[tactic(auto, using(crate::proofs::CellLaws::map_push))]
fn rows_json(alloc: Global, query: Query, rows: &[ResultRow]) -> Result<Vec<Json>, AllocError>
    ensures { IfOk result (λ list. map view list.items ≡ map (row_data query) rows.now) }
{
    let mut list = Vec::new(alloc);
    for row in rows {
        list.push(row_json(alloc, query, row)?)?;
    }
    Ok(list)
}

// The members of an answer with rows.
fn answered_members(
    alloc: Global,
    name: &str,
    at: u64,
    columns: Json,
    constants: Json,
    rows: Json,
) -> Result<Map<String, Json>, AllocError>
    ensures { IfOk result (λ members. members_view members.entries
        ≡ served_members name.now at (view columns) (view constants) (view rows)) }
{
    let mut members = Map::new(alloc);
    put(&mut members, alloc, "at", Json::from(at))?;
    put(&mut members, alloc, "columns", columns)?;
    put(&mut members, alloc, "constants", constants)?;
    put(
        &mut members,
        alloc,
        "query",
        Json::try_from_str(alloc, name)?,
    )?;
    put(&mut members, alloc, "rows", rows)?;
    Ok(members)
}

// Those of these rows.
fn rows_members(
    alloc: Global,
    question: &Question,
    at: u64,
    rows: &[ResultRow],
) -> Result<Map<String, Json>, AllocError>
    ensures { IfOk result (λ members. members_view members.entries ≡ rows_members question.now at rows.now) }
{
    let query = question.query();
    let plan = question::plan(alloc, question)?;
    let heads = head_cells(alloc, query, &plan)?;
    let columns = Json::from(texts_json(alloc, heads.as_slice())?);
    let constants = Json::from(values_json(alloc, question.constants())?);
    let rows = Json::from(rows_json(alloc, query, rows)?);
    answered_members(alloc, query.name(), at, columns, constants, rows)
}

pub(crate) fn cause_name(cause: Unserved) -> &'static str
    ensures { result.now ≡ cause_name cause }
{
    match cause {
        Unserved::OutOfMemory => "out of memory",
        Unserved::Twin { .. } => "twin",
    }
}

// The members of an answer without rows.
fn unserved_members(
    alloc: Global,
    question: &Question,
    cause: Unserved,
) -> Result<Map<String, Json>, AllocError>
    ensures { IfOk result (λ members. members_view members.entries ≡ unserved_members question.now cause) }
{
    let constants = Json::from(values_json(alloc, question.constants())?);
    let name = Json::try_from_str(alloc, question.query().name())?;
    let cause = Json::try_from_str(alloc, cause_name(cause))?;
    let mut members = Map::new(alloc);
    put(&mut members, alloc, "constants", constants)?;
    put(&mut members, alloc, "query", name)?;
    put(&mut members, alloc, "unserved", cause)?;
    Ok(members)
}

pub(crate) fn answer_members(
    alloc: Global,
    answer: &Answer,
) -> Result<Map<String, Json>, AllocError>
    ensures { IfOk result (λ members. members_view members.entries ≡ answer_members answer.now) }
{
    match answer {
        Answer::Rows { question, at, rows } => rows_members(alloc, question, *at, rows.as_slice()),
        Answer::Unserved { question, cause } => unserved_members(alloc, question, *cause),
    }
}

/// An object, and the end of its line.
pub(crate) fn object_line(alloc: Global, members: Map<String, Json>) -> Result<Vec<u8>, AllocError>
    requires { members_have_float (members_view members.entries) ≡ false }
    ensures { IfOk result (λ text. text.items ≡ object_line (members_view members.entries)) }
{
    let json = Json::from(members);
    let mut text = json.to_vec(alloc)?;
    text.push(b'\n')?;
    Ok(text)
}

/// The line of an answer.
pub(crate) fn json_text(alloc: Global, answer: &Answer) -> Result<Vec<u8>, AllocError>
    ensures { IfOk result (λ text. text.items ≡ json_text answer.now) }
{
    let members = answer_members(alloc, answer)?;
    object_line(alloc, members)
}

/// Puts a title among the members.
pub(crate) fn put_title(
    alloc: Global,
    members: &mut Map<String, Json>,
    title: &Text,
) -> Result<(), AllocError>
    ensures { OnOk result (members_view members.new.entries
        ≡ with_member (codes "title") (text_data title.now) (members_view members.old.entries)) }
{
    let title = Json::try_from_str(alloc, title.as_str())?;
    put(members, alloc, "title", title)
}

/// The line of an answer that has a title.
pub(crate) fn titled_json(
    alloc: Global,
    title: &Text,
    answer: &Answer,
) -> Result<Vec<u8>, AllocError>
    ensures { IfOk result (λ text. text.items ≡ titled_json title.now answer.now) }
{
    let mut members = answer_members(alloc, answer)?;
    put_title(alloc, &mut members, title)?;
    object_line(alloc, members)
}
