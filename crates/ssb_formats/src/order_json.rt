//! An order as a JSON object on a line.

ghost use Rattle.std.specs.Prelude.{◌≡◌, IfOk, map};
ghost use Rattle.serde_json.specs.View.{members_view, view};
ghost use Rattle.ssb_schema.specs.Columns.{value_of};
ghost use Rattle.ssb_formats.specs.JsonText.{object_line as line_of, text_data};
ghost use Rattle.ssb_formats.specs.OrderJson.{cell_data, line_data, line_names, lines_members, order_members};
ghost use Rattle.ssb_formats.specs.OrderJson.{unserved_members};

use crate::json_text::object_line;
use serde_json::{Map, Value as Json, put};
use ssb_report::ShownOrder;
use ssb_schema::{Cell, Line};
use std::alloc::{AllocError, Global};

static LINE_NAMES: [&str; 17] = [
    "LO_ORDERKEY",
    "LO_LINENUMBER",
    "LO_CUSTKEY",
    "LO_PARTKEY",
    "LO_SUPPKEY",
    "LO_ORDERDATE",
    "LO_ORDERPRIORITY",
    "LO_SHIPPRIORITY",
    "LO_QUANTITY",
    "LO_EXTENDEDPRICE",
    "LO_ORDTOTALPRICE",
    "LO_DISCOUNT",
    "LO_REVENUE",
    "LO_SUPPLYCOST",
    "LO_TAX",
    "LO_COMMITDATE",
    "LO_SHIPMODE",
];

// The names of the columns of lineorder.
fn line_names() -> &'static [&'static str]
    ensures { map (λ name. name.now) result.now ≡ line_names }
{
    &LINE_NAMES
}

#[tactic(auto, using(crate::proofs::CellLaws::map_push))]
fn names_json(alloc: Global, names: &[&str]) -> Result<Vec<Json>, AllocError>
    ensures { IfOk result (λ list. map view list.items ≡ map text_data (map (λ name. name.now) names.now)) }
{
    let mut list = Vec::new(alloc);
    for name in names {
        list.push(Json::try_from_str(alloc, name)?)?;
    }
    Ok(list)
}

fn cell_json(alloc: Global, cell: &Cell<'_>) -> Result<Json, AllocError>
    ensures { IfOk result (λ json. view json ≡ cell_data (value_of cell.now)) }
{
    match cell {
        Cell::Number(number) => Ok(Json::from(*number)),
        Cell::Text(text) => Json::try_from_str(alloc, text),
    }
}

#[tactic(auto, using(crate::proofs::CellLaws::map_push))]
fn cells_json(alloc: Global, cells: &[Cell<'_>]) -> Result<Vec<Json>, AllocError>
    ensures { IfOk result (λ list. map view list.items ≡ map cell_data (map value_of cells.now)) }
{
    let mut list = Vec::new(alloc);
    for cell in cells {
        list.push(cell_json(alloc, cell)?)?;
    }
    Ok(list)
}

// The columns of a line.
fn line_json(alloc: Global, line: &Line) -> Result<Json, AllocError>
    ensures { IfOk result (λ json. view json ≡ line_data line.now) }
{
    let cells = line.cells();
    let list = cells_json(alloc, cells.as_slice())?;
    Ok(Json::from(list))
}

#[tactic(auto, using(crate::proofs::CellLaws::map_push))]
fn lines_json(alloc: Global, lines: &[Line]) -> Result<Vec<Json>, AllocError>
    ensures { IfOk result (λ list. map view list.items ≡ map line_data lines.now) }
{
    let mut list = Vec::new(alloc);
    for line in lines {
        list.push(line_json(alloc, line)?)?;
    }
    Ok(list)
}

// The members of the lines of an order.
fn lines_members(
    alloc: Global,
    key: u64,
    at: u64,
    lines: &[Line],
) -> Result<Map<String, Json>, AllocError>
    ensures { IfOk result (λ members. members_view members.entries ≡ lines_members key at lines.now) }
{
    let names = Json::from(names_json(alloc, line_names())?);
    let lines = Json::from(lines_json(alloc, lines)?);
    let mut members = Map::new(alloc);
    put(&mut members, alloc, "at", Json::from(at))?;
    put(&mut members, alloc, "columns", names)?;
    put(&mut members, alloc, "lines", lines)?;
    put(&mut members, alloc, "order", Json::from(key))?;
    Ok(members)
}

// The members of an order for whose lines memory ran out.
fn unserved_members(alloc: Global, key: u64) -> Result<Map<String, Json>, AllocError>
    ensures { IfOk result (λ members. members_view members.entries ≡ unserved_members key) }
{
    let why = Json::try_from_str(alloc, "out of memory")?;
    let mut members = Map::new(alloc);
    put(&mut members, alloc, "order", Json::from(key))?;
    put(&mut members, alloc, "unserved", why)?;
    Ok(members)
}

fn order_members(alloc: Global, order: &ShownOrder) -> Result<Map<String, Json>, AllocError>
    ensures { IfOk result (λ members. members_view members.entries ≡ order_members order.now) }
{
    match order {
        ShownOrder::Lines { key, at, lines } => lines_members(alloc, *key, *at, lines.as_slice()),
        ShownOrder::Unserved { key } => unserved_members(alloc, *key),
    }
}

/// The line of an order.
pub(crate) fn order_line(alloc: Global, order: &ShownOrder) -> Result<Vec<u8>, AllocError>
    ensures { IfOk result (λ line. line.items ≡ line_of (order_members order.now)) }
{
    let members = order_members(alloc, order)?;
    object_line(alloc, members)
}
