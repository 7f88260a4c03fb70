//! What a statement of ClickHouse reads. Its older releases take one join in each SELECT, so that joins stand within one
//! another; and each tested dimension is also a condition of the lines, so that fewer of them are joined.

ghost use Rattle.std.specs.Prelude.{◌≡◌, [], ◌++◌, IfOk, OnOk, filter, map};
ghost use Rattle.std.specs.String.{string_bytes};
ghost use Rattle.ssb_explain.specs.Joins as spec;
ghost use Rattle.ssb_explain.specs.Names as names;

use crate::conditions::{add_line_conditions, where_all};
use crate::joins::{is_grouped, is_tested, names_on, passing};
use crate::lines::{ReadLines, add_commit_condition, lines_table, sign_names};
use crate::names::{DIMENSIONS, key_sql, line_key_sql};
use crate::system::System;
use crate::texts::commas;
use ssb_questions::{Measure, Plan};
use ssb_schema::Table;
use std::alloc::{AllocError, Global};

// The key by which a line names its row of a dimension is that of one that passes.
fn keys_pass(alloc: Global, system: System, plan: &Plan, table: Table) -> Result<String, AllocError>
    ensures { IfOk result (λ text. string_bytes text ≡ spec.keys_pass system plan.now table) }
{
    let passing = passing(alloc, system, plan, table)?;
    [
        line_key_sql(table),
        " IN (SELECT ",
        key_sql(table),
        " FROM ",
        passing.as_str(),
        ")",
    ]
    .concat(alloc)
}

fn tested_tables(alloc: Global, plan: &Plan) -> Result<Vec<Table>, AllocError>
    ensures { IfOk result (λ tables. tables.items ≡ filter (spec.is_tested plan.now) names.dimensions) }
{
    let mut tables = Vec::new(alloc);
    for table in &DIMENSIONS {
        if is_tested(plan, *table) {
            tables.push(*table)?;
        }
    }
    Ok(tables)
}

// A condition for each of the tables.
fn all_keys_pass(
    alloc: Global,
    system: System,
    plan: &Plan,
    tables: &[Table],
) -> Result<Vec<String>, AllocError>
    ensures { IfOk result (λ found. map string_bytes found.items ≡ map (spec.keys_pass system plan.now) tables.now) }
{
    let mut found = Vec::new(alloc);
    for table in tables {
        found.push(keys_pass(alloc, system, plan, *table)?)?;
    }
    Ok(found)
}

fn key_conditions(
    alloc: Global,
    system: System,
    lines: ReadLines,
    plan: &Plan,
) -> Result<Vec<String>, AllocError>
    ensures { IfOk result (λ found. map string_bytes found.items ≡ spec.key_conditions system lines plan.now) }
{
    let tables = tested_tables(alloc, plan)?;
    let mut found = all_keys_pass(alloc, system, plan, tables.as_slice())?;
    add_line_conditions(alloc, &mut found, plan)?;
    add_commit_condition(alloc, &mut found, lines)?;
    Ok(found)
}

fn inner_join_text(
    alloc: Global,
    system: System,
    plan: &Plan,
    table: Table,
) -> Result<String, AllocError>
    ensures { IfOk result (λ text. string_bytes text ≡ spec.inner_join_text system plan.now table) }
{
    let names = commas(alloc, names_on(alloc, plan, table)?.as_slice())?;
    let passing = passing(alloc, system, plan, table)?;
    [
        "\nANY INNER JOIN (SELECT ",
        key_sql(table),
        " AS ",
        line_key_sql(table),
        ", ",
        names.as_str(),
        " FROM ",
        passing.as_str(),
        ") USING ",
        line_key_sql(table),
    ]
    .concat(alloc)
}

// What a measure is made of.
fn measured(measure: Measure) -> &'static [&'static str]
    ensures { map (λ name. name.now) result.now ≡ spec.measured measure }
{
    match measure {
        Measure::Revenue => &["lo_revenue"],
        Measure::Profit => &["lo_revenue", "lo_supplycost"],
        Measure::PriceTimesDiscount => &["lo_extendedprice", "lo_discount"],
        Measure::Quantity => &["lo_quantity"],
        Measure::ExtendedPrice => &["lo_extendedprice"],
        Measure::SupplyCost => &["lo_supplycost"],
        Measure::Lines => &[],
    }
}

fn add_names(alloc: Global, kept: &mut Vec<String>, names: &[&str]) -> Result<(), AllocError>
    ensures { OnOk result (map string_bytes kept.new.items
        ≡ map string_bytes kept.old.items ++ map (λ name. name.now) names.now) }
{
    for name in names {
        kept.push(String::from_str(alloc, name)?)?;
    }
    Ok(())
}

fn add_line_keys(alloc: Global, kept: &mut Vec<String>, tables: &[Table]) -> Result<(), AllocError>
    ensures { OnOk result (map string_bytes kept.new.items
        ≡ map string_bytes kept.old.items ++ map names.line_key_sql tables.now) }
{
    for table in tables {
        kept.push(String::from_str(alloc, line_key_sql(*table))?)?;
    }
    Ok(())
}

fn add_copies(alloc: Global, kept: &mut Vec<String>, texts: &[String]) -> Result<(), AllocError>
    ensures { OnOk result (map string_bytes kept.new.items
        ≡ map string_bytes kept.old.items ++ map string_bytes texts.now) }
{
    for text in texts {
        kept.push(String::from_str(alloc, text.as_str())?)?;
    }
    Ok(())
}

// What the outer joins and the sum still need, with the group columns so far.
fn kept(
    alloc: Global,
    lines: ReadLines,
    plan: &Plan,
    outer: &[Table],
    columns: &[String],
) -> Result<Vec<String>, AllocError>
    ensures { IfOk result (λ kept. map string_bytes kept.items
        ≡ spec.kept lines plan.now outer.now (map string_bytes columns.now)) }
{
    let mut kept = Vec::new(alloc);
    add_names(alloc, &mut kept, sign_names(lines))?;
    add_names(alloc, &mut kept, measured(plan.measure))?;
    add_line_keys(alloc, &mut kept, outer)?;
    add_copies(alloc, &mut kept, columns)?;
    Ok(kept)
}

// A source of rows, joined with one dimension: a SELECT of what is still needed.
fn selected<'a>(
    alloc: Global,
    kept: &[String],
    source: &'a str,
    join: &'a str,
    tested: &'a str,
) -> Result<String, AllocError>
    ensures { IfOk result (λ text. string_bytes text
        ≡ spec.selected_from (map string_bytes kept.now) source.now join.now tested.now) }
{
    let kept = commas(alloc, kept)?;
    [
        "(SELECT ",
        kept.as_str(),
        "\nFROM ",
        source,
        join,
        tested,
        ")",
    ]
    .concat(alloc)
}

fn grouped_tables(alloc: Global, plan: &Plan) -> Result<Vec<Table>, AllocError>
    ensures { IfOk result (λ tables. tables.items ≡ filter (spec.is_grouped plan.now) names.dimensions) }
{
    let mut tables = Vec::new(alloc);
    for table in &DIMENSIONS {
        if is_grouped(plan, *table) {
            tables.push(*table)?;
        }
    }
    Ok(tables)
}

// What is read so far: a source of rows, the conditions that are still to stand behind it, and its group columns.
#[derive(Drop)]
struct RowSource {
    text: String,
    tested: String,
    columns: Vec<String>,
}

// The source joined with the last dimension.
fn joined_last(
    alloc: Global,
    plan: &Plan,
    source: &RowSource,
    table: Table,
) -> Result<String, AllocError>
    ensures { IfOk result (λ text. string_bytes text ≡ spec.last_join plan.now (string_bytes source.now.text)
        (string_bytes source.now.tested) table) }
{
    let join = inner_join_text(alloc, System::Clickhouse, plan, table)?;
    [source.text.as_str(), join.as_str(), source.tested.as_str()].concat(alloc)
}

// The text of the source joined with a dimension: a SELECT of these columns.
fn joined_text(
    alloc: Global,
    plan: &Plan,
    source: &RowSource,
    table: Table,
    kept: &[String],
) -> Result<String, AllocError>
    ensures { IfOk result (λ text. string_bytes text ≡ spec.selected_from (map string_bytes kept.now)
        (string_bytes source.now.text) (spec.inner_join_text System.Clickhouse plan.now table)
        (string_bytes source.now.tested)) }
{
    let join = inner_join_text(alloc, System::Clickhouse, plan, table)?;
    selected(
        alloc,
        kept,
        source.text.as_str(),
        join.as_str(),
        source.tested.as_str(),
    )
}

// The group columns of the source, and those of a dimension.
fn columns_with(
    alloc: Global,
    plan: &Plan,
    source: &RowSource,
    table: Table,
) -> Result<Vec<String>, AllocError>
    ensures { IfOk result (λ columns. map string_bytes columns.items
        ≡ map string_bytes source.now.columns.items ++ spec.names_on plan.now table) }
{
    let mut columns = Vec::new(alloc);
    add_copies(alloc, &mut columns, source.columns.as_slice())?;
    let names = names_on(alloc, plan, table)?;
    add_copies(alloc, &mut columns, names.as_slice())?;
    Ok(columns)
}

// The source joined with a dimension, of which the outer joins need what is kept.
fn joined_once(
    alloc: Global,
    lines: ReadLines,
    plan: &Plan,
    source: &RowSource,
    table: Table,
    outer: &[Table],
) -> Result<RowSource, AllocError>
    ensures text { IfOk result (λ made. string_bytes made.text
        ≡ spec.next_rows lines plan.now (string_bytes source.now.text) (string_bytes source.now.tested)
        (map string_bytes source.now.columns.items) table outer.now) }
    ensures tested { IfOk result (λ made. string_bytes made.tested ≡ []) }
    ensures columns { IfOk result (λ made. map string_bytes made.columns.items
        ≡ map string_bytes source.now.columns.items ++ spec.names_on plan.now table) }
{
    let columns = columns_with(alloc, plan, source, table)?;
    let kept = kept(alloc, lines, plan, outer, columns.as_slice())?;
    let text = joined_text(alloc, plan, source, table, kept.as_slice())?;
    Ok(RowSource {
        text,
        tested: String::new(alloc),
        columns,
    })
}

// The source joined with a dimension, and then with the outer ones.
#[tactic(auto, using(crate::proofs::JoinLaws::one_within))]
fn joined_from(
    alloc: Global,
    lines: ReadLines,
    plan: &Plan,
    source: RowSource,
    table: Table,
    outer: &[Table],
) -> Result<String, AllocError>
    ensures { IfOk result (λ text. string_bytes text ≡ spec.joined_from lines plan.now (string_bytes source.text)
        (string_bytes source.tested) (map string_bytes source.columns.items) table outer.now) }
{
    match outer {
        [] => joined_last(alloc, plan, &source, table),
        [next, rest @ ..] => {
            let source = joined_once(alloc, lines, plan, &source, table, outer)?;
            let text = joined_from(alloc, lines, plan, source, *next, rest)?;
            Ok(text)
        }
    }
}

// The lines joined with these dimensions, one after the other, where the conditions hold.
fn joined_source(
    alloc: Global,
    lines: ReadLines,
    plan: &Plan,
    tested: String,
    tables: &[Table],
) -> Result<String, AllocError>
    ensures { IfOk result (λ text. string_bytes text
        ≡ spec.joined_source lines plan.now (string_bytes tested) tables.now) }
{
    match tables {
        [] => [lines_table(lines), tested.as_str()].concat(alloc),
        [table, outer @ ..] => {
            let source = RowSource {
                text: String::from_str(alloc, lines_table(lines))?,
                tested,
                columns: Vec::new(alloc),
            };
            joined_from(alloc, lines, plan, source, *table, outer)
        }
    }
}

/// What ClickHouse reads.
pub fn nested_source(alloc: Global, lines: ReadLines, plan: &Plan) -> Result<String, AllocError>
    ensures { IfOk result (λ text. string_bytes text ≡ spec.nested_source lines plan.now) }
{
    let tables = grouped_tables(alloc, plan)?;
    let conditions = key_conditions(alloc, System::Clickhouse, lines, plan)?;
    let tested = where_all(alloc, "\nWHERE ", "\n  AND ", conditions.as_slice())?;
    joined_source(alloc, lines, plan, tested, tables.as_slice())
}
