//! What a statement reads: the lines, beside the rows of dimensions that they name.

ghost use Rattle.std.specs.Prelude.{◌≡◌, ◌++◌, IfOk, OnOk, filter, flat_map, map};
ghost use Rattle.std.specs.String.{string_bytes};
ghost use Rattle.ssb_explain.specs.Joins as spec;
ghost use Rattle.ssb_explain.specs.Names.{dimensions};

use crate::conditions::{add_conditions, add_line_conditions, conditions, where_all};
use crate::lines::{ReadLines, add_commit_condition, lines_table};
use crate::names::{DIMENSIONS, column_names, key_sql, line_key_sql, same_table, table_sql};
use crate::system::System;
use crate::texts::joined;
use ssb_questions::{Plan, Test};
use ssb_schema::{Column, Table};
use std::alloc::{AllocError, Global};

/// The tests of a dimension.
pub fn tests_on(plan: &Plan, table: Table) -> &[Test]
    ensures { result.now ≡ spec.tests_on plan.now table }
{
    match table {
        Table::Customer => plan.customers.as_slice(),
        Table::Supplier => plan.suppliers.as_slice(),
        Table::Part => plan.parts.as_slice(),
        Table::Date => plan.dates.as_slice(),
        Table::Lineorder => &[],
    }
}

/// The group columns of a dimension.
pub fn columns_on(alloc: Global, plan: &Plan, table: Table) -> Result<Vec<Column>, AllocError>
    ensures { IfOk result (λ columns. columns.items ≡ spec.columns_on plan.now table) }
{
    plan.groups
        .as_slice()
        .iter()
        .copied()
        .filter(|column| same_table(table, column.table))
        .collect(alloc)
}

/// Their names.
pub fn names_on(alloc: Global, plan: &Plan, table: Table) -> Result<Vec<String>, AllocError>
    ensures { IfOk result (λ names. map string_bytes names.items ≡ spec.names_on plan.now table) }
{
    let columns = columns_on(alloc, plan, table)?;
    column_names(alloc, columns.as_slice())
}

/// Whether a dimension is tested.
pub fn is_tested(plan: &Plan, table: Table) -> bool
    ensures { result ≡ spec.is_tested plan.now table }
{
    tests_on(plan, table).len() != 0
}

/// Whether rows are grouped by a column of the dimension.
pub fn is_grouped(plan: &Plan, table: Table) -> bool
    ensures { result ≡ spec.is_grouped plan.now table }
{
    plan.groups
        .as_slice()
        .iter()
        .any(|column| same_table(table, column.table))
}

/// The rows of a dimension that pass its tests.
pub fn passing(
    alloc: Global,
    system: System,
    plan: &Plan,
    table: Table,
) -> Result<String, AllocError>
    ensures { IfOk result (λ text. string_bytes text ≡ spec.passing system plan.now table) }
{
    let tests = conditions(alloc, system, tests_on(plan, table))?;
    let tests = where_all(alloc, " WHERE ", " AND ", tests.as_slice())?;
    [table_sql(table), tests.as_str()].concat(alloc)
}

fn join_text(alloc: Global, table: Table) -> Result<String, AllocError>
    ensures { IfOk result (λ text. string_bytes text ≡ spec.join_text table) }
{
    [
        "\nJOIN ",
        table_sql(table),
        " ON ",
        line_key_sql(table),
        " = ",
        key_sql(table),
    ]
    .concat(alloc)
}

// Whether a dimension is read.
fn is_needed(plan: &Plan, table: Table) -> bool
    ensures { result ≡ spec.is_needed plan.now table }
{
    is_tested(plan, table) || is_grouped(plan, table)
}

fn needed_tables(alloc: Global, plan: &Plan) -> Result<Vec<Table>, AllocError>
    ensures { IfOk result (λ tables. tables.items ≡ filter (spec.is_needed plan.now) dimensions) }
{
    let mut tables = Vec::new(alloc);
    for table in &DIMENSIONS {
        if is_needed(plan, *table) {
            tables.push(*table)?;
        }
    }
    Ok(tables)
}

// A join with each of the tables.
fn join_texts(alloc: Global, tables: &[Table]) -> Result<Vec<String>, AllocError>
    ensures { IfOk result (λ texts. map string_bytes texts.items ≡ map spec.join_text tables.now) }
{
    let mut texts = Vec::new(alloc);
    for table in tables {
        texts.push(join_text(alloc, *table)?)?;
    }
    Ok(texts)
}

fn plain_conditions(
    alloc: Global,
    system: System,
    lines: ReadLines,
    plan: &Plan,
) -> Result<Vec<String>, AllocError>
    ensures { IfOk result (λ found. map string_bytes found.items ≡ spec.plain_conditions system lines plan.now) }
{
    let mut found = Vec::new(alloc);
    for table in &DIMENSIONS {
        add_conditions(alloc, system, &mut found, tests_on(plan, *table))?;
    }
    add_line_conditions(alloc, &mut found, plan)?;
    add_commit_condition(alloc, &mut found, lines)?;
    Ok(found)
}

/// What SQLite and PostgreSQL read: the lines joined with each dimension that is tested or grouped by, and the
/// conditions.
pub fn plain_source(
    alloc: Global,
    system: System,
    lines: ReadLines,
    plan: &Plan,
) -> Result<String, AllocError>
    ensures { IfOk result (λ text. string_bytes text ≡ spec.plain_source system lines plan.now) }
{
    let tables = needed_tables(alloc, plan)?;
    let joins = join_texts(alloc, tables.as_slice())?;
    let joins = joined(alloc, "", joins.as_slice())?;
    let conditions = plain_conditions(alloc, system, lines, plan)?;
    let conditions = where_all(alloc, "\nWHERE ", "\n  AND ", conditions.as_slice())?;
    [lines_table(lines), joins.as_str(), conditions.as_str()].concat(alloc)
}
