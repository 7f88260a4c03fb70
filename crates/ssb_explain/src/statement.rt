//! A question as one statement of SQL.

ghost use Rattle.std.specs.Prelude.{◌≡◌, IfOk, map};
ghost use Rattle.std.specs.String.{string_bytes};
ghost use Rattle.ssb_questions.specs.Queries.{plan_over};
ghost use Rattle.ssb_explain.specs.Joins as joins;
ghost use Rattle.ssb_explain.specs.Names as names;
ghost use Rattle.ssb_explain.specs.Statement as spec;
ghost use Rattle.ssb_explain.specs.Texts as texts;

use crate::conditions::ordered_sql;
use crate::joins::plain_source;
use crate::lines::{ReadLines, having};
use crate::names::column_names;
use crate::nested::nested_source;
use crate::system::System;
use crate::texts::commas;
use ssb_questions::{Measure, OrderKey, Plan, Query, Question, question};
use ssb_schema::Column;
use std::alloc::{AllocError, Global};

// The sum over lines.
fn sum_sql(system: System, measure: Measure) -> &'static str
    ensures { result.now ≡ spec.sum_sql system measure }
{
    match (measure, system) {
        (Measure::Revenue, _) => "sum(lo_revenue)",
        (Measure::Profit, System::Clickhouse) => {
            "sum(toInt64(lo_revenue) - toInt64(lo_supplycost))"
        }
        (Measure::Profit, _) => "sum(lo_revenue - lo_supplycost)",
        (Measure::PriceTimesDiscount, _) => "sum(lo_extendedprice * lo_discount)",
        (Measure::Quantity, _) => "sum(lo_quantity)",
        (Measure::ExtendedPrice, _) => "sum(lo_extendedprice)",
        (Measure::SupplyCost, _) => "sum(lo_supplycost)",
        (Measure::Lines, System::Clickhouse) => "count()",
        (Measure::Lines, _) => "count(*)",
    }
}

// The sum over all lines, which is NULL over none.
fn whole_sum_sql(alloc: Global, system: System, measure: Measure) -> Result<String, AllocError>
    ensures { IfOk result (λ text. string_bytes text ≡ spec.whole_sum_sql system measure) }
{
    let sum = sum_sql(system, measure);
    match (system, measure) {
        (System::Clickhouse, _) => ["if(count() = 0, NULL, ", sum, ")"].concat(alloc),
        (_, Measure::Lines) => String::from_str(alloc, "nullif(count(*), 0)"),
        _ => String::from_str(alloc, sum),
    }
}

// The sum over signed lines: a line that went is taken off again.
fn signed_sum_sql(system: System, measure: Measure) -> &'static str
    ensures { result.now ≡ spec.signed_sum_sql system measure }
{
    match (measure, system) {
        (Measure::Revenue, _) => "sum(sign * lo_revenue)",
        (Measure::Profit, System::Clickhouse) => {
            "sum(sign * (toInt64(lo_revenue) - toInt64(lo_supplycost)))"
        }
        (Measure::Profit, _) => "sum(sign * (lo_revenue - lo_supplycost))",
        (Measure::PriceTimesDiscount, _) => "sum(sign * lo_extendedprice * lo_discount)",
        (Measure::Quantity, _) => "sum(sign * lo_quantity)",
        (Measure::ExtendedPrice, _) => "sum(sign * lo_extendedprice)",
        (Measure::SupplyCost, _) => "sum(sign * lo_supplycost)",
        (Measure::Lines, _) => "sum(sign)",
    }
}

// The sum over all signed lines, which is NULL where as many went as came.
fn whole_signed_sum_sql(
    alloc: Global,
    system: System,
    measure: Measure,
) -> Result<String, AllocError>
    ensures { IfOk result (λ text. string_bytes text ≡ spec.whole_signed_sum_sql system measure) }
{
    let sum = signed_sum_sql(system, measure);
    match (system, measure) {
        (System::Clickhouse, _) => ["if(sum(sign) = 0, NULL, ", sum, ")"].concat(alloc),
        (_, Measure::Lines) => String::from_str(alloc, "nullif(sum(sign), 0)"),
        _ => ["CASE WHEN sum(sign) > 0 THEN ", sum, " END"].concat(alloc),
    }
}

// The sum over a group of lines.
fn group_sum(system: System, lines: ReadLines, measure: Measure) -> &'static str
    ensures { result.now ≡ spec.group_sum system lines measure }
{
    match lines {
        ReadLines::Lineorder => sum_sql(system, measure),
        ReadLines::AsOf(_) => signed_sum_sql(system, measure),
    }
}

// The sum over all.
fn whole_sum(
    alloc: Global,
    system: System,
    lines: ReadLines,
    measure: Measure,
) -> Result<String, AllocError>
    ensures { IfOk result (λ text. string_bytes text ≡ spec.whole_sum system lines measure) }
{
    match lines {
        ReadLines::Lineorder => whole_sum_sql(alloc, system, measure),
        ReadLines::AsOf(_) => whole_signed_sum_sql(alloc, system, measure),
    }
}

fn total(alloc: Global, system: System, lines: ReadLines, plan: &Plan) -> Result<String, AllocError>
    ensures { IfOk result (λ text. string_bytes text ≡ spec.total system lines plan.now) }
{
    let sum = match plan.groups.as_slice() {
        [] => whole_sum(alloc, system, lines, plan.measure)?,
        [_, ..] => String::from_str(alloc, group_sum(system, lines, plan.measure))?,
    };
    [sum.as_str(), " AS total"].concat(alloc)
}

// The printed columns.
fn selected(
    alloc: Global,
    system: System,
    lines: ReadLines,
    query: Query,
    plan: &Plan,
) -> Result<Vec<String>, AllocError>
    ensures { IfOk result (λ names. map string_bytes names.items ≡ spec.selected system lines query plan.now) }
{
    let total = total(alloc, system, lines, plan)?;
    let mut columns = column_names(alloc, plan.groups.as_slice())?;
    if query.sum_stands_first() {
        let mut names = Vec::new(alloc);
        names.push(total)?;
        names.append(&mut columns)?;
        Ok(names)
    } else {
        columns.push(total)?;
        Ok(columns)
    }
}

fn key_of(alloc: Global, system: System, plan: &Plan, key: OrderKey) -> Result<String, AllocError>
    ensures { IfOk result (λ text. string_bytes text ≡ spec.key_of system plan.now key) }
{
    match key {
        OrderKey::SumDescending => String::from_str(alloc, "total DESC"),
        OrderKey::Group(place) => match plan.groups.get(place) {
            Some(column) => ordered_sql(alloc, system, *column),
            None => Ok(String::new(alloc)),
        },
    }
}

fn keys(alloc: Global, system: System, plan: &Plan) -> Result<Vec<String>, AllocError>
    ensures { IfOk result (λ keys. map string_bytes keys.items ≡ map (spec.key_of system plan.now) plan.now.order) }
{
    let mut keys = Vec::new(alloc);
    for key in plan.order.as_slice() {
        keys.push(key_of(alloc, system, plan, *key)?)?;
    }
    Ok(keys)
}

fn name_list(alloc: Global, columns: &[Column]) -> Result<String, AllocError>
    ensures { IfOk result (λ text. string_bytes text ≡ texts.commas (map names.column_sql columns.now)) }
{
    let names = column_names(alloc, columns)?;
    commas(alloc, names.as_slice())
}

fn key_list(alloc: Global, system: System, plan: &Plan) -> Result<String, AllocError>
    ensures { IfOk result (λ text. string_bytes text
        ≡ texts.commas (map (spec.key_of system plan.now) plan.now.order)) }
{
    let keys = keys(alloc, system, plan)?;
    commas(alloc, keys.as_slice())
}

// One row for each group that has lines, in order.
fn in_groups(
    alloc: Global,
    system: System,
    lines: ReadLines,
    plan: &Plan,
    groups: &[Column],
) -> Result<String, AllocError>
    ensures { IfOk result (λ text. string_bytes text ≡ spec.in_groups system lines plan.now groups.now) }
{
    let names = name_list(alloc, groups)?;
    let keys = key_list(alloc, system, plan)?;
    [
        "\nGROUP BY ",
        names.as_str(),
        having(lines),
        "\nORDER BY ",
        keys.as_str(),
    ]
    .concat(alloc)
}

// The same; nothing where there are no groups.
fn grouped_by(
    alloc: Global,
    system: System,
    lines: ReadLines,
    plan: &Plan,
    groups: &[Column],
) -> Result<String, AllocError>
    ensures { IfOk result (λ text. string_bytes text ≡ spec.grouped_by system lines plan.now groups.now) }
{
    match groups {
        [] => Ok(String::new(alloc)),
        [_, ..] => in_groups(alloc, system, lines, plan, groups),
    }
}

fn source(
    alloc: Global,
    system: System,
    lines: ReadLines,
    plan: &Plan,
) -> Result<String, AllocError>
    ensures { IfOk result (λ text. string_bytes text ≡ joins.source system lines plan.now) }
{
    match system {
        System::Sqlite | System::Postgresql => plain_source(alloc, system, lines, plan),
        System::Clickhouse => nested_source(alloc, lines, plan),
    }
}

/// What a statement is written for.
#[derive(Clone, Copy, Debug, PartialEq, Eq)]
pub struct SqlTarget {
    /// Whose SQL it is.
    pub system: System,
    /// Which lines it reads.
    pub lines: ReadLines,
}

/// The question as one statement of the system's SQL, over the benchmark's tables with the names of their columns in lower
/// case; the table of dates is `dwdate`. Its rows are those of the question's report, in the same order. No text of the
/// question can end a literal. As of a commit the lines are those of `signed_lines`, whose `sign` says whether a line came
/// by commit `commit_number` or went: what went is taken off each sum again, and a group of which as many lines went as
/// came is left out.
pub fn sql_statement(
    alloc: Global,
    target: SqlTarget,
    question: &Question,
) -> Result<String, AllocError>
    ensures { IfOk result (λ text. string_bytes text
        ≡ spec.statement_text target.system target.lines question.now.0
        (plan_over question.now.0 question.now.1)) }
{
    let SqlTarget { system, lines } = target;
    let plan = question::plan(alloc, question)?;
    let selected = selected(alloc, system, lines, question.query(), &plan)?;
    let selected = commas(alloc, selected.as_slice())?;
    let source = source(alloc, system, lines, &plan)?;
    let grouped = grouped_by(alloc, system, lines, &plan, plan.groups.as_slice())?;
    [
        "SELECT ",
        selected.as_str(),
        "\nFROM ",
        source.as_str(),
        grouped.as_str(),
        ";\n",
    ]
    .concat(alloc)
}
