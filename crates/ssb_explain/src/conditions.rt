//! The tests of a plan as conditions of SQL.

ghost use Rattle.std.specs.Prelude.{◌≡◌, ◌++◌, IfOk, OnOk, decimal, map};
ghost use Rattle.std.specs.String.{string_bytes};
ghost use Rattle.ssb_explain.specs.Conditions as spec;

use crate::names::column_sql;
use crate::system::System;
use crate::texts::{commas, joined, replaced};
use ssb_questions::clause::kind_in;
use ssb_questions::{Cond, ConstantKind, NumberRange, Plan, Test};
use ssb_schema::{Column, Text};
use std::alloc::{AllocError, Global};

// A text as it stands between quotes.
fn escaped(alloc: Global, system: System, text: &str) -> Result<String, AllocError>
    ensures { IfOk result (λ made. string_bytes made ≡ spec.escaped system text.now) }
{
    match system {
        System::Sqlite | System::Postgresql => replaced(alloc, '\'', "''", text),
        System::Clickhouse => {
            let slashed = replaced(alloc, '\\', "\\\\", text)?;
            replaced(alloc, '\'', "\\'", slashed.as_str())
        }
    }
}

// A text between quotes.
fn literal(alloc: Global, system: System, text: &str) -> Result<String, AllocError>
    ensures { IfOk result (λ made. string_bytes made ≡ spec.literal system text.now) }
{
    let text = escaped(alloc, system, text)?;
    ["'", text.as_str(), "'"].concat(alloc)
}

fn literals(alloc: Global, system: System, texts: &[Text]) -> Result<Vec<String>, AllocError>
    ensures { IfOk result (λ made. map string_bytes made.items ≡ map (spec.literal system) texts.now) }
{
    let mut made = Vec::new(alloc);
    for text in texts {
        made.push(literal(alloc, system, text.as_str())?)?;
    }
    Ok(made)
}

fn decimals(alloc: Global, numbers: &[u64]) -> Result<Vec<String>, AllocError>
    ensures { IfOk result (λ made. map string_bytes made.items ≡ map decimal numbers.now) }
{
    let mut made = Vec::new(alloc);
    for number in numbers {
        made.push(number.to_string(alloc)?)?;
    }
    Ok(made)
}

/// A column where its order counts. It is that of bytes; PostgreSQL has to be told so of texts.
pub fn ordered_sql(alloc: Global, system: System, column: Column) -> Result<String, AllocError>
    ensures { IfOk result (λ name. string_bytes name ≡ spec.ordered_sql system column) }
{
    let name = column_sql(alloc, column)?;
    match (system, kind_in(column)) {
        (System::Postgresql, ConstantKind::Text(_)) => {
            [name.as_str(), " COLLATE \"C\""].concat(alloc)
        }
        _ => Ok(name),
    }
}

fn between<'a>(
    alloc: Global,
    name: &'a str,
    from: &'a str,
    to: &'a str,
) -> Result<String, AllocError>
    ensures { IfOk result (λ text. string_bytes text ≡ spec.between name.now from.now to.now) }
{
    [name, " BETWEEN ", from, " AND ", to].concat(alloc)
}

fn equals<'a>(alloc: Global, name: &'a str, value: &'a str) -> Result<String, AllocError>
    ensures { IfOk result (λ text. string_bytes text ≡ spec.equals name.now value.now) }
{
    [name, " = ", value].concat(alloc)
}

fn one_of(alloc: Global, name: &str, values: &[String]) -> Result<String, AllocError>
    ensures { IfOk result (λ text. string_bytes text ≡ spec.one_of name.now (map string_bytes values.now)) }
{
    let values = commas(alloc, values)?;
    [name, " IN (", values.as_str(), ")"].concat(alloc)
}

fn differs<'a>(alloc: Global, name: &'a str, value: &'a str) -> Result<String, AllocError>
    ensures { IfOk result (λ text. string_bytes text ≡ spec.differs name.now value.now) }
{
    [name, " <> ", value].concat(alloc)
}

fn not_in(alloc: Global, name: &str, values: &[String]) -> Result<String, AllocError>
    ensures { IfOk result (λ text. string_bytes text ≡ spec.not_in name.now (map string_bytes values.now)) }
{
    let values = commas(alloc, values)?;
    [name, " NOT IN (", values.as_str(), ")"].concat(alloc)
}

// None of the values; one alone is told without a list.
fn none_of(alloc: Global, name: &str, values: &[String]) -> Result<String, AllocError>
    ensures { IfOk result (λ text. string_bytes text ≡ spec.none_of name.now (map string_bytes values.now)) }
{
    match values {
        [] => not_in(alloc, name, values),
        [value] => differs(alloc, name, value.as_str()),
        [_, _, ..] => not_in(alloc, name, values),
    }
}

// The column lies between two texts.
fn between_texts(
    alloc: Global,
    system: System,
    column: Column,
    from: &str,
    to: &str,
) -> Result<String, AllocError>
    ensures { IfOk result (λ text. string_bytes text
        ≡ spec.between (spec.ordered_sql system column) (spec.literal system from.now) (spec.literal system to.now)) }
{
    let name = ordered_sql(alloc, system, column)?;
    let from = literal(alloc, system, from)?;
    let to = literal(alloc, system, to)?;
    between(alloc, name.as_str(), from.as_str(), to.as_str())
}

// What is named lies between two numbers.
fn between_numbers(alloc: Global, name: &str, from: u64, to: u64) -> Result<String, AllocError>
    ensures { IfOk result (λ text. string_bytes text ≡ spec.between name.now (decimal from) (decimal to)) }
{
    let from = from.to_string(alloc)?;
    let to = to.to_string(alloc)?;
    between(alloc, name, from.as_str(), to.as_str())
}

fn condition(alloc: Global, system: System, test: &Test) -> Result<String, AllocError>
    ensures { IfOk result (λ text. string_bytes text ≡ spec.condition system test.now) }
{
    let column = column_sql(alloc, test.column)?;
    let name = column.as_str();
    match &test.cond {
        Cond::TextIs(text) => {
            let value = literal(alloc, system, text.as_str())?;
            equals(alloc, name, value.as_str())
        }
        Cond::TextFromTo(from, to) => {
            between_texts(alloc, system, test.column, from.as_str(), to.as_str())
        }
        Cond::TextOneOf(texts) => {
            let values = literals(alloc, system, texts.as_slice())?;
            one_of(alloc, name, values.as_slice())
        }
        Cond::NumberIs(number) => {
            let value = number.to_string(alloc)?;
            equals(alloc, name, value.as_str())
        }
        Cond::NumberFromTo(from, to) => between_numbers(alloc, name, *from, *to),
        Cond::NumberOneOf(numbers) => {
            let values = decimals(alloc, numbers.as_slice())?;
            one_of(alloc, name, values.as_slice())
        }
        Cond::TextNoneOf(texts) => {
            let values = literals(alloc, system, texts.as_slice())?;
            none_of(alloc, name, values.as_slice())
        }
        Cond::NumberNoneOf(numbers) => {
            let values = decimals(alloc, numbers.as_slice())?;
            none_of(alloc, name, values.as_slice())
        }
    }
}

/// The conditions of tests, one by one, behind the others.
pub fn add_conditions(
    alloc: Global,
    system: System,
    found: &mut Vec<String>,
    tests: &[Test],
) -> Result<(), AllocError>
    ensures { OnOk result (map string_bytes found.new.items
        ≡ map string_bytes found.old.items ++ spec.conditions system tests.now) }
{
    for test in tests {
        found.push(condition(alloc, system, test)?)?;
    }
    Ok(())
}

/// The conditions of tests, one by one.
pub fn conditions(alloc: Global, system: System, tests: &[Test]) -> Result<Vec<String>, AllocError>
    ensures { IfOk result (λ found. map string_bytes found.items ≡ spec.conditions system tests.now) }
{
    let mut found = Vec::new(alloc);
    add_conditions(alloc, system, &mut found, tests)?;
    Ok(found)
}

fn add_range(
    alloc: Global,
    found: &mut Vec<String>,
    name: &str,
    range: Option<NumberRange>,
) -> Result<(), AllocError>
    ensures { OnOk result (map string_bytes found.new.items
        ≡ map string_bytes found.old.items ++ spec.range_conditions name.now range) }
{
    if let Some(range) = range {
        found.push(between_numbers(alloc, name, range.from, range.to)?)?;
    }
    Ok(())
}

/// The conditions of the lines themselves, behind the others.
pub fn add_line_conditions(
    alloc: Global,
    found: &mut Vec<String>,
    plan: &Plan,
) -> Result<(), AllocError>
    ensures { OnOk result (map string_bytes found.new.items
        ≡ map string_bytes found.old.items ++ spec.line_conditions plan.now) }
{
    add_range(alloc, found, "lo_quantity", plan.quantity)?;
    add_range(alloc, found, "lo_discount", plan.discount)?;
    Ok(())
}

/// All of the conditions hold; nothing where there are none.
pub fn where_all(
    alloc: Global,
    head: &str,
    and: &str,
    conditions: &[String],
) -> Result<String, AllocError>
    ensures { IfOk result (λ text. string_bytes text
        ≡ spec.where_all head.now and.now (map string_bytes conditions.now)) }
{
    match conditions {
        [] => Ok(String::new(alloc)),
        [_, ..] => {
            let conditions = joined(alloc, and, conditions)?;
            [head, conditions.as_str()].concat(alloc)
        }
    }
}
