//! The plan of a star question over its constants.
ghost use Rattle.std.specs.Prelude.{◌≡◌, IfOk, map, option_map, unwrap_or};
ghost use Rattle.std.specs.List.{filter_map, list_any};
ghost use Rattle.ssb_questions.specs.Clauses.{clauses_of, clause_said};
ghost use Rattle.ssb_questions.specs.ClauseSaid.{said, pair_now};
ghost use Rattle.ssb_questions.specs.Star as spec;

use crate::clause::{Clause, Spelled, clause_of, kind_in};
use crate::clauses::same_column;
use crate::cond::{Cond, Test};
use crate::kind::ConstantKind;
use crate::plan::{Measure, NumberRange, OrderKey, Plan};
use crate::value::Value;
use ssb_schema::{
    C_CITY, C_MKTSEGMENT, C_NATION, C_REGION, Column, D_DATEKEY, D_DAYOFWEEK, D_HOLIDAYFL, D_MONTH,
    D_SELLINGSEASON, D_WEEKNUMINYEAR, D_YEAR, D_YEARMONTH, D_YEARMONTHNUM, Items, P_BRAND1,
    P_CATEGORY, P_MFGR, S_CITY, S_NATION, S_REGION, Text,
};
use std::alloc::{AllocError, Global};

static CUSTOMER_COLUMNS: [Column; 4] = [C_CITY, C_NATION, C_REGION, C_MKTSEGMENT];

static SUPPLIER_COLUMNS: [Column; 3] = [S_CITY, S_NATION, S_REGION];

static PART_COLUMNS: [Column; 3] = [P_MFGR, P_CATEGORY, P_BRAND1];

static DATE_COLUMNS: [Column; 9] = [
    D_DATEKEY,
    D_DAYOFWEEK,
    D_MONTH,
    D_YEAR,
    D_YEARMONTHNUM,
    D_YEARMONTH,
    D_WEEKNUMINYEAR,
    D_SELLINGSEASON,
    D_HOLIDAYFL,
];

// What a constant says.
fn said_by(constant: &Value) -> Option<Clause<'_>>
    ensures { option_map said result ≡ clause_said constant.now }
{
    match constant {
        Value::Text(text) => clause_of(text.as_str()),
        Value::Number(_) => None,
    }
}

// The clauses that the constants spell.
fn clauses<'a>(alloc: Global, constants: &'a [Value]) -> Result<Vec<Clause<'a>>, AllocError>
    ensures { IfOk result (λ found. map said found.items ≡ clauses_of constants.now) }
{
    let mut found = Vec::new(alloc);
    for constant in constants {
        if let Some(clause) = said_by(constant) {
            found.push(clause)?;
        }
    }
    Ok(found)
}

// What is summed, as the first clause that says so has it; else the number of the lines.
fn measure(clauses: &[Clause<'_>]) -> Measure
    ensures { result ≡ unwrap_or (spec.first_in spec.sum_in (map said clauses.now)) Measure.Lines }
{
    match clauses {
        [] => Measure::Lines,
        [Clause::Sums(measure), ..] => *measure,
        [_, rest @ ..] => measure(rest),
    }
}

fn quantity(clauses: &[Clause<'_>]) -> Option<NumberRange>
    ensures { result ≡ spec.first_in spec.quantity_in (map said clauses.now) }
{
    match clauses {
        [] => None,
        [Clause::QuantityIn(range), ..] => Some(*range),
        [_, rest @ ..] => quantity(rest),
    }
}

fn discount(clauses: &[Clause<'_>]) -> Option<NumberRange>
    ensures { result ≡ spec.first_in spec.discount_in (map said clauses.now) }
{
    match clauses {
        [] => None,
        [Clause::DiscountIn(range), ..] => Some(*range),
        [_, rest @ ..] => discount(rest),
    }
}

fn is_by_sum(clauses: &[Clause<'_>]) -> bool
    ensures { result ≡ list_any spec.is_order (map said clauses.now) }
{
    match clauses {
        [] => false,
        [Clause::BySum, ..] => true,
        [_, rest @ ..] => is_by_sum(rest),
    }
}

// The group column that a clause says.
fn group_in(clause: &Clause<'_>) -> Option<Column>
    ensures { result ≡ spec.group_in (said clause.now) }
{
    match clause {
        Clause::GroupsBy(column) => Some(*column),
        _ => None,
    }
}

fn groups(alloc: Global, clauses: &[Clause<'_>]) -> Result<Vec<Column>, AllocError>
    ensures { IfOk result (λ groups. groups.items ≡ filter_map spec.group_in (map said clauses.now)) }
{
    let mut groups = Vec::new(alloc);
    for clause in clauses {
        if let Some(column) = group_in(clause) {
            groups.push(column)?;
        }
    }
    Ok(groups)
}

// The text that a clause looks for in a column.
fn text_in<'a>(column: Column, clause: &Clause<'a>) -> Option<&'a str>
    ensures { option_map (λ text. text.now) result ≡ spec.text_in column (said clause.now) }
{
    match clause {
        Clause::Is(own, Spelled::Text(text)) if same_column(*own, column) => Some(text),
        _ => None,
    }
}

fn number_in(column: Column, clause: &Clause<'_>) -> Option<u64>
    ensures { result ≡ spec.number_in column (said clause.now) }
{
    match clause {
        Clause::Is(own, Spelled::Number(number)) if same_column(*own, column) => Some(*number),
        _ => None,
    }
}

// The text that a clause excludes of a column.
fn text_out<'a>(column: Column, clause: &Clause<'a>) -> Option<&'a str>
    ensures { option_map (λ text. text.now) result ≡ spec.text_out column (said clause.now) }
{
    match clause {
        Clause::IsNot(own, Spelled::Text(text)) if same_column(*own, column) => Some(text),
        _ => None,
    }
}

fn number_out(column: Column, clause: &Clause<'_>) -> Option<u64>
    ensures { result ≡ spec.number_out column (said clause.now) }
{
    match clause {
        Clause::IsNot(own, Spelled::Number(number)) if same_column(*own, column) => Some(*number),
        _ => None,
    }
}

fn texts_in<'a>(column: Column, clause: &Clause<'a>) -> Option<(&'a str, &'a str)>
    ensures { option_map pair_now result ≡ spec.texts_in column (said clause.now) }
{
    match clause {
        Clause::FromTo(own, Spelled::Text(from), Spelled::Text(to)) if same_column(*own, column) =>
            { Some((from, to)) }
        _ => None,
    }
}

fn numbers_in(column: Column, clause: &Clause<'_>) -> Option<(u64, u64)>
    ensures { result ≡ spec.numbers_in column (said clause.now) }
{
    match clause {
        Clause::FromTo(own, Spelled::Number(from), Spelled::Number(to))
            if same_column(*own, column) => { Some((*from, *to)) }
        _ => None,
    }
}

// The first two texts between which a column is to lie.
fn text_ends<'a>(column: Column, clauses: &[Clause<'a>]) -> Option<(&'a str, &'a str)>
    ensures { option_map pair_now result ≡ spec.first_in (spec.texts_in column) (map said clauses.now) }
{
    match clauses {
        [] => None,
        [clause, rest @ ..] => match texts_in(column, clause) {
            Some(ends) => Some(ends),
            None => text_ends(column, rest),
        },
    }
}

fn number_ends(column: Column, clauses: &[Clause<'_>]) -> Option<(u64, u64)>
    ensures { result ≡ spec.first_in (spec.numbers_in column) (map said clauses.now) }
{
    match clauses {
        [] => None,
        [clause, rest @ ..] => match numbers_in(column, clause) {
            Some(ends) => Some(ends),
            None => number_ends(column, rest),
        },
    }
}

fn texts(alloc: Global, column: Column, clauses: &[Clause<'_>]) -> Result<Vec<Text>, AllocError>
    ensures { IfOk result (λ texts. texts.items ≡ filter_map (spec.text_in column) (map said clauses.now)) }
{
    let mut texts = Vec::new(alloc);
    for clause in clauses {
        if let Some(text) = text_in(column, clause) {
            texts.push(Text::from_str(alloc, text)?)?;
        }
    }
    Ok(texts)
}

fn numbers(alloc: Global, column: Column, clauses: &[Clause<'_>]) -> Result<Vec<u64>, AllocError>
    ensures { IfOk result (λ numbers. numbers.items ≡ filter_map (spec.number_in column) (map said clauses.now)) }
{
    let mut numbers = Vec::new(alloc);
    for clause in clauses {
        if let Some(number) = number_in(column, clause) {
            numbers.push(number)?;
        }
    }
    Ok(numbers)
}

// The texts that the clauses exclude of a column.
fn texts_out(alloc: Global, column: Column, clauses: &[Clause<'_>]) -> Result<Vec<Text>, AllocError>
    ensures { IfOk result (λ texts. texts.items ≡ filter_map (spec.text_out column) (map said clauses.now)) }
{
    let mut texts = Vec::new(alloc);
    for clause in clauses {
        if let Some(text) = text_out(column, clause) {
            texts.push(Text::from_str(alloc, text)?)?;
        }
    }
    Ok(texts)
}

fn numbers_out(
    alloc: Global,
    column: Column,
    clauses: &[Clause<'_>],
) -> Result<Vec<u64>, AllocError>
    ensures { IfOk result (λ numbers. numbers.items ≡ filter_map (spec.number_out column) (map said clauses.now)) }
{
    let mut numbers = Vec::new(alloc);
    for clause in clauses {
        if let Some(number) = number_out(column, clause) {
            numbers.push(number)?;
        }
    }
    Ok(numbers)
}

fn one_of_texts(mut texts: Vec<Text>) -> Option<Cond>
    ensures { result ≡ spec.one_of_texts texts.items }
{
    match texts.len() {
        0 => None,
        1 => texts.pop().map(Cond::TextIs),
        _ => Some(Cond::TextOneOf(Items::from_vec(texts))),
    }
}

fn one_of_numbers(mut numbers: Vec<u64>) -> Option<Cond>
    ensures { result ≡ spec.one_of_numbers numbers.items }
{
    match numbers.len() {
        0 => None,
        1 => numbers.pop().map(Cond::NumberIs),
        _ => Some(Cond::NumberOneOf(Items::from_vec(numbers))),
    }
}

// What the clauses ask of a column.
fn cond(alloc: Global, clauses: &[Clause<'_>], column: Column) -> Result<Option<Cond>, AllocError>
    ensures { IfOk result (λ cond. cond ≡ spec.cond_of (map said clauses.now) column) }
{
    match kind_in(column) {
        ConstantKind::Text(_) => match text_ends(column, clauses) {
            Some((from, to)) => Ok(Some(Cond::TextFromTo(
                Text::from_str(alloc, from)?,
                Text::from_str(alloc, to)?,
            ))),
            None => Ok(one_of_texts(texts(alloc, column, clauses)?)),
        },
        ConstantKind::Number => match number_ends(column, clauses) {
            Some((from, to)) => Ok(Some(Cond::NumberFromTo(from, to))),
            None => Ok(one_of_numbers(numbers(alloc, column, clauses)?)),
        },
    }
}

fn none_of_texts(texts: Vec<Text>) -> Option<Cond>
    ensures { result ≡ spec.none_of_texts texts.items }
{
    match texts.len() {
        0 => None,
        _ => Some(Cond::TextNoneOf(Items::from_vec(texts))),
    }
}

fn none_of_numbers(numbers: Vec<u64>) -> Option<Cond>
    ensures { result ≡ spec.none_of_numbers numbers.items }
{
    match numbers.len() {
        0 => None,
        _ => Some(Cond::NumberNoneOf(Items::from_vec(numbers))),
    }
}

// What the clauses exclude of a column.
fn exclusion(
    alloc: Global,
    clauses: &[Clause<'_>],
    column: Column,
) -> Result<Option<Cond>, AllocError>
    ensures { IfOk result (λ cond. cond ≡ spec.exclusion_of (map said clauses.now) column) }
{
    match kind_in(column) {
        ConstantKind::Text(_) => Ok(none_of_texts(texts_out(alloc, column, clauses)?)),
        ConstantKind::Number => Ok(none_of_numbers(numbers_out(alloc, column, clauses)?)),
    }
}

// The test of a column, if the clauses ask anything of it.
fn test(alloc: Global, clauses: &[Clause<'_>], column: Column) -> Result<Option<Test>, AllocError>
    ensures { IfOk result (λ test. test ≡ spec.test_of (map said clauses.now) column) }
{
    match cond(alloc, clauses, column)? {
        Some(cond) => Ok(Some(Test { column, cond })),
        None => Ok(None),
    }
}

// The test of a column, if the clauses exclude something of it.
fn exclusion_test(
    alloc: Global,
    clauses: &[Clause<'_>],
    column: Column,
) -> Result<Option<Test>, AllocError>
    ensures { IfOk result (λ test. test ≡ spec.exclusion_test (map said clauses.now) column) }
{
    match exclusion(alloc, clauses, column)? {
        Some(cond) => Ok(Some(Test { column, cond })),
        None => Ok(None),
    }
}

// The tests of what the clauses ask of these columns.
fn asked(alloc: Global, clauses: &[Clause<'_>], columns: &[Column]) -> Result<Vec<Test>, AllocError>
    ensures { IfOk result (λ tests. tests.items ≡ filter_map (spec.test_of (map said clauses.now)) columns.now) }
{
    let mut tests = Vec::new(alloc);
    for column in columns {
        if let Some(test) = test(alloc, clauses, *column)? {
            tests.push(test)?;
        }
    }
    Ok(tests)
}

// The tests of what the clauses exclude of these columns.
fn excluded(
    alloc: Global,
    clauses: &[Clause<'_>],
    columns: &[Column],
) -> Result<Vec<Test>, AllocError>
    ensures { IfOk result (λ tests. tests.items
        ≡ filter_map (spec.exclusion_test (map said clauses.now)) columns.now) }
{
    let mut tests = Vec::new(alloc);
    for column in columns {
        if let Some(test) = exclusion_test(alloc, clauses, *column)? {
            tests.push(test)?;
        }
    }
    Ok(tests)
}

// The tests of these columns.
fn tests(
    alloc: Global,
    clauses: &[Clause<'_>],
    columns: &[Column],
) -> Result<Items<Test>, AllocError>
    ensures { IfOk result (λ tests. tests ≡ spec.tests_of (map said clauses.now) columns.now) }
{
    let mut tests = asked(alloc, clauses, columns)?;
    let mut excluded = excluded(alloc, clauses, columns)?;
    if tests.append(&mut excluded).is_err() {
        return Err(AllocError);
    }
    Ok(Items::from_vec(tests))
}

// By the sum, if it is so, and then by so many group columns.
fn order(alloc: Global, by_sum: bool, groups: usize) -> Result<Items<OrderKey>, AllocError>
    ensures { IfOk result (λ order. order ≡ spec.order_of by_sum groups) }
{
    let mut order = Vec::new(alloc);
    if by_sum {
        order.push(OrderKey::SumDescending)?;
    }
    for place in 0..groups {
        order.push(OrderKey::Group(place))?;
    }
    Ok(Items::from_vec(order))
}

// The plan that the clauses spell.
fn plan_said(alloc: Global, clauses: &[Clause<'_>]) -> Result<Plan, AllocError>
    ensures { IfOk result (λ plan. plan ≡ spec.star_plan (map said clauses.now)) }
{
    let groups = groups(alloc, clauses)?;
    let order = order(alloc, is_by_sum(clauses), groups.len())?;
    Ok(Plan {
        customers: tests(alloc, clauses, &CUSTOMER_COLUMNS)?,
        suppliers: tests(alloc, clauses, &SUPPLIER_COLUMNS)?,
        parts: tests(alloc, clauses, &PART_COLUMNS)?,
        dates: tests(alloc, clauses, &DATE_COLUMNS)?,
        quantity: quantity(clauses),
        discount: discount(clauses),
        measure: measure(clauses),
        groups: Items::from_vec(groups),
        order,
    })
}

/// The plan of a star question over its constants; those that are no clauses change nothing.
pub fn star_plan(alloc: Global, constants: &[Value]) -> Result<Plan, AllocError>
    ensures { IfOk result (λ plan. plan ≡ spec.star_plan_over constants.now) }
{
    let clauses = clauses(alloc, constants)?;
    plan_said(alloc, clauses.as_slice())
}
