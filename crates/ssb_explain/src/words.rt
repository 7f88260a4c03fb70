//! A question in words: its clauses as `star` spells them, its printed columns, and the order of its rows.

ghost use Rattle.std.specs.Prelude.{◌≡◌, ◌==◌, [], ◌∷◌, ◌++◌, IfOk, OnOk, codes, map, not};
ghost use Rattle.std.specs.List.{list_all, list_any};
ghost use Rattle.std.specs.String.{string_bytes};
ghost use Rattle.ssb_schema.specs.Columns.{column_name};
ghost use Rattle.ssb_questions.specs.Clause as said;
ghost use Rattle.ssb_questions.specs.ClauseSaid.{said as clause_said, value_said};
ghost use Rattle.ssb_questions.specs.Laws as laws;
ghost use Rattle.ssb_questions.specs.Queries.{plan_over};
ghost use Rattle.ssb_questions.specs.Query.{name_of};
ghost use Rattle.ssb_explain.specs.Words as spec;

use crate::texts::{joined, three};
use ssb_questions::{
    Clause, Cond, NumberRange, OrderKey, Plan, Query, Question, Spelled, Test, Value, question,
};
use ssb_schema::{Column, Text};
use std::alloc::{AllocError, Global};

// A clause for each text, or number, that a column may have.
fn add_texts<'a>(
    clauses: &mut Vec<Clause<'a>>,
    column: Column,
    texts: &'a [Text],
) -> Result<(), AllocError>
    ensures { OnOk result (map clause_said clauses.new.items
        ≡ map clause_said clauses.old.items ++ map (spec.text_clause column) texts.now) }
{
    for text in texts {
        clauses.push(Clause::Is(column, Spelled::Text(text.as_str())))?;
    }
    Ok(())
}

fn add_numbers(
    clauses: &mut Vec<Clause<'_>>,
    column: Column,
    numbers: &[u64],
) -> Result<(), AllocError>
    ensures { OnOk result (map clause_said clauses.new.items
        ≡ map clause_said clauses.old.items ++ map (spec.number_clause column) numbers.now) }
{
    for number in numbers {
        clauses.push(Clause::Is(column, Spelled::Number(*number)))?;
    }
    Ok(())
}

// A clause for each text, or number, that a column has not.
fn exclude_texts<'a>(
    clauses: &mut Vec<Clause<'a>>,
    column: Column,
    texts: &'a [Text],
) -> Result<(), AllocError>
    ensures { OnOk result (map clause_said clauses.new.items
        ≡ map clause_said clauses.old.items ++ map (spec.text_exclusion column) texts.now) }
{
    for text in texts {
        clauses.push(Clause::IsNot(column, Spelled::Text(text.as_str())))?;
    }
    Ok(())
}

fn exclude_numbers(
    clauses: &mut Vec<Clause<'_>>,
    column: Column,
    numbers: &[u64],
) -> Result<(), AllocError>
    ensures { OnOk result (map clause_said clauses.new.items
        ≡ map clause_said clauses.old.items ++ map (spec.number_exclusion column) numbers.now) }
{
    for number in numbers {
        clauses.push(Clause::IsNot(column, Spelled::Number(*number)))?;
    }
    Ok(())
}

// The clauses that ask what a test asks.
fn add_test<'a>(clauses: &mut Vec<Clause<'a>>, test: &'a Test) -> Result<(), AllocError>
    ensures { OnOk result (map clause_said clauses.new.items
        ≡ map clause_said clauses.old.items ++ spec.test_clauses test.now.column test.now.cond) }
{
    let column = test.column;
    match &test.cond {
        Cond::TextIs(text) => {
            clauses.push(Clause::Is(column, Spelled::Text(text.as_str())))?;
            Ok(())
        }
        Cond::TextFromTo(from, to) => {
            let (from, to) = (Spelled::Text(from.as_str()), Spelled::Text(to.as_str()));
            clauses.push(Clause::FromTo(column, from, to))?;
            Ok(())
        }
        Cond::TextOneOf(texts) => add_texts(clauses, column, texts.as_slice()),
        Cond::NumberIs(number) => {
            clauses.push(Clause::Is(column, Spelled::Number(*number)))?;
            Ok(())
        }
        Cond::NumberFromTo(from, to) => {
            let (from, to) = (Spelled::Number(*from), Spelled::Number(*to));
            clauses.push(Clause::FromTo(column, from, to))?;
            Ok(())
        }
        Cond::NumberOneOf(numbers) => add_numbers(clauses, column, numbers.as_slice()),
        Cond::TextNoneOf(texts) => exclude_texts(clauses, column, texts.as_slice()),
        Cond::NumberNoneOf(numbers) => exclude_numbers(clauses, column, numbers.as_slice()),
    }
}

fn add_tests<'a>(clauses: &mut Vec<Clause<'a>>, tests: &'a [Test]) -> Result<(), AllocError>
    ensures { OnOk result (map clause_said clauses.new.items
        ≡ map clause_said clauses.old.items ++ spec.tests_clauses tests.now) }
{
    for test in tests {
        add_test(clauses, test)?;
    }
    Ok(())
}

fn add_groups(clauses: &mut Vec<Clause<'_>>, groups: &[Column]) -> Result<(), AllocError>
    ensures { OnOk result (map clause_said clauses.new.items
        ≡ map clause_said clauses.old.items ++ map said.GroupsBy groups.now) }
{
    for column in groups {
        clauses.push(Clause::GroupsBy(*column))?;
    }
    Ok(())
}

// Whether rows stand by the sum.
fn is_by_sum(order: &[OrderKey]) -> bool
    ensures { result ≡ list_any spec.is_by_sum order.now }
{
    order
        .iter()
        .any(|key| matches!(key, OrderKey::SumDescending))
}

// The quantity, the discount and the order.
fn add_lines(clauses: &mut Vec<Clause<'_>>, plan: &Plan) -> Result<(), AllocError>
    ensures { OnOk result (map clause_said clauses.new.items
        ≡ map clause_said clauses.old.items ++ (spec.range_clauses said.QuantityIn plan.now.quantity
        ++ (spec.range_clauses said.DiscountIn plan.now.discount ++ spec.order_clauses plan.now.order))) }
{
    if let Some(range) = plan.quantity {
        clauses.push(Clause::QuantityIn(range))?;
    }
    if let Some(range) = plan.discount {
        clauses.push(Clause::DiscountIn(range))?;
    }
    if is_by_sum(plan.order.as_slice()) {
        clauses.push(Clause::BySum)?;
    }
    Ok(())
}

// The clauses of a plan.
fn plan_clauses<'a>(alloc: Global, plan: &'a Plan) -> Result<Vec<Clause<'a>>, AllocError>
    ensures { IfOk result (λ clauses. map clause_said clauses.items ≡ spec.plan_clauses plan.now) }
{
    let mut clauses = Vec::new(alloc);
    clauses.push(Clause::Sums(plan.measure))?;
    add_groups(&mut clauses, plan.groups.as_slice())?;
    add_tests(&mut clauses, plan.customers.as_slice())?;
    add_tests(&mut clauses, plan.suppliers.as_slice())?;
    add_tests(&mut clauses, plan.parts.as_slice())?;
    add_tests(&mut clauses, plan.dates.as_slice())?;
    add_lines(&mut clauses, plan)?;
    Ok(clauses)
}

fn spelled_text(alloc: Global, value: Spelled<'_>) -> Result<String, AllocError>
    ensures { IfOk result (λ text. string_bytes text ≡ laws.value_text (value_said value.entry)) }
{
    match value {
        Spelled::Text(text) => String::from_str(alloc, text),
        Spelled::Number(number) => number.to_string(alloc),
    }
}

// Two values with two points between them.
fn dotted(alloc: Global, from: Spelled<'_>, to: Spelled<'_>) -> Result<String, AllocError>
    ensures { IfOk result (λ text. string_bytes text
        ≡ laws.dotted (laws.value_text (value_said from.entry)) (laws.value_text (value_said to.entry))) }
{
    let from = spelled_text(alloc, from)?;
    let to = spelled_text(alloc, to)?;
    three(alloc, from.as_str(), "..", to.as_str())
}

fn range_text(alloc: Global, range: NumberRange) -> Result<String, AllocError>
    ensures { IfOk result (λ text. string_bytes text ≡ laws.range_text range) }
{
    dotted(
        alloc,
        Spelled::Number(range.from),
        Spelled::Number(range.to),
    )
}

// The constant of `star` that spells a clause.
fn clause_text(alloc: Global, clause: Clause<'_>) -> Result<String, AllocError>
    ensures { IfOk result (λ text. string_bytes text ≡ laws.clause_text (clause_said clause.entry)) }
{
    let (name, value) = match clause {
        Clause::Sums(measure) => return String::from_str(alloc, measure.name()),
        Clause::GroupsBy(column) => return String::from_str(alloc, column.name()),
        Clause::BySum => return String::from_str(alloc, "ORDER=SUM"),
        Clause::Is(column, value) => (column.name(), spelled_text(alloc, value)?),
        Clause::IsNot(column, value) => {
            let value = spelled_text(alloc, value)?;
            return three(alloc, column.name(), "!=", value.as_str());
        }
        Clause::FromTo(column, from, to) => (column.name(), dotted(alloc, from, to)?),
        Clause::QuantityIn(range) => ("LO_QUANTITY", range_text(alloc, range)?),
        Clause::DiscountIn(range) => ("LO_DISCOUNT", range_text(alloc, range)?),
    };
    three(alloc, name, "=", value.as_str())
}

// Whether none of the bytes is a point.
fn have_no_point(bytes: &[u8]) -> bool
    ensures { result ≡ list_all (λ b. not (b == 46)) bytes.now }
{
    bytes.iter().all(|byte| *byte != b'.')
}

fn has_no_point(constant: &Value) -> bool
    ensures { result ≡ spec.has_no_point constant.now }
{
    match constant {
        Value::Text(text) => have_no_point(text.as_str().as_bytes()),
        Value::Number(_) => true,
    }
}

fn have_no_points(constants: &[Value]) -> bool
    ensures { result ≡ list_all spec.has_no_point constants.now }
{
    constants.iter().all(|constant| has_no_point(constant))
}

fn is_star(query: Query) -> bool
    ensures { result ≡ spec.is_star query }
{
    match query {
        Query::Star => true,
        _ => false,
    }
}

// Whether `star` is asked in words of its own, by the clauses of the plan.
fn is_spelled_anew(question: &Question) -> bool
    ensures { result ≡ spec.is_spelled_anew question.now.0 question.now.1 }
{
    let constants = question.constants();
    if is_star(question.query()) {
        false
    } else {
        have_no_points(constants)
    }
}

fn constant_text(alloc: Global, constant: &Value) -> Result<String, AllocError>
    ensures { IfOk result (λ text. string_bytes text ≡ laws.value_text constant.now) }
{
    match constant {
        Value::Text(text) => String::from_str(alloc, text.as_str()),
        Value::Number(number) => number.to_string(alloc),
    }
}

// Two fields.
fn two_fields(alloc: Global, first: &str, second: &str) -> Result<Vec<String>, AllocError>
    ensures { IfOk result (λ fields. map string_bytes fields.items ≡ first.now ∷ second.now ∷ []) }
{
    let mut fields = Vec::new(alloc);
    fields.push(String::from_str(alloc, first)?)?;
    fields.push(String::from_str(alloc, second)?)?;
    Ok(fields)
}

// The request of `star` by clauses.
fn star_fields(alloc: Global, clauses: &[Clause<'_>]) -> Result<Vec<String>, AllocError>
    ensures { IfOk result (λ fields. map string_bytes fields.items
        ≡ codes "query" ∷ codes "star" ∷ map laws.clause_text (map clause_said clauses.now)) }
{
    let mut fields = two_fields(alloc, "query", "star")?;
    for clause in clauses {
        fields.push(clause_text(alloc, *clause)?)?;
    }
    Ok(fields)
}

// The request of the question itself.
fn own_fields(alloc: Global, question: &Question) -> Result<Vec<String>, AllocError>
    ensures { IfOk result (λ fields. map string_bytes fields.items
        ≡ codes "query" ∷ name_of question.now.0 ∷ map laws.value_text question.now.1) }
{
    let constants = question.constants();
    let mut fields = two_fields(alloc, "query", question.query().name())?;
    for constant in constants {
        fields.push(constant_text(alloc, constant)?)?;
    }
    Ok(fields)
}

fn request_fields(
    alloc: Global,
    question: &Question,
    plan: &Plan,
) -> Result<Vec<String>, AllocError>
    requires { plan.now ≡ plan_over question.now.0 question.now.1 }
    ensures { IfOk result (λ fields. map string_bytes fields.items
        ≡ codes "query" ∷ spec.request_fields question.now.0 question.now.1) }
{
    if is_spelled_anew(question) {
        let clauses = plan_clauses(alloc, plan)?;
        star_fields(alloc, clauses.as_slice())
    } else {
        own_fields(alloc, question)
    }
}

// The names of the columns.
fn add_names(alloc: Global, fields: &mut Vec<String>, columns: &[Column]) -> Result<(), AllocError>
    ensures { OnOk result (map string_bytes fields.new.items
        ≡ map string_bytes fields.old.items ++ map column_name columns.now) }
{
    for column in columns {
        fields.push(String::from_str(alloc, column.name())?)?;
    }
    Ok(())
}

fn column_fields(alloc: Global, query: Query, plan: &Plan) -> Result<Vec<String>, AllocError>
    ensures { IfOk result (λ fields. map string_bytes fields.items
        ≡ codes "columns" ∷ spec.column_fields query plan.now) }
{
    let mut fields = Vec::new(alloc);
    fields.push(String::from_str(alloc, "columns")?)?;
    let measure = String::from_str(alloc, plan.measure.name())?;
    if query.sum_stands_first() {
        fields.push(measure)?;
        add_names(alloc, &mut fields, plan.groups.as_slice())?;
    } else {
        add_names(alloc, &mut fields, plan.groups.as_slice())?;
        fields.push(measure)?;
    }
    Ok(fields)
}

fn key_text(alloc: Global, plan: &Plan, key: OrderKey) -> Result<String, AllocError>
    ensures { IfOk result (λ text. string_bytes text ≡ spec.key_text plan.now key) }
{
    match key {
        OrderKey::SumDescending => [plan.measure.name(), " DESC"].concat(alloc),
        OrderKey::Group(place) => match plan.groups.get(place) {
            Some(column) => String::from_str(alloc, column.name()),
            None => Ok(String::new(alloc)),
        },
    }
}

fn order_fields(alloc: Global, plan: &Plan) -> Result<Vec<String>, AllocError>
    ensures { IfOk result (λ fields. map string_bytes fields.items
        ≡ codes "order" ∷ map (spec.key_text plan.now) plan.now.order) }
{
    let mut fields = Vec::new(alloc);
    fields.push(String::from_str(alloc, "order")?)?;
    for key in plan.order.as_slice() {
        fields.push(key_text(alloc, plan, *key)?)?;
    }
    Ok(fields)
}

/// A line of fields, with a bar between each two.
pub fn record_line(alloc: Global, fields: &[String]) -> Result<String, AllocError>
    ensures { IfOk result (λ line. string_bytes line ≡ spec.record_line (map string_bytes fields.now)) }
{
    let line = joined(alloc, "|", fields)?;
    [line.as_str(), "\n"].concat(alloc)
}

fn request_line(alloc: Global, question: &Question, plan: &Plan) -> Result<String, AllocError>
    requires { plan.now ≡ plan_over question.now.0 question.now.1 }
    ensures { IfOk result (λ line. string_bytes line
        ≡ spec.record_line (codes "query" ∷ spec.request_fields question.now.0 question.now.1)) }
{
    let fields = request_fields(alloc, question, plan)?;
    record_line(alloc, fields.as_slice())
}

fn columns_line(alloc: Global, query: Query, plan: &Plan) -> Result<String, AllocError>
    ensures { IfOk result (λ line. string_bytes line
        ≡ spec.record_line (codes "columns" ∷ spec.column_fields query plan.now)) }
{
    let fields = column_fields(alloc, query, plan)?;
    record_line(alloc, fields.as_slice())
}

fn order_line(alloc: Global, plan: &Plan) -> Result<String, AllocError>
    ensures { IfOk result (λ line. string_bytes line
        ≡ spec.record_line (codes "order" ∷ map (spec.key_text plan.now) plan.now.order)) }
{
    let fields = order_fields(alloc, plan)?;
    record_line(alloc, fields.as_slice())
}

// The three lines.
fn explained(alloc: Global, question: &Question, plan: &Plan) -> Result<String, AllocError>
    requires { plan.now ≡ plan_over question.now.0 question.now.1 }
    ensures { IfOk result (λ text. string_bytes text
        ≡ spec.explanation_text question.now.0 question.now.1 plan.now) }
{
    let request = request_line(alloc, question, plan)?;
    let columns = columns_line(alloc, question.query(), plan)?;
    let order = order_line(alloc, plan)?;
    three(alloc, request.as_str(), columns.as_str(), order.as_str())
}

/// The question in words, three lines of fields with bars between them: a request that asks it, of `star` where that can
/// be said by the clauses of `star`; what each printed column is; and the columns by which the rows are ordered, where
/// `DESC` stands behind what begins with the greatest.
pub fn explanation(alloc: Global, question: &Question) -> Result<String, AllocError>
    ensures { IfOk result (λ text. string_bytes text
        ≡ spec.explanation_text question.now.0 question.now.1 (plan_over question.now.0 question.now.1)) }
{
    let plan = question::plan(alloc, question)?;
    explained(alloc, question, &plan)
}
