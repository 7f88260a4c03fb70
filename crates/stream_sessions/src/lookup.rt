//! What a client looks up beside its answers: the columns that questions read, the values of one, the server's figures.

ghost use Rattle.std.specs.Prelude.{◌≡◌, ◌<◌, ◌+◌, [], IfOk, OnOk, drop, length, map, take};
ghost use Rattle.ssb_answers.specs.Ordered.{in_order};
ghost use Rattle.ssb_questions.specs.Value.{value_cmp};
ghost use Rattle.ssb_questions.specs.Clause as clause;
ghost use Rattle.ssb_report.specs.OverviewText.{overview_of};
ghost use Rattle.ssb_statements.specs.Listing.{takes_number};
ghost use Rattle.stream_sessions.specs.Lookups as spec;
ghost use Rattle.stream_sessions.specs.Lookups.{IsOverview, text_cell, value_row};

use crate::past::Past;
use server_figures::Figures;
use ssb_answers::QueryFields;
use ssb_base::{Base, MOST_LINES};
use ssb_questions::clause::kind_in;
use ssb_questions::{ConstantKind, Value};
use ssb_report::Overview;
use ssb_schema::{Column, Items, Row, Table, Text, query_columns};
use ssb_statements::StatementCell;
use std::alloc::{AllocError, Global};
use std::collections::BTreeSet;

/// The most values of a column that are shown.
const MOST_VALUES: usize = 10_000;

/// What is looked up.
#[derive(Clone, Copy, Debug, PartialEq, Eq)]
pub(crate) enum Lookup {
    /// The columns that questions read.
    Columns,
    /// The values of one of them.
    Values(Column),
    /// What the server has done so far.
    Status,
}

/// Cells that stand in a line.
type Cells = Items<StatementCell>;

// The cell of a text.
fn text_cell(alloc: Global, text: &str) -> Result<StatementCell, AllocError>
    ensures { IfOk result (λ cell. cell ≡ text_cell text.now) }
{
    let text = Text::from_str(alloc, text)?;
    Ok(StatementCell::Plain(Some(Value::Text(text))))
}

// The heads of columns.
fn heads_of(alloc: Global, names: &[&str]) -> Result<Vec<Text>, AllocError>
    ensures { IfOk result (λ heads. heads.items ≡ map (λ name. name.now) names.now) }
{
    let mut heads = Vec::new(alloc);
    for name in names {
        heads.push(Text::from_str(alloc, name)?)?;
    }
    Ok(heads)
}

// All these rows, or the first of so many, under heads of columns that have numbers or not.
fn overview(
    alloc: Global,
    name: Text,
    heads: &[&str],
    are_numbers: &[bool],
    rows: Vec<Cells>,
    count: usize,
) -> Result<Overview, AllocError>
    ensures { IfOk result (λ overview. overview_of overview ≡ record {
      name = name;
      heads = map (λ head. head.now) heads.now;
      are_numbers = are_numbers.now;
      rows = rows.items;
      count = count;
    }) }
{
    Ok(Overview {
        name,
        heads: heads_of(alloc, heads)?,
        are_numbers: are_numbers.to_vec(alloc)?,
        rows,
        count,
    })
}

// What a column takes, in a word.
fn kind_word(kind: ConstantKind) -> &'static str
    ensures { result.now ≡ spec.kind_word kind }
{
    match kind {
        ConstantKind::Number => "number",
        ConstantKind::Text(_) => "text",
    }
}

// A column, its table, and what it takes.
fn column_row(alloc: Global, column: Column) -> Result<Cells, AllocError>
    ensures { IfOk result (λ row. row ≡ spec.column_row column) }
{
    let mut row = Vec::new(alloc);
    row.push(text_cell(alloc, column.name())?)?;
    row.push(text_cell(alloc, column.table.name())?)?;
    row.push(text_cell(alloc, kind_word(kind_in(column)))?)?;
    Ok(Items::from_vec(row))
}

fn column_rows(alloc: Global, columns: &[Column]) -> Result<Vec<Cells>, AllocError>
    ensures { IfOk result (λ rows. rows.items ≡ map spec.column_row columns.now) }
{
    let mut rows = Vec::new(alloc);
    for column in columns {
        rows.push(column_row(alloc, *column)?)?;
    }
    Ok(rows)
}

// The columns that questions read.
fn columns(alloc: Global) -> Result<Overview, AllocError>
    ensures { IfOk result (λ overview. overview_of overview ≡ spec.columns_overview) }
{
    let columns = query_columns();
    let name = Text::from_str(alloc, "columns")?;
    let rows = column_rows(alloc, columns)?;
    overview(
        alloc,
        name,
        &["column", "table", "takes"],
        &[false, false, false],
        rows,
        columns.len(),
    )
}

// Puts the value of a row among those of the rows behind it.
fn put_value<F: QueryFields>(
    values: &mut BTreeSet<Value>,
    rows: &[Row<F>],
    place: usize,
    at: usize,
) -> Result<(), AllocError>
    requires within { at < length rows.now }
    requires behind { values.old.keys ≡ in_order value_cmp (map (F.value_of place) (drop (at + 1) rows.now)) }
    ensures { OnOk result (values.new.keys ≡ in_order value_cmp (map (F.value_of place) (drop at rows.now))) }
{
    let value = F::value(&rows[at], place).to_value()?;
    let Ok(_) = values.insert(value) else {
        return Err(AllocError);
    };
    Ok(())
}

// The values that rows have in a column, each once, in order.
fn distinct<F: QueryFields>(
    alloc: Global,
    rows: &[Row<F>],
    place: usize,
) -> Result<BTreeSet<Value>, AllocError>
    ensures { IfOk result (λ values. values.keys ≡ in_order value_cmp (map (F.value_of place) rows.now)) }
{
    let mut values = BTreeSet::new(alloc);
    let mut left = rows.len();
    while left > 0 {
        left -= 1;
        put_value(&mut values, rows, place, left)?;
    }
    Ok(values)
}

// The values that the rows of a dimension have in a column, each once, in order.
fn distinct_in(alloc: Global, base: &Base, column: Column) -> Result<BTreeSet<Value>, AllocError>
    ensures { IfOk result (λ values. values.keys ≡ spec.distinct_values base.now column) }
{
    match column.table {
        Table::Customer => distinct(alloc, base.customers().rows(), column.place),
        Table::Supplier => distinct(alloc, base.suppliers().rows(), column.place),
        Table::Part => distinct(alloc, base.parts().rows(), column.place),
        Table::Date => distinct(alloc, base.dates().rows(), column.place),
        Table::Lineorder => Ok(BTreeSet::new(alloc)),
    }
}

fn listed(alloc: Global, set: BTreeSet<Value>) -> Result<Vec<Value>, AllocError>
    ensures { IfOk result (λ values. values.items ≡ set.keys) }
{
    let mut values = Vec::new(alloc);
    for value in set {
        values.push(value)?;
    }
    Ok(values)
}

#[tactic(auto, unfolding(crate::specs::Lookups::most_values))]
fn most_values() -> usize
    ensures { result ≡ spec.most_values }
{
    MOST_VALUES
}

// The values that are shown of these.
#[tactic(auto, using(crate::proofs::LookupLaws::all_taken))]
fn first_values(values: &[Value]) -> &[Value]
    ensures { result.now ≡ take spec.most_values values.now }
{
    let most = most_values();
    if values.len() <= most {
        values
    } else {
        &values[..most]
    }
}

fn value_cells(alloc: Global, value: &Value) -> Result<Cells, AllocError>
    ensures { IfOk result (λ row. row ≡ value_row value.now) }
{
    let mut row = Vec::new(alloc);
    row.push(StatementCell::Plain(Some(value.clone()?)))?;
    Ok(Items::from_vec(row))
}

fn value_rows(alloc: Global, values: &[Value]) -> Result<Vec<Cells>, AllocError>
    ensures { IfOk result (λ rows. rows.items ≡ map value_row values.now) }
{
    let mut rows = Vec::new(alloc);
    for value in values {
        rows.push(value_cells(alloc, value)?)?;
    }
    Ok(rows)
}

// What the values of a column are called.
fn values_name(alloc: Global, column: Column) -> Result<Text, AllocError>
    ensures { IfOk result (λ name. name ≡ (spec.values_overview column []).name) }
{
    let mut name = String::from_str(alloc, "values ")?;
    name.push_str(column.name())?;
    Ok(Text::new(name))
}

fn is_number(column: Column) -> bool
    ensures { result ≡ takes_number (clause.kind_in column) }
{
    matches!(kind_in(column), ConstantKind::Number)
}

// The values of a column.
fn values(alloc: Global, base: &Base, column: Column) -> Result<Overview, AllocError>
    ensures { IfOk result (λ overview. overview_of overview
        ≡ spec.values_overview column (spec.distinct_values base.now column)) }
{
    let all = listed(alloc, distinct_in(alloc, base, column)?)?;
    let rows = value_rows(alloc, first_values(all.as_slice()))?;
    let name = values_name(alloc, column)?;
    overview(
        alloc,
        name,
        &[column.name()],
        &[is_number(column)],
        rows,
        all.len(),
    )
}

// A number of a status. One above 2^63 - 1 is told as that.
fn amount_cell(amount: u64) -> StatementCell
    ensures { result ≡ spec.amount_cell amount }
{
    StatementCell::Number(Some(amount.min(9_223_372_036_854_775_807) as i64))
}

// A figure with its name.
#[derive(Clone, Copy)]
struct Amount(&'static str, u64);

fn amount_row(alloc: Global, amount: Amount) -> Result<Cells, AllocError>
    ensures { IfOk result (λ row. row ≡ spec.amount_row amount.0.now amount.1) }
{
    let mut row = Vec::new(alloc);
    row.push(text_cell(alloc, amount.0)?)?;
    row.push(amount_cell(amount.1))?;
    Ok(Items::from_vec(row))
}

fn amount_rows(alloc: Global, amounts: &[Amount]) -> Result<Vec<Cells>, AllocError>
    ensures { IfOk result (λ rows. rows.items ≡ map (λ amount. spec.amount_row amount.0.now amount.1) amounts.now) }
{
    let mut rows = Vec::new(alloc);
    for amount in amounts {
        rows.push(amount_row(alloc, *amount)?)?;
    }
    Ok(rows)
}

// What the server has done, and refusals by their cause, where there are so many commits in all.
fn status_rows(alloc: Global, commits: u64, figures: Figures) -> Result<Vec<Cells>, AllocError>
    ensures { IfOk result (λ rows. rows.items ≡ spec.status_rows commits figures) }
{
    let refused = figures.refused;
    amount_rows(
        alloc,
        &[
            Amount("commits", commits),
            Amount("live lines", figures.lines),
            Amount("most live lines", MOST_LINES as u64),
            Amount("sessions", figures.sessions),
            Amount("broken sessions", figures.broken),
            Amount("batches", figures.batches),
            Amount("answers", figures.answers),
            Amount("answers from totals", figures.by_totals),
            Amount("refused", figures.refusals),
            Amount("40 LogFull", refused.log_full),
            Amount("41 Present", refused.present),
            Amount("42 UnknownCustomer", refused.unknown_customer),
            Amount("43 UnknownSupplier", refused.unknown_supplier),
            Amount("44 UnknownPart", refused.unknown_part),
            Amount("45 UnknownDate", refused.unknown_date),
            Amount("46 LinesFull", refused.lines_full),
            Amount("47 Absent", refused.absent),
            Amount("48 AmendAbsent", refused.amend_absent),
        ],
    )
}

// What the server has done so far.
fn status(alloc: Global, past: Past, figures: Figures) -> Result<Overview, AllocError>
    ensures { IfOk result (λ overview. overview_of overview ≡ spec.status_overview past.commits figures) }
{
    let commits = past.commits.saturating_add(figures.commits);
    let rows = status_rows(alloc, commits, figures)?;
    let name = Text::from_str(alloc, "status")?;
    let count = rows.len();
    overview(
        alloc,
        name,
        &["figure", "amount"],
        &[false, true],
        rows,
        count,
    )
}

/// What is shown of what is looked up over a base, with the server's figures, where so many commits came before.
pub(crate) fn looked_up(
    alloc: Global,
    base: &Base,
    past: Past,
    figures: Figures,
    asked: Lookup,
) -> Result<Overview, AllocError>
    ensures { IfOk result (λ overview. IsOverview base.now past asked (overview_of overview)) }
{
    match asked {
        Lookup::Columns => columns(alloc),
        Lookup::Values(column) => values(alloc, base, column),
        Lookup::Status => status(alloc, past, figures),
    }
}
