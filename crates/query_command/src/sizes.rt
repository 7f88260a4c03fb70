//! How much a question is about, before any line is looked at: the rows that the tests of each dimension take, and how
//! many groups there can be.

ghost use Rattle.std.specs.Prelude.{◌≡◌, ◌<◌, ◌≤◌, ◌^◌, List, [], ◌∷◌, ◌++◌, IfOk, OnOk, codes, decimal, length, map};
ghost use Rattle.std.specs.String.{string_bytes};
ghost use Rattle.dimension_index.specs.Codes.{distinct};
ghost use Rattle.ssb_answers.specs.RowValues.{pass};
ghost use Rattle.ssb_explain.specs.Words.{record_line as record_text};
ghost use Rattle.scan_kernel.specs.Groups.{size_of};
ghost use Rattle.shared_scan.specs.GroupCounts.{count_passing, most_groups_of, values_passing};
ghost use Rattle.ssb_questions.specs.declared.value.Value.{Value as PlainValue};
ghost use Rattle.query_command.specs.Sizes as spec;

use dimension_index::Dictionary;
use ssb_answers::QueryFields;
use ssb_base::Base;
use ssb_explain::record_line;
use ssb_questions::{Plan, Test};
use ssb_schema::{Column, Row, Table};
use std::alloc::{AllocError, Global};

// Whether a row passes all tests.
fn passes<F: QueryFields>(tests: &[Test], row: &Row<F>) -> bool
    ensures { result ≡ pass tests.now (λ place. F.value_of place row.now) }
{
    tests
        .iter()
        .all(|test| test.cond.holds(F::value(row, test.column.place)))
}

// How many rows the tests take.
fn taken<F: QueryFields>(tests: &[Test], rows: &[Row<F>]) -> usize
    ensures { result ≡ length (spec.taken tests.now F.value_of rows.now) }
{
    rows.iter().filter(|row| passes(tests, *row)).count()
}

// Enters the value that a row has at a place of its columns, where the tests take the row.
fn enter_taken<F: QueryFields>(
    dictionary: &mut Dictionary,
    tests: &[Test],
    row: &Row<F>,
    place: usize,
) -> Result<(), AllocError>
    requires { length dictionary.old < 2 ^ 32 }
    ensures { (values : List PlainValue) → dictionary.old ≡ distinct values → OnOk result (dictionary.new
        ≡ distinct (values ++ values_passing tests.now F.value_of (row.now ∷ []) place)) }
{
    if !passes(tests, row) {
        return Ok(());
    }
    dictionary.enter(F::value(row, place))?;
    Ok(())
}

// How many distinct values the rows that the tests take have at a place of their columns.
fn distinct_values<F: QueryFields>(
    alloc: Global,
    tests: &[Test],
    rows: &[Row<F>],
    place: usize,
) -> Result<usize, AllocError>
    requires { length rows.now ≤ 1048576 }
    ensures values { IfOk result (λ count. count
        ≡ length (distinct (values_passing tests.now F.value_of rows.now place))) }
    ensures few { IfOk result (λ count. count ≤ 1048576) }
{
    let mut dictionary = Dictionary::new(alloc);
    for row in rows {
        enter_taken(&mut dictionary, tests, row, place)?;
    }
    Ok(dictionary.len())
}

// How many distinct values a group column has in the rows that the tests take.
fn values_of_group(
    alloc: Global,
    base: &Base,
    plan: &Plan,
    column: Column,
) -> Result<usize, AllocError>
    ensures values { IfOk result (λ count. count ≡ count_passing base.now.dimensions plan.now column) }
    ensures few { IfOk result (λ count. count ≤ 1048576) }
{
    base.soundness();
    let place = column.place;
    match column.table {
        Table::Customer => {
            distinct_values(
                alloc,
                plan.customers.as_slice(),
                base.customers().rows(),
                place,
            )
        }
        Table::Supplier => {
            distinct_values(
                alloc,
                plan.suppliers.as_slice(),
                base.suppliers().rows(),
                place,
            )
        }
        Table::Part => distinct_values(alloc, plan.parts.as_slice(), base.parts().rows(), place),
        Table::Date => distinct_values(alloc, plan.dates.as_slice(), base.dates().rows(), place),
        Table::Lineorder => Ok(0),
    }
}

// How many choices there are of a value of each of these columns.
fn most_choices(
    alloc: Global,
    base: &Base,
    plan: &Plan,
    columns: &[Column],
) -> Result<u128, AllocError>
    requires { length columns.now ≤ 4 }
    ensures { IfOk result (λ most. most ≡ size_of (map (count_passing base.now.dimensions plan.now) columns.now)) }
{
    let mut most = 1u128;
    for column in columns {
        let count = values_of_group(alloc, base, plan, *column)?;
        most = count as u128 * most;
    }
    Ok(most)
}

// The line of a dimension.
fn rows_line<F: QueryFields>(
    alloc: Global,
    name: &str,
    tests: &[Test],
    rows: &[Row<F>],
) -> Result<String, AllocError>
    ensures { IfOk result (λ line. string_bytes line ≡ spec.rows_line name.now tests.now F.value_of rows.now) }
{
    let mut fields = Vec::new(alloc);
    fields.push(String::from_str(alloc, name)?)?;
    fields.push(taken(tests, rows).to_string(alloc)?)?;
    fields.push(rows.len().to_string(alloc)?)?;
    record_line(alloc, fields.as_slice())
}

// The line of the groups.
fn groups_line(alloc: Global, base: &Base, plan: &Plan) -> Result<String, AllocError>
    requires { length plan.now.groups ≤ 4 }
    ensures { IfOk result (λ line. string_bytes line
        ≡ record_text (codes "groups" ∷ decimal (most_groups_of base.now.dimensions plan.now) ∷ [])) }
{
    let mut fields = Vec::new(alloc);
    fields.push(String::from_str(alloc, "groups")?)?;
    let most = most_choices(alloc, base, plan, plan.groups.as_slice())?;
    fields.push(most.to_string(alloc)?)?;
    record_line(alloc, fields.as_slice())
}

/// How many rows of each dimension the tests of a plan take, and how many groups there can be: a line for each.
pub fn sizes(alloc: Global, base: &Base, plan: &Plan) -> Result<String, AllocError>
    requires { length plan.now.groups ≤ 4 }
    ensures { IfOk result (λ text. string_bytes text ≡ spec.sizes_text plan.now base.now.dimensions) }
{
    let customers = rows_line(
        alloc,
        "customer",
        plan.customers.as_slice(),
        base.customers().rows(),
    )?;
    let suppliers = rows_line(
        alloc,
        "supplier",
        plan.suppliers.as_slice(),
        base.suppliers().rows(),
    )?;
    let parts = rows_line(alloc, "part", plan.parts.as_slice(), base.parts().rows())?;
    let dates = rows_line(alloc, "date", plan.dates.as_slice(), base.dates().rows())?;
    let groups = groups_line(alloc, base, plan)?;
    [
        customers.as_str(),
        suppliers.as_str(),
        parts.as_str(),
        dates.as_str(),
        groups.as_str(),
    ]
    .concat(alloc)
}
