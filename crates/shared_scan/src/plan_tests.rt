//! The tests that plans make of the rows of a dimension.
ghost use Rattle.std.specs.Prelude.{◌≡◌, ℕ, All, IfOk, OnOk, true};
ghost use Rattle.shared_scan.specs.Tests.{tests_of, is_place, CoverTests};

use ssb_answers::{Plan, Test};
use ssb_schema::Table;
use std::alloc::{AllocError, Global};

/// A plan's tests of the rows of a dimension. No question tests rows of the fact table, and any tests will do.
pub fn tests_of(plan: &Plan, table: Table) -> &[Test]
    ensures { result.now ≡ tests_of table plan.now }
{
    match table {
        Table::Customer => plan.customers.as_slice(),
        Table::Supplier => plan.suppliers.as_slice(),
        Table::Part => plan.parts.as_slice(),
        Table::Date => plan.dates.as_slice(),
        Table::Lineorder => plan.dates.as_slice(),
    }
}

// Adds the places that the tests look at, and that are not there yet.
fn add_places(places: &mut Vec<usize>, tests: &[Test]) -> Result<(), AllocError>
    ensures keeps { (place : ℕ) → is_place places.old.items place ≡ true → is_place places.new.items place ≡ true }
    ensures has { OnOk result (All (λ test. is_place places.new.items test.column.place ≡ true) tests.now) }
{
    for test in tests {
        if !places.contains(&test.column.place) {
            places.push(test.column.place)?;
        }
    }
    Ok(())
}

/// The places of the columns of a dimension that some plan tests, each once.
pub fn tested_places(alloc: Global, plans: &[Plan], table: Table) -> Result<Vec<usize>, AllocError>
    ensures { IfOk result (λ places. CoverTests table plans.now places.items) }
{
    let mut places = Vec::new(alloc);
    for plan in plans {
        add_places(&mut places, tests_of(plan, table))?;
    }
    Ok(places)
}
