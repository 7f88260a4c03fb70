//! The parts that plans are made of.
ghost use Rattle.std.specs.Prelude.{◌≡◌, ◌∷◌, [], IfOk, ◌+◌, ◌<◌};
ghost use Rattle.ssb_questions.specs.Queries.{over_all_lines, text_is, text_from_to, text_one_of_two, number_is};
ghost use Rattle.ssb_questions.specs.Queries.{number_from_to, number_one_of_two, range};
ghost use Rattle.ssb_questions.specs.Queries.{by_two_columns, by_three_columns, by_year_and_sum};

use crate::cond::{Cond, Test};
use crate::constants::{number_at, text_at};
use crate::plan::{Measure, NumberRange, OrderKey, Plan};
use crate::value::Value;
use ssb_schema::{Column, Items};
use std::alloc::{AllocError, Global};

/// No item.
pub fn none<T>(alloc: Global) -> Items<T>
    ensures { result ≡ [] }
{
    Items::from_vec(Vec::new(alloc))
}

/// One item.
pub fn one<T: Drop>(alloc: Global, item: T) -> Result<Items<T>, AllocError>
    ensures { IfOk result (λ items. items ≡ item ∷ []) }
{
    let mut items = Vec::new(alloc);
    items.push(item)?;
    Ok(Items::from_vec(items))
}

/// Two items.
pub fn two<T: Drop>(alloc: Global, first: T, second: T) -> Result<Items<T>, AllocError>
    ensures { IfOk result (λ items. items ≡ first ∷ second ∷ []) }
{
    let mut items = Vec::new(alloc);
    items.push(first)?;
    items.push(second)?;
    Ok(Items::from_vec(items))
}

/// The column is the text at the place.
pub fn text_is(
    alloc: Global,
    column: Column,
    constants: &[Value],
    place: usize,
) -> Result<Test, AllocError>
    ensures { IfOk result (λ test. test ≡ text_is column constants.now place) }
{
    Ok(Test {
        column,
        cond: Cond::TextIs(text_at(alloc, constants, place)?),
    })
}

/// The column is from the text at the place to the next one.
pub fn text_from_to(
    alloc: Global,
    column: Column,
    constants: &[Value],
    place: usize,
) -> Result<Test, AllocError>
    requires { place < 8 }
    ensures { IfOk result (λ test. test ≡ text_from_to column constants.now place) }
{
    Ok(Test {
        column,
        cond: Cond::TextFromTo(
            text_at(alloc, constants, place)?,
            text_at(alloc, constants, place + 1)?,
        ),
    })
}

/// The column is the text at the place or the next one.
pub fn text_one_of_two(
    alloc: Global,
    column: Column,
    constants: &[Value],
    place: usize,
) -> Result<Test, AllocError>
    requires { place < 8 }
    ensures { IfOk result (λ test. test ≡ text_one_of_two column constants.now place) }
{
    let first = text_at(alloc, constants, place)?;
    let second = text_at(alloc, constants, place + 1)?;
    Ok(Test {
        column,
        cond: Cond::TextOneOf(two(alloc, first, second)?),
    })
}

/// The column is the number at the place.
pub fn number_is(column: Column, constants: &[Value], place: usize) -> Test
    ensures { result ≡ number_is column constants.now place }
{
    Test {
        column,
        cond: Cond::NumberIs(number_at(constants, place)),
    }
}

/// The column is from the number at the place to the next one.
pub fn number_from_to(column: Column, constants: &[Value], place: usize) -> Test
    requires { place < 8 }
    ensures { result ≡ number_from_to column constants.now place }
{
    Test {
        column,
        cond: Cond::NumberFromTo(number_at(constants, place), number_at(constants, place + 1)),
    }
}

/// The column is the number at the place or the next one.
pub fn number_one_of_two(
    alloc: Global,
    column: Column,
    constants: &[Value],
    place: usize,
) -> Result<Test, AllocError>
    requires { place < 8 }
    ensures { IfOk result (λ test. test ≡ number_one_of_two column constants.now place) }
{
    Ok(Test {
        column,
        cond: Cond::NumberOneOf(two(
            alloc,
            number_at(constants, place),
            number_at(constants, place + 1),
        )?),
    })
}

/// From the number at the place to the next one.
pub fn range(constants: &[Value], place: usize) -> Option<NumberRange>
    requires { place < 8 }
    ensures { result ≡ range constants.now place }
{
    Some(NumberRange {
        from: number_at(constants, place),
        to: number_at(constants, place + 1),
    })
}

/// A plan that takes every combination.
pub fn over_all_lines(
    alloc: Global,
    measure: Measure,
    groups: Items<Column>,
    order: Items<OrderKey>,
) -> Plan
    ensures { result ≡ over_all_lines measure groups order }
{
    Plan {
        customers: none(alloc),
        suppliers: none(alloc),
        parts: none(alloc),
        dates: none(alloc),
        quantity: None,
        discount: None,
        measure,
        groups,
        order,
    }
}

/// Ascending by both group columns.
pub fn by_two_columns(alloc: Global) -> Result<Items<OrderKey>, AllocError>
    ensures { IfOk result (λ order. order ≡ by_two_columns) }
{
    two(alloc, OrderKey::Group(0), OrderKey::Group(1))
}

/// Ascending by all three group columns.
pub fn by_three_columns(alloc: Global) -> Result<Items<OrderKey>, AllocError>
    ensures { IfOk result (λ order. order ≡ by_three_columns) }
{
    Ok(Items::from_vec(vec![in alloc; OrderKey::Group(0), OrderKey::Group(1), OrderKey::Group(2)]?))
}

/// By the third group column, the sum from the greatest down, and the first two group columns.
pub fn by_year_and_sum(alloc: Global) -> Result<Items<OrderKey>, AllocError>
    ensures { IfOk result (λ order. order ≡ by_year_and_sum) }
{
    Ok(Items::from_vec(vec![in alloc;
        OrderKey::Group(2),
        OrderKey::SumDescending,
        OrderKey::Group(0),
        OrderKey::Group(1),
    ]?))
}
