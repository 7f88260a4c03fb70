//! The plan of each query over its constants, one function for each of the thirteen.
ghost use Rattle.std.specs.Prelude.{◌≡◌, ◌∷◌, [], IfOk};
ghost use Rattle.ssb_questions.specs.Queries.{plan_over, over_all_lines, by_two_columns, by_three_columns, by_year_and_sum};

use crate::build::*;
use crate::plan::{Measure, Plan};
use crate::query::Query;
use crate::star::star_plan;
use crate::value::Value;
use ssb_schema::{
    C_CITY, C_NATION, C_REGION, Column, D_WEEKNUMINYEAR, D_YEAR, D_YEARMONTH, D_YEARMONTHNUM,
    Items, P_BRAND1, P_CATEGORY, P_MFGR, S_CITY, S_NATION, S_REGION,
};
use std::alloc::{AllocError, Global};

fn flight_1(alloc: Global) -> Plan
    ensures { result ≡ over_all_lines Measure.PriceTimesDiscount [] [] }
{
    over_all_lines(alloc, Measure::PriceTimesDiscount, none(alloc), none(alloc))
}

fn flight_2(alloc: Global) -> Result<Plan, AllocError>
    ensures { IfOk result (λ plan. plan ≡ over_all_lines Measure.Revenue (D_YEAR ∷ P_BRAND1 ∷ []) by_two_columns) }
{
    Ok(over_all_lines(
        alloc,
        Measure::Revenue,
        two(alloc, D_YEAR, P_BRAND1)?,
        by_two_columns(alloc)?,
    ))
}

fn flight_3(alloc: Global, customer: Column, supplier: Column) -> Result<Plan, AllocError>
    ensures { IfOk result (λ plan. plan
        ≡ over_all_lines Measure.Revenue (customer ∷ supplier ∷ D_YEAR ∷ []) by_year_and_sum) }
{
    let groups = Items::from_vec(vec![in alloc; customer, supplier, D_YEAR]?);
    Ok(over_all_lines(alloc, Measure::Revenue, groups, by_year_and_sum(alloc)?))
}

fn flight_4(alloc: Global, second: Column, third: Column) -> Result<Plan, AllocError>
    ensures { IfOk result (λ plan. plan
        ≡ over_all_lines Measure.Profit (D_YEAR ∷ second ∷ third ∷ []) by_three_columns) }
{
    let groups = Items::from_vec(vec![in alloc; D_YEAR, second, third]?);
    Ok(over_all_lines(alloc, Measure::Profit, groups, by_three_columns(alloc)?))
}

fn q1_1(alloc: Global, constants: &[Value]) -> Result<Plan, AllocError>
    ensures { IfOk result (λ plan. plan ≡ plan_over Query.Q1_1 constants.now) }
{
    Ok(Plan {
        dates: one(alloc, number_is(D_YEAR, constants, 0))?,
        discount: range(constants, 1),
        quantity: range(constants, 3),
        ..flight_1(alloc)
    })
}

fn q1_2(alloc: Global, constants: &[Value]) -> Result<Plan, AllocError>
    ensures { IfOk result (λ plan. plan ≡ plan_over Query.Q1_2 constants.now) }
{
    Ok(Plan {
        dates: one(alloc, number_is(D_YEARMONTHNUM, constants, 0))?,
        discount: range(constants, 1),
        quantity: range(constants, 3),
        ..flight_1(alloc)
    })
}

fn q1_3(alloc: Global, constants: &[Value]) -> Result<Plan, AllocError>
    ensures { IfOk result (λ plan. plan ≡ plan_over Query.Q1_3 constants.now) }
{
    Ok(Plan {
        dates: two(
            alloc,
            number_is(D_WEEKNUMINYEAR, constants, 0),
            number_is(D_YEAR, constants, 1),
        )?,
        discount: range(constants, 2),
        quantity: range(constants, 4),
        ..flight_1(alloc)
    })
}

fn q2_1(alloc: Global, constants: &[Value]) -> Result<Plan, AllocError>
    ensures { IfOk result (λ plan. plan ≡ plan_over Query.Q2_1 constants.now) }
{
    Ok(Plan {
        parts: one(alloc, text_is(alloc, P_CATEGORY, constants, 0)?)?,
        suppliers: one(alloc, text_is(alloc, S_REGION, constants, 1)?)?,
        ..flight_2(alloc)?
    })
}

fn q2_2(alloc: Global, constants: &[Value]) -> Result<Plan, AllocError>
    ensures { IfOk result (λ plan. plan ≡ plan_over Query.Q2_2 constants.now) }
{
    Ok(Plan {
        parts: one(alloc, text_from_to(alloc, P_BRAND1, constants, 0)?)?,
        suppliers: one(alloc, text_is(alloc, S_REGION, constants, 2)?)?,
        ..flight_2(alloc)?
    })
}

fn q2_3(alloc: Global, constants: &[Value]) -> Result<Plan, AllocError>
    ensures { IfOk result (λ plan. plan ≡ plan_over Query.Q2_3 constants.now) }
{
    Ok(Plan {
        parts: one(alloc, text_is(alloc, P_BRAND1, constants, 0)?)?,
        suppliers: one(alloc, text_is(alloc, S_REGION, constants, 1)?)?,
        ..flight_2(alloc)?
    })
}

fn q3_1(alloc: Global, constants: &[Value]) -> Result<Plan, AllocError>
    ensures { IfOk result (λ plan. plan ≡ plan_over Query.Q3_1 constants.now) }
{
    Ok(Plan {
        customers: one(alloc, text_is(alloc, C_REGION, constants, 0)?)?,
        suppliers: one(alloc, text_is(alloc, S_REGION, constants, 1)?)?,
        dates: one(alloc, number_from_to(D_YEAR, constants, 2))?,
        ..flight_3(alloc, C_NATION, S_NATION)?
    })
}

fn q3_2(alloc: Global, constants: &[Value]) -> Result<Plan, AllocError>
    ensures { IfOk result (λ plan. plan ≡ plan_over Query.Q3_2 constants.now) }
{
    Ok(Plan {
        customers: one(alloc, text_is(alloc, C_NATION, constants, 0)?)?,
        suppliers: one(alloc, text_is(alloc, S_NATION, constants, 1)?)?,
        dates: one(alloc, number_from_to(D_YEAR, constants, 2))?,
        ..flight_3(alloc, C_CITY, S_CITY)?
    })
}

fn q3_3(alloc: Global, constants: &[Value]) -> Result<Plan, AllocError>
    ensures { IfOk result (λ plan. plan ≡ plan_over Query.Q3_3 constants.now) }
{
    Ok(Plan {
        customers: one(alloc, text_one_of_two(alloc, C_CITY, constants, 0)?)?,
        suppliers: one(alloc, text_one_of_two(alloc, S_CITY, constants, 2)?)?,
        dates: one(alloc, number_from_to(D_YEAR, constants, 4))?,
        ..flight_3(alloc, C_CITY, S_CITY)?
    })
}

fn q3_4(alloc: Global, constants: &[Value]) -> Result<Plan, AllocError>
    ensures { IfOk result (λ plan. plan ≡ plan_over Query.Q3_4 constants.now) }
{
    Ok(Plan {
        customers: one(alloc, text_one_of_two(alloc, C_CITY, constants, 0)?)?,
        suppliers: one(alloc, text_one_of_two(alloc, S_CITY, constants, 2)?)?,
        dates: one(alloc, text_is(alloc, D_YEARMONTH, constants, 4)?)?,
        ..flight_3(alloc, C_CITY, S_CITY)?
    })
}

fn q4_1(alloc: Global, constants: &[Value]) -> Result<Plan, AllocError>
    ensures { IfOk result (λ plan. plan ≡ plan_over Query.Q4_1 constants.now) }
{
    Ok(Plan {
        customers: one(alloc, text_is(alloc, C_REGION, constants, 0)?)?,
        suppliers: one(alloc, text_is(alloc, S_REGION, constants, 1)?)?,
        parts: one(alloc, text_one_of_two(alloc, P_MFGR, constants, 2)?)?,
        ..over_all_lines(
            alloc,
            Measure::Profit,
            two(alloc, D_YEAR, C_NATION)?,
            by_two_columns(alloc)?,
        )
    })
}

fn q4_2(alloc: Global, constants: &[Value]) -> Result<Plan, AllocError>
    ensures { IfOk result (λ plan. plan ≡ plan_over Query.Q4_2 constants.now) }
{
    Ok(Plan {
        customers: one(alloc, text_is(alloc, C_REGION, constants, 0)?)?,
        suppliers: one(alloc, text_is(alloc, S_REGION, constants, 1)?)?,
        parts: one(alloc, text_one_of_two(alloc, P_MFGR, constants, 2)?)?,
        dates: one(alloc, number_one_of_two(alloc, D_YEAR, constants, 4)?)?,
        ..flight_4(alloc, S_NATION, P_CATEGORY)?
    })
}

fn q4_3(alloc: Global, constants: &[Value]) -> Result<Plan, AllocError>
    ensures { IfOk result (λ plan. plan ≡ plan_over Query.Q4_3 constants.now) }
{
    Ok(Plan {
        customers: one(alloc, text_is(alloc, C_REGION, constants, 0)?)?,
        suppliers: one(alloc, text_is(alloc, S_NATION, constants, 1)?)?,
        dates: one(alloc, number_one_of_two(alloc, D_YEAR, constants, 2)?)?,
        parts: one(alloc, text_is(alloc, P_CATEGORY, constants, 4)?)?,
        ..flight_4(alloc, S_CITY, P_BRAND1)?
    })
}

/// The plan of a query over constants; a constant that is missing is 0, or the empty text.
pub fn plan_over(alloc: Global, query: Query, constants: &[Value]) -> Result<Plan, AllocError>
    ensures { IfOk result (λ plan. plan ≡ plan_over query constants.now) }
{
    match query {
        Query::Q1_1 => q1_1(alloc, constants),
        Query::Q1_2 => q1_2(alloc, constants),
        Query::Q1_3 => q1_3(alloc, constants),
        Query::Q2_1 => q2_1(alloc, constants),
        Query::Q2_2 => q2_2(alloc, constants),
        Query::Q2_3 => q2_3(alloc, constants),
        Query::Q3_1 => q3_1(alloc, constants),
        Query::Q3_2 => q3_2(alloc, constants),
        Query::Q3_3 => q3_3(alloc, constants),
        Query::Q3_4 => q3_4(alloc, constants),
        Query::Q4_1 => q4_1(alloc, constants),
        Query::Q4_2 => q4_2(alloc, constants),
        Query::Q4_3 => q4_3(alloc, constants),
        Query::Star => star_plan(alloc, constants),
    }
}
