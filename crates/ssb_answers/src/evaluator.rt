//! Reference, which no program runs: the evaluator, which gives the rows of a question line by line.
ghost use Rattle.std.specs.Prelude.{◌≡◌, ◌≤◌, ◌∷◌, [], ◌*◌, pos, filter, length, IfOk, OnOk};
ghost use Rattle.std.specs.BTreeMap.{get};
ghost use Rattle.ssb_base.specs.Base.{IsSound};
ghost use Rattle.ssb_schema.specs.Facts.{fact_of, facts_of};
ghost use Rattle.ssb_questions.specs.Plan.{OrdersAllGroups};
ghost use Rattle.ssb_answers.specs.Combination.{joined_with, passes, combinations};
ghost use Rattle.ssb_answers.specs.Answer.{amount, groups_cmp, answer, answer_of};
ghost use Rattle.ssb_answers.specs.Totals.{AreTotals, SumsFit, AddsAll, AddsOneLine, IsAmount};

use crate::answer::{ResultRow, Rows};
use crate::joined::passing;
use crate::sort::sort_rows;
use crate::totals::{SumsByGroup, add, into_rows};
use ssb_base::{Base, MOST_LINES};
use ssb_questions::question::plan;
use ssb_questions::{Measure, Plan, Question};
use ssb_schema::{Fact, Items, Line};
use std::alloc::{AllocError, Global};
use std::collections::BTreeMap;

fn price_times_discount(price: u32, discount: u8) -> i64
    requires { discount ≤ 10 }
    ensures value { result ≡ pos (price * discount) }
    ensures bounded { IsAmount result }
{
    i64::from(price) * i64::from(discount)
}

/// What a line adds.
fn amount(measure: Measure, fact: Fact) -> i64
    requires { fact.discount ≤ 10 }
    ensures value { result ≡ amount measure fact }
    ensures bounded { IsAmount result }
{
    match measure {
        Measure::PriceTimesDiscount => price_times_discount(fact.price, fact.discount),
        Measure::Revenue => i64::from(fact.revenue),
        Measure::Profit => i64::from(fact.revenue) - i64::from(fact.cost),
        Measure::Quantity => i64::from(fact.quantity),
        Measure::ExtendedPrice => i64::from(fact.price),
        Measure::SupplyCost => i64::from(fact.cost),
        Measure::Lines => 1,
    }
}

/// Adds what a line's combination adds, if it has one that passes.
fn add_line(
    alloc: Global,
    totals: &mut SumsByGroup,
    base: &Base,
    plan: &Plan,
    line: &Line,
) -> Result<(), AllocError>
    requires sound { IsSound base.now }
    requires room { SumsFit totals.old }
    ensures totals { OnOk result (AddsAll plan.now
        (filter (passes plan.now) (joined_with base.now.dimensions (fact_of line.now))) totals.old totals.new) }
    ensures within { OnOk result (AddsOneLine totals.old totals.new) }
{
    let fact = line.fact();
    let Some(joined) = passing(base, plan, fact) else {
        return Ok(());
    };
    let groups = joined.group(alloc, plan)?;
    add(totals, groups, amount(plan.measure, fact))?;
    Ok(())
}

/// The sums over all lines, by group.
fn totals_of(
    alloc: Global,
    base: &Base,
    lines: &[Line],
    plan: &Plan,
) -> Result<SumsByGroup, AllocError>
    requires sound { IsSound base.now }
    requires few { length lines.now ≤ MOST_LINES }
    ensures { IfOk result (AreTotals plan.now (combinations plan.now base.now.dimensions (facts_of lines.now))) }
{
    let mut totals = BTreeMap::new(alloc);
    for line in lines {
        add_line(alloc, &mut totals, base, plan, line)?;
    }
    Ok(totals)
}

/// The one row of a plan without group columns.
fn total_row(alloc: Global, totals: &SumsByGroup) -> Result<Vec<ResultRow>, AllocError>
    ensures { IfOk result (λ rows. rows.items ≡ record { groups = []; sum = get groups_cmp totals.now [] } ∷ []) }
{
    let groups = Items::from_vec(Vec::new(alloc));
    let sum = totals.get(&groups).copied();
    let mut rows = Vec::new(alloc);
    rows.push(ResultRow { groups, sum })?;
    Ok(rows)
}

/// The rows of a plan over lines.
fn evaluate_plan(
    alloc: Global,
    base: &Base,
    lines: &[Line],
    plan: &Plan,
) -> Result<Vec<ResultRow>, AllocError>
    requires sound { IsSound base.now }
    requires few { length lines.now ≤ MOST_LINES }
    requires ordered { OrdersAllGroups plan.now }
    ensures { IfOk result (λ rows. rows.items ≡ answer plan.now base.now.dimensions (facts_of lines.now)) }
{
    let totals = totals_of(alloc, base, lines, plan)?;
    if plan.groups.len() == 0 {
        return total_row(alloc, &totals);
    }
    let mut rows = into_rows(alloc, totals)?;
    sort_rows(plan, &mut rows)?;
    Ok(rows)
}

/// The rows of a question over lines, which need not be those of the base.
///
/// It goes over the lines once and finds the rows that a line names by their keys, so its time grows
/// with the number of lines, and its memory with the number of groups. It fails for want of memory
/// alone.
pub fn evaluate(
    alloc: Global,
    base: &Base,
    lines: &[Line],
    question: &Question,
) -> Result<Rows, AllocError>
    requires { length lines.now ≤ MOST_LINES }
    ensures question { IfOk result (λ rows. rows.question ≡ question.now) }
    ensures rows { IfOk result (λ rows. rows.list ≡ answer_of question.now base.now.dimensions (facts_of lines.now)) }
{
    base.soundness();
    let plan = plan(alloc, question)?;
    let rows = evaluate_plan(alloc, base, lines, &plan)?;
    Ok(Rows {
        question: question.share()?,
        list: Items::from_vec(rows),
    })
}
