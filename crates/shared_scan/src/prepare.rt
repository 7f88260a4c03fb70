//! Questions are made ready.
ghost use Rattle.std.specs.Prelude.{◌≡◌, ◌<◌, ◌≤◌, All, IfOk, length};
ghost use Rattle.dimension_index.specs.Values.{values_of};
ghost use Rattle.ssb_schema.specs.declared.column.Column.{Column as GroupedBy};
ghost use Rattle.ssb_questions.specs.Queries.{plan_over};
ghost use Rattle.ssb_base.specs.Limits.{most_dimension_rows};
ghost use Rattle.scan_kernel.specs.Masks.{questions_a_pass};
ghost use Rattle.shared_scan.specs.Grouped.{HaveMasks};
ghost use Rattle.shared_scan.specs.Batch.{plans_of, IsReady};

use crate::groups::prepare_groups;
use crate::ready::Ready;
use dimension_index::FirstRows;
use scan_kernel::Masks;
use ssb_answers::question::plan;
use ssb_answers::{Plan, Question};
use std::alloc::{AllocError, Global};

/// The questions' plans.
pub fn plans_of(alloc: Global, questions: &[Question]) -> Result<Vec<Plan>, AllocError>
    ensures are { IfOk result (λ plans. plans.items ≡ plans_of questions.now) }
    ensures few { IfOk result (λ plans. All (λ plan. length plan.groups ≤ 4) plans.items) }
{
    let mut plans = Vec::with_capacity(alloc, questions.len())?;
    for question in questions {
        plans.push(plan(alloc, question)?)?;
    }
    Ok(plans)
}

/// One question made ready, whose plan this is.
pub fn prepare_question(
    alloc: Global,
    index: &FirstRows,
    masks: &Masks,
    question: &Question,
    plan: Plan,
    number: usize,
) -> Result<Ready, AllocError>
    requires plan { plan ≡ plan_over question.now.0 question.now.1 }
    requires four { length plan.groups ≤ 4 }
    requires number { number < questions_a_pass }
    requires few { (column : GroupedBy) → length (values_of index.now column) ≤ most_dimension_rows }
    requires masks { HaveMasks index.now masks.now }
    ensures { IfOk result (IsReady index.now masks.now number question.now) }
{
    let groups = prepare_groups(alloc, index, masks, plan.groups.as_slice(), number)?;
    Ok(Ready {
        question: question.share()?,
        plan,
        groups,
    })
}
