//! What the tests of plans look at.
ghost use Rattle.std.specs.Prelude.{◌≡◌};
ghost use Rattle.ssb_questions.specs.Cond.{column_value};
ghost use Rattle.shared_scan.specs.Tests.{passes_at};

use crate::plan_tests::tests_of;
use ssb_answers::{ColumnValue, Plan, Test, is_within};
use ssb_schema::Table;

/// What a plan takes or not.
pub trait Tested {
    ghost use Rattle.std.specs.Prelude.{Bool};
    ghost use Rattle.ssb_questions.specs.declared.plan.Plan.{Plan as Planned};

    ghost takes: { Planned → Self → Bool };

    /// Whether it passes the plan's tests.
    fn is_taken(&self, plan: &Plan) -> bool
        ensures { result ≡ takes plan.now self.now };
}

// Whether a value passes all tests of the column at a place.
fn passes_at(tests: &[Test], place: usize, value: ColumnValue<'_>) -> bool
    ensures { result ≡ passes_at tests.now place (column_value value.entry) }
{
    tests.iter().all(|test| test.column.place != place || test.cond.holds(value))
}

/// A value in a column of a dimension, which is given by its place.
#[derive(Clone, Copy)]
pub struct DimensionCell<'a> {
    pub table: Table,
    pub place: usize,
    pub value: ColumnValue<'a>,
}

impl Tested for DimensionCell<'_> {
    ghost use Rattle.ssb_questions.specs.Cond.{column_value};
    ghost use Rattle.shared_scan.specs.Tests.{passes_at, tests_of};

    ghost takes = { λ plan cell. passes_at (tests_of cell.table plan) cell.place (column_value cell.value) };

    fn is_taken(&self, plan: &Plan) -> bool {
        passes_at(tests_of(plan, self.table), self.place, self.value)
    }
}

/// A line's quantity and discount.
#[derive(Clone, Copy)]
pub struct LineTerms {
    pub quantity: u8,
    pub discount: u8,
}

impl Tested for LineTerms {
    ghost use Rattle.std.specs.Prelude.{◌&&◌};
    ghost use Rattle.ssb_answers.specs.RowValues.{is_within};

    ghost takes = { λ plan terms. is_within plan.quantity terms.quantity && is_within plan.discount terms.discount };

    fn is_taken(&self, plan: &Plan) -> bool {
        is_within(plan.quantity, u64::from(self.quantity))
            && is_within(plan.discount, u64::from(self.discount))
    }
}
