//! A line with the rows that it names.
ghost use Rattle.std.specs.Prelude.{◌≡◌, filter, map, nat_eq, IfOk, IfSome};
ghost use Rattle.std.specs.Option.{option_copied, option_map, option_to_list};
ghost use Rattle.ssb_base.specs.Base.{IsSound, has_key_of};
ghost use Rattle.ssb_schema.specs.FirstFault.{AreDistinct};
ghost use Rattle.ssb_questions.specs.Cond.{column_value};
ghost use Rattle.ssb_answers.specs.RowValues.{pass};
ghost use Rattle.ssb_answers.specs.Combination.{joined_with, is_in_ranges, passes, value_at};
ghost use Rattle.ssb_answers.specs.Answer.{group_of};
ghost use Rattle.ssb_answers.specs.Joined.{combination_of};

use crate::row_values::{QueryFields, is_within, passes};
use ssb_base::{Base, Dimension};
use ssb_questions::{ColumnValue, Plan, Test, Value};
use ssb_schema::{
    Column, Customer, CustomerFields, DateFields, DateRow, Fact, Items, Part, PartFields, Row,
    Supplier, SupplierFields, Table,
};
use std::alloc::{AllocError, Global};

/// A line with the rows that it names: one combination of the join.
#[derive(Clone, Copy)]
pub struct Joined<'a> {
    pub fact: Fact,
    pub customer: &'a Customer,
    pub supplier: &'a Supplier,
    pub part: &'a Part,
    pub date: &'a DateRow,
}

// The row of a dimension that has the key, where it passes all tests.
fn passing_row<'a, F: QueryFields>(
    dimension: &'a Dimension<F>,
    tests: &[Test],
    key: u64,
) -> Option<&'a Row<F>>
    requires { AreDistinct (has_key_of F.key_of) dimension.now }
    ensures { filter (λ row. pass tests.now (λ place. F.value_of place row))
        (filter (λ row. nat_eq (F.key_of row) key) dimension.now) ≡ option_to_list (option_copied result) }
{
    let row = dimension.row(key)?;
    if passes(tests, row) { Some(row) } else { None }
}

fn is_in_ranges(plan: &Plan, fact: Fact) -> bool
    ensures { result ≡ is_in_ranges plan.now fact }
{
    is_within(plan.quantity, u64::from(fact.quantity))
        && is_within(plan.discount, u64::from(fact.discount))
}

/// The combination of a line with the rows that it names, where it passes the plan's tests. The
/// line's own numbers are tested first, so that most lines need no look-up.
pub fn passing<'a>(base: &'a Base, plan: &Plan, fact: Fact) -> Option<Joined<'a>>
    requires { IsSound base.now }
    ensures combination { filter (passes plan.now) (joined_with base.now.dimensions fact)
        ≡ option_to_list (option_map combination_of result) }
    ensures line { IfSome result (λ joined. joined.fact ≡ fact) }
{
    if !is_in_ranges(plan, fact) {
        return None;
    }
    let customer = passing_row(base.customers(), plan.customers.as_slice(), fact.customer)?;
    let supplier = passing_row(base.suppliers(), plan.suppliers.as_slice(), fact.supplier)?;
    let part = passing_row(base.parts(), plan.parts.as_slice(), fact.part)?;
    let date = passing_row(base.dates(), plan.dates.as_slice(), fact.date)?;
    Some(Joined {
        fact,
        customer,
        supplier,
        part,
        date,
    })
}

impl Joined<'_> {
    /// The value of a column of the dimensions.
    fn value(&self, column: Column) -> ColumnValue<'_>
        ensures { column_value result ≡ value_at column (combination_of self.now) }
    {
        match column.table {
            Table::Customer => CustomerFields::value(self.customer, column.place),
            Table::Supplier => SupplierFields::value(self.supplier, column.place),
            Table::Part => PartFields::value(self.part, column.place),
            Table::Date => DateFields::value(self.date, column.place),
            Table::Lineorder => ColumnValue::Number(0),
        }
    }

    /// The values in the plan's group columns.
    pub fn group(&self, alloc: Global, plan: &Plan) -> Result<Items<Value>, AllocError>
        ensures { IfOk result (λ groups. groups ≡ group_of plan.now (combination_of self.now)) }
    {
        let mut groups = Vec::new(alloc);
        for column in plan.groups.as_slice() {
            groups.push(self.value(*column).to_value()?)?;
        }
        Ok(Items::from_vec(groups))
    }
}
