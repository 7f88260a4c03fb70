//! The rows of the dimensions as queries read them: by column, and by tests.
//!
//! Places count from 1, as in the table files.
ghost use Rattle.std.specs.Prelude.{◌≡◌, ℕ};
ghost use Rattle.ssb_questions.specs.declared.value.Value.{Value as PlainValue};
ghost use Rattle.ssb_questions.specs.Cond.{column_value};
ghost use Rattle.ssb_answers.specs.RowValues.{customer_value, supplier_value, part_value, date_value, pass, is_within};

use ssb_questions::{ColumnValue, NumberRange, Test};
use ssb_schema::{CustomerFields, DateFields, Keyed, PartFields, Row, SupplierFields};

/// The values of a row of a dimension, some of which queries read.
pub trait QueryFields: Keyed {
    ghost value_of: { ℕ → Self → PlainValue };

    /// The value at a place of the columns; the number 0 where no query reads the column.
    fn value(row: &Row<Self>, place: usize) -> ColumnValue<'_>
        ensures { column_value result ≡ value_of place row.now };
}

impl QueryFields for CustomerFields {
    ghost value_of = { customer_value };

    fn value(row: &Row<CustomerFields>, place: usize) -> ColumnValue<'_> {
        match place {
            4 => ColumnValue::Text(&row.fields().city),
            5 => ColumnValue::Text(&row.fields().nation),
            6 => ColumnValue::Text(&row.fields().region),
            8 => ColumnValue::Text(&row.fields().market_segment),
            _ => ColumnValue::Number(0),
        }
    }
}

impl QueryFields for SupplierFields {
    ghost value_of = { supplier_value };

    fn value(row: &Row<SupplierFields>, place: usize) -> ColumnValue<'_> {
        match place {
            4 => ColumnValue::Text(&row.fields().city),
            5 => ColumnValue::Text(&row.fields().nation),
            6 => ColumnValue::Text(&row.fields().region),
            _ => ColumnValue::Number(0),
        }
    }
}

impl QueryFields for PartFields {
    ghost value_of = { part_value };

    fn value(row: &Row<PartFields>, place: usize) -> ColumnValue<'_> {
        match place {
            3 => ColumnValue::Text(&row.fields().manufacturer),
            4 => ColumnValue::Text(&row.fields().category),
            5 => ColumnValue::Text(&row.fields().brand),
            _ => ColumnValue::Number(0),
        }
    }
}

impl QueryFields for DateFields {
    ghost value_of = { date_value };

    fn value(row: &Row<DateFields>, place: usize) -> ColumnValue<'_> {
        match place {
            1 => ColumnValue::Number(row.fields().key),
            3 => ColumnValue::Text(&row.fields().day_of_week),
            4 => ColumnValue::Text(&row.fields().month),
            5 => ColumnValue::Number(row.fields().year),
            6 => ColumnValue::Number(row.fields().year_month_number),
            7 => ColumnValue::Text(&row.fields().year_month),
            12 => ColumnValue::Number(row.fields().week),
            13 => ColumnValue::Text(&row.fields().selling_season),
            16 => ColumnValue::Text(&row.fields().holiday_flag),
            _ => ColumnValue::Number(0),
        }
    }
}

// Whether a row passes all tests.
pub(crate) fn passes<F: QueryFields>(tests: &[Test], row: &Row<F>) -> bool
    ensures { result ≡ pass tests.now (λ place. F.value_of place row.now) }
{
    tests
        .iter()
        .all(|test| test.cond.holds(F::value(row, test.column.place)))
}

/// Whether a number lies in the range, both ends included; every number does where there is none.
pub fn is_within(range: Option<NumberRange>, number: u64) -> bool
    ensures { result ≡ is_within range number }
{
    match range {
        None => true,
        Some(range) => range.from <= number && number <= range.to,
    }
}
