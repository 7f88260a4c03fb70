//! Copies of the rows of dimensions.

ghost use Rattle.std.specs.Prelude.{◌≡◌, IfOk};

use ssb_schema::{CustomerFields, DateFields, Keyed, PartFields, Row, SupplierFields, Text};
use std::alloc::{AllocError, Global};

/// The values of a row of a dimension, which are copied.
pub(crate) trait CopiedFields: Keyed {
    /// The same values.
    fn copied(&self) -> Result<Self, AllocError>
        ensures { IfOk result (λ copy. copy ≡ self.now) };
}

// The same text.
fn copied_text(text: &Text) -> Result<Text, AllocError>
    ensures { IfOk result (λ copy. copy ≡ text.now) }
{
    text.clone()
}

impl CopiedFields for CustomerFields {
    fn copied(&self) -> Result<CustomerFields, AllocError> {
        Ok(CustomerFields {
            key: self.key,
            name: copied_text(&self.name)?,
            address: copied_text(&self.address)?,
            city: copied_text(&self.city)?,
            nation: copied_text(&self.nation)?,
            region: copied_text(&self.region)?,
            phone: copied_text(&self.phone)?,
            market_segment: copied_text(&self.market_segment)?,
        })
    }
}

impl CopiedFields for SupplierFields {
    fn copied(&self) -> Result<SupplierFields, AllocError> {
        Ok(SupplierFields {
            key: self.key,
            name: copied_text(&self.name)?,
            address: copied_text(&self.address)?,
            city: copied_text(&self.city)?,
            nation: copied_text(&self.nation)?,
            region: copied_text(&self.region)?,
            phone: copied_text(&self.phone)?,
        })
    }
}

impl CopiedFields for PartFields {
    fn copied(&self) -> Result<PartFields, AllocError> {
        Ok(PartFields {
            key: self.key,
            name: copied_text(&self.name)?,
            manufacturer: copied_text(&self.manufacturer)?,
            category: copied_text(&self.category)?,
            brand: copied_text(&self.brand)?,
            color: copied_text(&self.color)?,
            part_type: copied_text(&self.part_type)?,
            size: copied_text(&self.size)?,
            container: copied_text(&self.container)?,
        })
    }
}

impl CopiedFields for DateFields {
    fn copied(&self) -> Result<DateFields, AllocError> {
        Ok(DateFields {
            key: self.key,
            date_text: copied_text(&self.date_text)?,
            day_of_week: copied_text(&self.day_of_week)?,
            month: copied_text(&self.month)?,
            year: self.year,
            year_month_number: self.year_month_number,
            year_month: copied_text(&self.year_month)?,
            day_in_week: copied_text(&self.day_in_week)?,
            day_in_month: copied_text(&self.day_in_month)?,
            day_in_year: copied_text(&self.day_in_year)?,
            month_in_year: copied_text(&self.month_in_year)?,
            week: self.week,
            selling_season: copied_text(&self.selling_season)?,
            last_day_in_week_flag: copied_text(&self.last_day_in_week_flag)?,
            last_day_in_month_flag: copied_text(&self.last_day_in_month_flag)?,
            holiday_flag: copied_text(&self.holiday_flag)?,
            weekday_flag: copied_text(&self.weekday_flag)?,
        })
    }
}

// The same row.
fn copied_row<F: CopiedFields>(row: &Row<F>) -> Result<Row<F>, AllocError>
    ensures { IfOk result (λ copy. copy ≡ row.now) }
{
    let fields = row.fields().copied()?;
    match Row::new(fields) {
        Ok(row) => Ok(row),
        // The columns take them in the row that is copied.
        Err(_) => unreachable!(),
    }
}

/// The same rows.
pub(crate) fn copied_rows<F: CopiedFields>(
    alloc: Global,
    rows: &[Row<F>],
) -> Result<Vec<Row<F>>, AllocError>
    ensures { IfOk result (λ copies. copies.items ≡ rows.now) }
{
    let mut copies = Vec::with_capacity(alloc, rows.len())?;
    for row in rows {
        copies.push(copied_row(row)?)?;
    }
    Ok(copies)
}
