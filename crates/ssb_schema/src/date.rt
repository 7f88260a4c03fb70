//! Date rows.

ghost use Rattle.ssb_schema.specs.declared.table.Table.TheVariants as table;
ghost use Rattle.ssb_schema.specs.Keys.{date_key};
ghost use Rattle.ssb_schema.specs.Rows.{date_values};

use crate::cells::Cells;
use crate::kind::Cell;
use crate::row::{Fields, Keyed, Row};
use crate::table::Table;
use crate::text::Text;

/// The values of a date, column by column in the order of the benchmark's table.
#[derive(Drop)]
pub struct DateFields {
    /// D_DATEKEY.
    pub key: u64,
    /// D_DATE.
    pub date_text: Text,
    /// D_DAYOFWEEK.
    pub day_of_week: Text,
    /// D_MONTH.
    pub month: Text,
    /// D_YEAR.
    pub year: u64,
    /// D_YEARMONTHNUM.
    pub year_month_number: u64,
    /// D_YEARMONTH.
    pub year_month: Text,
    /// D_DAYNUMINWEEK.
    pub day_in_week: Text,
    /// D_DAYNUMINMONTH.
    pub day_in_month: Text,
    /// D_DAYNUMINYEAR.
    pub day_in_year: Text,
    /// D_MONTHNUMINYEAR.
    pub month_in_year: Text,
    /// D_WEEKNUMINYEAR.
    pub week: u64,
    /// D_SELLINGSEASON.
    pub selling_season: Text,
    /// D_LASTDAYINWEEKFL.
    pub last_day_in_week_flag: Text,
    /// D_LASTDAYINMONTHFL.
    pub last_day_in_month_flag: Text,
    /// D_HOLIDAYFL.
    pub holiday_flag: Text,
    /// D_WEEKDAYFL.
    pub weekday_flag: Text,
}

/// A date whose values are within their columns' limits. Contracts see its values.
pub type DateRow = Row<DateFields>;

impl Fields for DateFields {
    ghost of_table = { table.Date };

    ghost values = { date_values };

    fn table() -> Table {
        Table::Date
    }

    fn cells(&self) -> Cells<'_> {
        Cells::of(&[
            Cell::Number(self.key),
            Cell::Text(self.date_text.as_str()),
            Cell::Text(self.day_of_week.as_str()),
            Cell::Text(self.month.as_str()),
            Cell::Number(self.year),
            Cell::Number(self.year_month_number),
            Cell::Text(self.year_month.as_str()),
            Cell::Text(self.day_in_week.as_str()),
            Cell::Text(self.day_in_month.as_str()),
            Cell::Text(self.day_in_year.as_str()),
            Cell::Text(self.month_in_year.as_str()),
            Cell::Number(self.week),
            Cell::Text(self.selling_season.as_str()),
            Cell::Text(self.last_day_in_week_flag.as_str()),
            Cell::Text(self.last_day_in_month_flag.as_str()),
            Cell::Text(self.holiday_flag.as_str()),
            Cell::Text(self.weekday_flag.as_str()),
        ])
    }
}

impl Keyed for DateFields {
    ghost key_of = { date_key };

    fn key(&self) -> u64 {
        self.key
    }
}
