//! Dates from records.

ghost use Rattle.std.specs.Prelude.{◌≡◌};
ghost use Rattle.csv.specs.Records.{fields_of};
ghost use Rattle.ssb_schema.specs.declared.table.Table.TheVariants as table;
ghost use Rattle.ssb_text.specs.Row.{Gives, values_from};

use crate::error::LineFault;
use crate::row::{RecordFields, read_number, read_text};
use csv::ByteRecord;
use ssb_schema::{Column, DateFields, Table, Text};
use std::alloc::Global;

// The first seven columns of a date.
#[derive(Drop)]
struct FirstColumns {
    key: u64,
    date_text: Text,
    day_of_week: Text,
    month: Text,
    year: u64,
    year_month_number: u64,
    year_month: Text,
}

// The other ten.
#[derive(Drop)]
struct LastColumns {
    day_in_week: Text,
    day_in_month: Text,
    day_in_year: Text,
    month_in_year: Text,
    week: u64,
    selling_season: Text,
    last_day_in_week_flag: Text,
    last_day_in_month_flag: Text,
    holiday_flag: Text,
    weekday_flag: Text,
}

impl FirstColumns {
    ghost use Rattle.ssb_text.specs.DateColumns.{first_kinds, first_values};

    #[tactic(auto, unfolding(crate::specs::Row::values_from))]
    fn read(alloc: Global, record: &ByteRecord) -> Result<FirstColumns, LineFault>
        ensures { Gives first_values result (values_from table.Date 0 first_kinds (fields_of record.now)) }
    {
        let table = Table::Date;
        Ok(FirstColumns {
            key: read_number(record, Column { table, place: 1 })?,
            date_text: read_text(alloc, record, Column { table, place: 2 })?,
            day_of_week: read_text(alloc, record, Column { table, place: 3 })?,
            month: read_text(alloc, record, Column { table, place: 4 })?,
            year: read_number(record, Column { table, place: 5 })?,
            year_month_number: read_number(record, Column { table, place: 6 })?,
            year_month: read_text(alloc, record, Column { table, place: 7 })?,
        })
    }
}

impl LastColumns {
    ghost use Rattle.ssb_text.specs.DateColumns.{last_kinds, last_values};

    #[tactic(auto, unfolding(crate::specs::Row::values_from))]
    fn read(alloc: Global, record: &ByteRecord) -> Result<LastColumns, LineFault>
        ensures { Gives last_values result (values_from table.Date 7 last_kinds (fields_of record.now)) }
    {
        let table = Table::Date;
        Ok(LastColumns {
            day_in_week: read_text(alloc, record, Column { table, place: 8 })?,
            day_in_month: read_text(alloc, record, Column { table, place: 9 })?,
            day_in_year: read_text(alloc, record, Column { table, place: 10 })?,
            month_in_year: read_text(alloc, record, Column { table, place: 11 })?,
            week: read_number(record, Column { table, place: 12 })?,
            selling_season: read_text(alloc, record, Column { table, place: 13 })?,
            last_day_in_week_flag: read_text(alloc, record, Column { table, place: 14 })?,
            last_day_in_month_flag: read_text(alloc, record, Column { table, place: 15 })?,
            holiday_flag: read_text(alloc, record, Column { table, place: 16 })?,
            weekday_flag: read_text(alloc, record, Column { table, place: 17 })?,
        })
    }
}

impl RecordFields for DateFields {
    fn of_record(alloc: Global, record: &ByteRecord) -> Result<DateFields, LineFault> {
        let first = FirstColumns::read(alloc, record)?;
        let last = LastColumns::read(alloc, record)?;
        Ok(DateFields {
            key: first.key,
            date_text: first.date_text,
            day_of_week: first.day_of_week,
            month: first.month,
            year: first.year,
            year_month_number: first.year_month_number,
            year_month: first.year_month,
            day_in_week: last.day_in_week,
            day_in_month: last.day_in_month,
            day_in_year: last.day_in_year,
            month_in_year: last.month_in_year,
            week: last.week,
            selling_season: last.selling_season,
            last_day_in_week_flag: last.last_day_in_week_flag,
            last_day_in_month_flag: last.last_day_in_month_flag,
            holiday_flag: last.holiday_flag,
            weekday_flag: last.weekday_flag,
        })
    }
}
