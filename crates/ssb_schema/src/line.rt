//! Lines of orders, the rows of the fact table.

ghost use Rattle.std.specs.Prelude.{◌≡◌, IfOk, IfErr, None, map, true};
ghost use Rattle.ssb_schema.specs.declared.table.Table.TheVariants as table;
ghost use Rattle.ssb_schema.specs.Columns.{row_fault, value_of};
ghost use Rattle.ssb_schema.specs.Rows.{IsWithinLimits, line_values};

use crate::cells::Cells;
use crate::fact::Fact;
use crate::fault::{Refused, SchemaFault};
use crate::kind::{Cell, check, key_is_taken, takes_text};
use crate::row::{Fields, Row};
use crate::table::Table;
use crate::texts::LineTexts;
use std::marker::Model;

// The greatest amount.
const MOST_AMOUNT: u64 = 4_294_967_295;

/// The values of a line, column by column in the order of the benchmark's LINEORDER. Prices are in the file's unit.
#[derive(Drop)]
pub struct LineFields {
    /// LO_ORDERKEY.
    pub order_key: u64,
    /// LO_LINENUMBER.
    pub line_number: u64,
    /// LO_CUSTKEY.
    pub customer_key: u64,
    /// LO_PARTKEY.
    pub part_key: u64,
    /// LO_SUPPKEY.
    pub supplier_key: u64,
    /// LO_ORDERDATE.
    pub order_date: u64,
    /// LO_QUANTITY.
    pub quantity: u64,
    /// LO_EXTENDEDPRICE.
    pub extended_price: u64,
    /// LO_ORDTOTALPRICE.
    pub order_total_price: u64,
    /// LO_DISCOUNT.
    pub discount: u64,
    /// LO_REVENUE.
    pub revenue: u64,
    /// LO_SUPPLYCOST.
    pub supply_cost: u64,
    /// LO_TAX.
    pub tax: u64,
    /// LO_COMMITDATE.
    pub commit_date: u64,
    /// LO_ORDERPRIORITY, LO_SHIPPRIORITY and LO_SHIPMODE.
    pub texts: LineTexts,
}

/// A line whose values are within their columns' limits. Contracts see its values; the numbers lie packed to their
/// ranges.
#[derive(Clone, Drop)]
pub struct Line {
    order_key: u64,
    customer_key: u64,
    part_key: u64,
    supplier_key: u64,
    order_date: u64,
    commit_date: u64,
    extended_price: u32,
    order_total_price: u32,
    revenue: u32,
    supply_cost: u32,
    line_number: u8,
    quantity: u8,
    discount: u8,
    tax: u8,
    texts: LineTexts,
}

impl Model for Line {
    ghost use Rattle.std.specs.Prelude.{◌≡◌, None};
    ghost use Rattle.ssb_schema.specs.declared.table.Table.TheVariants as table;
    ghost use Rattle.ssb_schema.specs.declared.line.LineFields.{LineFields};
    ghost use Rattle.ssb_schema.specs.Columns.{row_fault};
    ghost use Rattle.ssb_schema.specs.Rows.{line_values};

    ghost Value = { LineFields };

    ghost use Rattle.ssb_schema.specs.Views.{line_view};

    ghost view = { line_view };

    ghost invariant = { λ line. row_fault table.Lineorder (line_values (line_view line)) ≡ None };
}

impl Fields for LineFields {
    ghost of_table = { table.Lineorder };

    ghost values = { line_values };

    fn table() -> Table {
        Table::Lineorder
    }

    fn cells(&self) -> Cells<'_> {
        Cells::of(&[
            Cell::Number(self.order_key),
            Cell::Number(self.line_number),
            Cell::Number(self.customer_key),
            Cell::Number(self.part_key),
            Cell::Number(self.supplier_key),
            Cell::Number(self.order_date),
            Cell::Text(self.texts.order_priority()),
            Cell::Text(self.texts.ship_priority()),
            Cell::Number(self.quantity),
            Cell::Number(self.extended_price),
            Cell::Number(self.order_total_price),
            Cell::Number(self.discount),
            Cell::Number(self.revenue),
            Cell::Number(self.supply_cost),
            Cell::Number(self.tax),
            Cell::Number(self.commit_date),
            Cell::Text(self.texts.ship_mode()),
        ])
    }

    // Most lines are taken, and are read by the million: their cells are not made.
    fn fault(&self) -> Option<SchemaFault> {
        if self.is_taken() {
            return None;
        }
        check(Table::Lineorder, self.cells().as_slice())
    }
}

impl LineFields {
    // Whether the numbers are within their columns' ranges. A key always is.
    fn is_within_limits(&self) -> bool
        ensures { result ≡ true → IsWithinLimits self.now }
    {
        1 <= self.line_number
            && self.line_number <= 7
            && 1 <= self.quantity
            && self.quantity <= 50
            && self.extended_price <= MOST_AMOUNT
            && self.order_total_price <= MOST_AMOUNT
            && self.discount <= 10
            && self.revenue <= MOST_AMOUNT
            && self.supply_cost <= MOST_AMOUNT
            && self.tax <= 8
    }

    // Whether the columns take all values.
    fn is_taken(&self) -> bool
        ensures { result ≡ true → row_fault table.Lineorder (line_values self.now) ≡ None }
    {
        key_is_taken(self.order_key);
        key_is_taken(self.customer_key);
        key_is_taken(self.part_key);
        key_is_taken(self.supplier_key);
        key_is_taken(self.order_date);
        key_is_taken(self.commit_date);
        if !self.is_within_limits() {
            return false;
        }
        if !takes_text(self.texts.order_priority()) {
            return false;
        }
        if !takes_text(self.texts.ship_priority()) {
            return false;
        }
        takes_text(self.texts.ship_mode())
    }
}

impl Line {
    ghost use Rattle.ssb_schema.specs.Facts.{fact_of, IsFactWithinLimits};
    ghost use Rattle.ssb_schema.specs.Refusals.{fault_of};

    /// A line of these values, or the first fault in the order of its columns, with the values.
    pub fn new(fields: LineFields) -> Result<Line, Refused<LineFields>>
        ensures fault { fault_of result ≡ row_fault table.Lineorder (line_values fields) }
        ensures row { IfOk result (λ line. line ≡ fields) }
        ensures back { IfErr result (λ refused. refused.back ≡ fields) }
    {
        Ok(Line::packed(Row::new(fields)?))
    }

    /// The line of a row: its numbers are packed to their ranges.
    pub fn packed(row: Row<LineFields>) -> Line
        ensures { result ≡ row }
    {
        let fields = row.into_fields();
        Line {
            order_key: fields.order_key,
            customer_key: fields.customer_key,
            part_key: fields.part_key,
            supplier_key: fields.supplier_key,
            order_date: fields.order_date,
            commit_date: fields.commit_date,
            extended_price: fields.extended_price as u32,
            order_total_price: fields.order_total_price as u32,
            revenue: fields.revenue as u32,
            supply_cost: fields.supply_cost as u32,
            line_number: fields.line_number as u8,
            quantity: fields.quantity as u8,
            discount: fields.discount as u8,
            tax: fields.tax as u8,
            texts: fields.texts,
        }
    }

    /// The values of its columns, as cells.
    pub fn cells(&self) -> Cells<'_>
        ensures values { map value_of result ≡ line_values self.now }
        ensures sound { row_fault table.Lineorder (line_values self.now) ≡ None }
    {
        Cells::of(&[
            Cell::Number(self.order_key),
            Cell::Number(u64::from(self.line_number)),
            Cell::Number(self.customer_key),
            Cell::Number(self.part_key),
            Cell::Number(self.supplier_key),
            Cell::Number(self.order_date),
            Cell::Text(self.texts.order_priority()),
            Cell::Text(self.texts.ship_priority()),
            Cell::Number(u64::from(self.quantity)),
            Cell::Number(u64::from(self.extended_price)),
            Cell::Number(u64::from(self.order_total_price)),
            Cell::Number(u64::from(self.discount)),
            Cell::Number(u64::from(self.revenue)),
            Cell::Number(u64::from(self.supply_cost)),
            Cell::Number(u64::from(self.tax)),
            Cell::Number(self.commit_date),
            Cell::Text(self.texts.ship_mode()),
        ])
    }

    /// What queries and columns read of the line.
    pub fn fact(&self) -> Fact
        ensures value { result ≡ fact_of self.now }
        ensures limits { IsWithinLimits self.now }
        ensures ranges { IsFactWithinLimits result }
    {
        Fact {
            order_key: self.order_key,
            customer: self.customer_key,
            supplier: self.supplier_key,
            part: self.part_key,
            date: self.order_date,
            quantity: self.quantity,
            discount: self.discount,
            price: self.extended_price,
            revenue: self.revenue,
            cost: self.supply_cost,
        }
    }

    /// LO_ORDERKEY.
    pub fn order_key(&self) -> u64
        ensures { result ≡ self.now.order_key }
    {
        self.order_key
    }

    /// LO_LINENUMBER.
    pub fn line_number(&self) -> u8
        ensures { result ≡ self.now.line_number }
    {
        self.line_number
    }

    /// LO_CUSTKEY.
    pub fn customer_key(&self) -> u64
        ensures { result ≡ self.now.customer_key }
    {
        self.customer_key
    }

    /// LO_PARTKEY.
    pub fn part_key(&self) -> u64
        ensures { result ≡ self.now.part_key }
    {
        self.part_key
    }

    /// LO_SUPPKEY.
    pub fn supplier_key(&self) -> u64
        ensures { result ≡ self.now.supplier_key }
    {
        self.supplier_key
    }

    /// LO_ORDERDATE.
    pub fn order_date(&self) -> u64
        ensures { result ≡ self.now.order_date }
    {
        self.order_date
    }
}
